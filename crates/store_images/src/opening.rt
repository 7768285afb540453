//! Opening a store: what a crash left in the log is brought home, and the boot number rises.
ghost use Rattle.std.specs.Prelude.{◌≡◌, ◌+◌, ◌^◌, ◌<◌, IfErr, IfOk, IsFalse, IsTrue, MatchResult, OnOk, []};
ghost use Rattle.std.specs.Prelude.{ℕ, ◌≤◌, alloc_error, length};
ghost use Rattle.std.specs.Prelude.{◌⊎◌, Ok, Err, Some, None, true, false};
ghost use Rattle.base.specs.declared.TheConstants.{BLOCK_BYTES, FIRST_HOME_BLOCK, SUPER_BLOCK};
ghost use Rattle.disk.specs.Crash.{IsAtRest};
ghost use Rattle.disk.specs.Device.{Content, Device};
ghost use Rattle.layout.specs.Geometry.{IsLawful};
ghost use Rattle.layout.specs.SuperForm.{IsSuper, super_bytes};
ghost use Rattle.nfs_spec.specs.Model.Tree.{Tree};
ghost use Rattle.txn.specs.CoreLaw.{IsFresh};
ghost use Rattle.circ.specs.Log.Installer.{may_install};
ghost use Rattle.circ.specs.Log.Log.{IsLawful as IsLawfulLog, Log};
ghost use Rattle.circ.specs.Log.Recovery.{HasOnlyRead, IsCertain, image_of};
ghost use Rattle.store_promise.specs.Openings.{IsAnsweredFor, IsLater, IsRefusedFor, ShowsNoCause};
ghost use Rattle.store_images.specs.BringingHome.{BringsHome, CountsCause, HasNoSuper, HasIncremented};
ghost use Rattle.store_images.specs.BringingHome.{HasNoLog, IsFound, IsFoundLog, PreservesBlocks, LeavesImage, unused};
ghost use Rattle.store_images.specs.Opening.{HasOpened, HoldsTree, Opens, store_of};
ghost use Rattle.store_images.specs.Settling.{HasCalled, IsIdle, IsQuiet};

use crate::opened::Store;
use base::SUPER_BLOCK;
use circ::LogFault;
use disk::{Block, BlockNo, CrashDisk, Failed, Side};
use layout::{LayoutFault, Super};
use procs::Done;
use std::alloc::Global;
use store_promise::OpenFault;
use txn::Core;
use wal::Wal;
use wal_calls::make_one;

/// Opens a store: brings home what the log holds, and counts the opening. An image of an older version is brought to
/// the newest in the same write as the boot number. An image is refused by the first of these that holds: an
/// allocation failed (NoMemory), its device has no blocks (Magic), the super block can't be read (Device) or is
/// refused as `Super::read` says, its sizes aren't the device's or no boot number is left (Range), a block of the log
/// can't be read (Device) or isn't one of a log (Log), or an allocation for it failed (NoMemory). Until then nothing
/// is written. Later only Device and NoMemory come.
/// A refusal hands the disk back, and is Device just where a call of the device failed and was counted. Whatever image
/// a device at rest has, each stop leaves its blocks as they were, save that what the log has may have come home; and
/// the super block as it was, or with both the next boot number and the newest version. One with a good image keeps
/// its tree at each stop, and so it does when it is opened again.
#[tactic(auto, using(crate::specs::Opening::has_opened))]
pub fn open<D: CrashDisk>(alloc: Global, disk: D) -> Result<Store<D>, (D, OpenFault)>
    ensures idle { IfOk result (λ store. IsIdle store.core) }
    ensures opened { MatchResult result
        (λ store. HasOpened (D.device disk) (Ok (store_of (D.device store.disk) store.core store.boot)))
        (λ refused. HasOpened (D.device disk) (Err (D.device refused.0, refused.1))) }
    ensures answered { MatchResult result
        (λ store. IsAnsweredFor (D.keeps_model store.disk) None (D.device disk) (D.device store.disk))
        (λ refused. IsAnsweredFor (D.keeps_model refused.0) (Some refused.1) (D.device disk)
        (D.device refused.0)) }
    ensures counted { IfErr result (λ refused. CountsCause refused.1 (D.device disk) (D.device refused.0)) }
    ensures left { IsAtRest (D.device disk) → MatchResult result
        (λ store. D.keeps_model store.disk → LeavesImage (D.device disk) (D.device store.disk))
        (λ refused. D.keeps_model refused.0 → LeavesImage (D.device disk) (D.device refused.0)) }
    ensures preserves { (tree : Tree) (first : ℕ) → HoldsTree (D.device disk) tree first → MatchResult result
        (λ store. D.keeps_model store.disk → Opens (D.device disk)
        (Ok (store_of (D.device store.disk) store.core store.boot)) tree first)
        (λ refused. D.keeps_model refused.0 → Opens (D.device disk)
        (Err (D.device refused.0, refused.1)) tree first) }
    ensures model { MatchResult result (λ store. D.keeps_model store.disk → D.keeps_model disk)
        (λ refused. D.keeps_model refused.0 → D.keeps_model disk) }
{
    let mut disk = disk;
    match recover(alloc, &mut disk) {
        Ok((core, boot)) => Ok(Store {
            disk,
            core,
            boot,
            alloc_cursor: 0,
        }),
        Err(fault) => Err((disk, fault)),
    }
}

// Brings home what the log has, and settles the next boot number.
#[tactic(auto, using(store_promise::proofs::Later::past_none, store_promise::proofs::Later::past_more, store_promise::proofs::Later::read_later))]
fn recover<D: CrashDisk>(alloc: Global, disk: &mut D) -> Result<(Core<Done>, u64), OpenFault>
    ensures size { IfOk result (λ opened. (D.device disk.new).size ≡ opened.0.log.blocks) }
    ensures lawful { IfOk result (λ opened. IsLawful opened.0.log.blocks opened.0.inodes) }
    ensures idle { IfOk result (λ opened. IsIdle opened.0) }
    ensures answered { MatchResult result
        (λ _. IsAnsweredFor (D.keeps_model disk.new) None (D.device disk.old) (D.device disk.new))
        (λ cause. IsAnsweredFor (D.keeps_model disk.new) (Some cause) (D.device disk.old) (D.device disk.new)) }
    ensures counted { IfErr result (λ cause. CountsCause cause (D.device disk.old) (D.device disk.new)) }
    ensures left { IsAtRest (D.device disk.old) → D.keeps_model disk.new
        → LeavesImage (D.device disk.old) (D.device disk.new) }
    ensures preserves { (tree : Tree) (first : ℕ) → HoldsTree (D.device disk.old) tree first
        → D.keeps_model disk.new
        → MatchResult result (λ opened. Opens (D.device disk.old)
        (Ok (store_of (D.device disk.new) opened.0 opened.1)) tree first)
        (λ cause. Opens (D.device disk.old) (Err (D.device disk.new, cause)) tree first) }
    ensures model { D.keeps_model disk.new → D.keeps_model disk.old }
{
    let mut block = Block::zeros(alloc)?;
    let (found, wal) = match find(alloc, disk, &mut block) {
        Ok(found) => found,
        Err(fault) => return Err(fault),
    };
    wal.lawful();
    layout::a_super_block_is_its_bytes();
    let boot = found.boot + 1;
    let mut core = Core::new(alloc, wal, found.geometry.inodes, boot);
    core.lawful();
    if let Err(fault) = install(disk, &mut core) {
        return Err(fault);
    }
    core.lawful();
    let geometry = found.geometry.newest();
    let incremented = Super { geometry, boot };
    if let Err(fault) = increment(alloc, disk, &mut block, incremented) {
        return Err(fault);
    }
    Ok((core, boot))
}

// The super block and the log of an image that may be opened. It only reads.
#[tactic(auto, using(circ::proofs::LogLemmas::OnlyRead::reads_then))]
fn find<D: CrashDisk>(
    alloc: Global,
    disk: &mut D,
    block: &mut Block,
) -> Result<(Super, Wal), OpenFault>
    ensures reads { HasOnlyRead (D.device disk.old) (D.device disk.new) }
    ensures failure { MatchResult result (λ found. (D.device disk.new).failures ≡ (D.device disk.old).failures)
        (λ cause. CountsCause cause (D.device disk.old) (D.device disk.new)) }
    ensures size { IfOk result (λ found. (D.device disk.old).size ≡ found.1.blocks) }
    ensures blocks { IfOk result (λ found. found.0.geometry.blocks ≡ (D.device disk.old).size) }
    ensures boot { IfOk result (λ found. found.0.boot + 1 < 2 ^ 64) }
    ensures fresh { IfOk result (λ found. IsFresh found.1) }
    ensures quiet { IfOk result (λ found. IsQuiet found.1) }
    ensures sound { IfOk result (λ found. found.1.broken ≡ false) }
    ensures found { D.keeps_model disk.new → IsCertain (D.device disk.old)
        → IfOk result (λ found. IsFound (D.device disk.old) found.0 found.1) }
    ensures none { D.keeps_model disk.new → IsCertain (D.device disk.old)
        → IfOk result (λ _. ShowsNoCause (D.device disk.old).size (image_of (D.device disk.old))) }
    ensures refused { IfErr result
        (λ cause. IsRefusedFor (D.keeps_model disk.new) cause (D.device disk.old) (D.device disk.new)) }
    ensures model { D.keeps_model disk.new → D.keeps_model disk.old }
{
    let found = read_super(disk, block)?;
    let wal = find_log(alloc, disk, found.geometry.blocks)?;
    Ok((found, wal))
}

// The log of an image of so many blocks. It only reads.
fn find_log<D: CrashDisk>(alloc: Global, disk: &mut D, blocks: u32) -> Result<Wal, OpenFault>
    requires size { blocks ≡ (D.device disk.old).size }
    requires homes { FIRST_HOME_BLOCK ≤ blocks }
    ensures reads { HasOnlyRead (D.device disk.old) (D.device disk.new) }
    ensures failure { MatchResult result (λ _. (D.device disk.new).failures ≡ (D.device disk.old).failures)
        (λ cause. CountsCause cause (D.device disk.old) (D.device disk.new)) }
    ensures blocks { IfOk result (λ log. log.blocks ≡ blocks) }
    ensures fresh { IfOk result IsFresh }
    ensures quiet { IfOk result IsQuiet }
    ensures sound { IfOk result (λ log. log.broken ≡ false) }
    ensures found { IfOk result (IsFoundLog (D.keeps_model disk.new × IsCertain (D.device disk.old))
        blocks (image_of (D.device disk.old))) }
    ensures refused { IfErr result (λ cause. HasNoLog (D.keeps_model disk.new × IsCertain (D.device disk.old))
        cause blocks (image_of (D.device disk.old))) }
    ensures model { D.keeps_model disk.new → D.keeps_model disk.old }
{
    match circ::recover(alloc, disk) {
        Ok(log) => match Wal::new(alloc, blocks, log) {
            Ok(wal) => Ok(wal),
            Err(error) => Err(OpenFault::NoMemory(error)),
        },
        Err(LogFault::Range | LogFault::Address) => Err(OpenFault::Log),
        Err(LogFault::Device) => Err(OpenFault::Device),
        Err(LogFault::NoMemory(error)) => Err(OpenFault::NoMemory(error)),
    }
}

/// The super block of an image that may be opened, as far as it shows. It only reads.
#[tactic(auto, using(circ::proofs::LogLemmas::OnlyRead::single_read, circ::proofs::LogLemmas::OnlyRead::no_read, store_promise::proofs::Later::read_later))]
pub fn read_super<D: CrashDisk>(disk: &mut D, block: &mut Block) -> Result<Super, OpenFault>
    ensures reads { HasOnlyRead (D.device disk.old) (D.device disk.new) }
    ensures failure { MatchResult result (λ found. (D.device disk.new).failures ≡ (D.device disk.old).failures)
        (λ cause. CountsCause cause (D.device disk.old) (D.device disk.new)) }
    ensures blocks { IfOk result (λ found. found.geometry.blocks ≡ (D.device disk.old).size) }
    ensures boot { IfOk result (λ found. found.boot + 1 < 2 ^ 64) }
    ensures found { D.keeps_model disk.new → IsCertain (D.device disk.old)
        → IfOk result (IsSuper (image_of (D.device disk.old) SUPER_BLOCK)) }
    ensures refused { IfErr result
        (λ cause. IsRefusedFor (D.keeps_model disk.new) cause (D.device disk.old) (D.device disk.new)) }
    ensures model { D.keeps_model disk.new → D.keeps_model disk.old }
{
    if disk.blocks() == 0 {
        return Err(OpenFault::Magic);
    }
    match disk.read(BlockNo(SUPER_BLOCK), block) {
        Ok(()) => super_in(block, disk.blocks()),
        Err(Failed) => Err(OpenFault::Device),
    }
}

// The super block that a block has, of an image of so many blocks that may be opened.
fn super_in(block: &Block, blocks: u32) -> Result<Super, OpenFault>
    ensures found { IfOk result (IsSuper block.now) }
    ensures blocks { IfOk result (λ found. found.geometry.blocks ≡ blocks) }
    ensures boot { IfOk result (λ found. found.boot + 1 < 2 ^ 64) }
    ensures refused { IfErr result (λ cause. HasNoSuper cause blocks block.now) }
{
    match Super::read(block.as_slice()) {
        Ok(found) => {
            if found.geometry.blocks != blocks || found.boot == u64::MAX {
                return Err(OpenFault::Range);
            }
            Ok(found)
        }
        Err(LayoutFault::Magic) => Err(OpenFault::Magic),
        Err(LayoutFault::Version) => Err(OpenFault::Version),
        Err(LayoutFault::Range) => Err(OpenFault::Range),
    }
}

// Makes the calls of an installation of all that is logged.
fn install<D: CrashDisk>(disk: &mut D, core: &mut Core<Done>) -> Result<(), OpenFault>
    requires size { (D.device disk.old).size ≡ core.old.log.blocks }
    requires bare { core.old ≡ unused core.old }
    requires fresh { IsFresh core.old.log }
    requires quiet { IsQuiet core.old.log }
    requires sound { core.old.log.broken ≡ false }
    ensures quiet { IsQuiet core.new.log }
    ensures later { IsLater (D.device disk.old) (D.device disk.new) }
    ensures blocks { core.new.log.blocks ≡ core.old.log.blocks }
    ensures bare { core.new ≡ unused core.new }
    ensures inodes { core.new.inodes ≡ core.old.inodes }
    ensures boot { core.new.boot ≡ core.old.boot }
    ensures fresh { IsFresh core.new.log }
    ensures none { OnOk result ((core.new.log.broken ≡ false) × (may_install core.new.log ≡ false)) }
    ensures clean { OnOk result (IsCertain (D.device disk.old) → IsCertain (D.device disk.new)) }
    ensures home { (before : Device) (incremented : Content) → BringsHome before incremented (D.device disk.old) core.old.log
        → BringsHome before incremented (D.device disk.new) core.new.log }
    ensures failure { MatchResult result (λ _. (D.device disk.new).failures ≡ (D.device disk.old).failures)
        (λ cause. (cause ≡ OpenFault.Device) × ((D.device disk.old).failures < (D.device disk.new).failures)) }
    ensures model { D.keeps_model disk.new → D.keeps_model disk.old }
{
    'calls: loop {
        if core.broken() {
            return Err(OpenFault::Device);
        }
        if !install_one(disk, core) {
            return Ok(());
        }
    }
}

// Makes the installer's next call, where it has one.
#[tactic(auto, using(wal_calls::proofs::CallersLemmas::Made::made_size, wal_calls::proofs::CallersLemmas::Made::made_later, wal_calls::proofs::CallersLemmas::Made::made_clean))]
fn install_one<D: CrashDisk>(disk: &mut D, core: &mut Core<Done>) -> bool
    requires size { (D.device disk.old).size ≡ core.old.log.blocks }
    requires bare { core.old ≡ unused core.old }
    requires fresh { IsFresh core.old.log }
    requires quiet { IsQuiet core.old.log }
    ensures quiet { IsQuiet core.new.log }
    ensures later { IsLater (D.device disk.old) (D.device disk.new) }
    ensures blocks { core.new.log.blocks ≡ core.old.log.blocks }
    ensures bare { core.new ≡ unused core.new }
    ensures inodes { core.new.inodes ≡ core.old.inodes }
    ensures boot { core.new.boot ≡ core.old.boot }
    ensures fresh { IsFresh core.new.log }
    ensures may { result ≡ may_install core.old.log }
    ensures called { IsTrue result
        → HasCalled core.old.log (D.device disk.old) core.new.log (D.device disk.new) }
    ensures counted { core.new.log.broken ≡ false → (D.device disk.new).failures ≡ (D.device disk.old).failures }
    ensures clean { core.new.log.broken ≡ false → IsCertain (D.device disk.old) → IsCertain (D.device disk.new) }
    ensures none { IsFalse result
        → (core.new ≡ core.old) × (D.device disk.new ≡ D.device disk.old) }
    ensures home { (before : Device) (incremented : Content) → BringsHome before incremented (D.device disk.old) core.old.log
        → BringsHome before incremented (D.device disk.new) core.new.log }
    ensures model { D.keeps_model disk.new → D.keeps_model disk.old }
{
    core.lawful();
    if !make_one(Side::Home, core, disk) {
        return false;
    }
    core.lawful();
    true
}

// Writes the super block, and settles it.
fn increment<D: CrashDisk>(
    alloc: Global,
    disk: &mut D,
    block: &mut Block,
    incremented: Super,
) -> Result<(), OpenFault>
    requires { 0 < (D.device disk.old).size }
    ensures later { IsLater (D.device disk.old) (D.device disk.new) }
    ensures failure { MatchResult result (λ _. (D.device disk.new).failures ≡ (D.device disk.old).failures)
        (λ cause. ((cause ≡ OpenFault.Device) × ((D.device disk.old).failures < (D.device disk.new).failures))
        ⊎ ((cause ≡ OpenFault.NoMemory alloc_error) × (D.device disk.new ≡ D.device disk.old))) }
    ensures incremented { (before : Device) (log : Log) → IsLawfulLog log → log.changes ≡ []
        → BringsHome before (super_bytes incremented) (D.device disk.old) log
        → MatchResult result (λ _. HasIncremented before (super_bytes incremented) (D.device disk.old)
        (D.device disk.new) log)
        (λ cause. PreservesBlocks before (D.device disk.new) (super_bytes incremented)) }
    ensures model { D.keeps_model disk.new → D.keeps_model disk.old }
{
    let bytes = incremented.write(alloc)?;
    put_whole(block, &bytes);
    match put_super(disk, block) {
        Ok(()) => Ok(()),
        Err(Failed) => Err(OpenFault::Device),
    }
}

// Makes a block these bytes.
#[tactic(auto, using(crate::proofs::Incrementing::all_of))]
fn put_whole(block: &mut Block, bytes: &[u8])
    requires { length bytes.now ≡ BLOCK_BYTES }
    ensures { block.new ≡ bytes.now }
{
    block.put(0, bytes);
}

// Writes a block as the super block, and settles it.
fn put_super<D: CrashDisk>(disk: &mut D, block: &Block) -> Result<(), Failed>
    requires { 0 < (D.device disk.old).size }
    ensures later { IsLater (D.device disk.old) (D.device disk.new) }
    ensures failure { MatchResult result (λ _. (D.device disk.new).failures ≡ (D.device disk.old).failures)
        (λ _. (D.device disk.old).failures < (D.device disk.new).failures) }
    ensures incremented { (before : Device) (log : Log) → IsLawfulLog log → log.changes ≡ []
        → BringsHome before block.now (D.device disk.old) log
        → MatchResult result (λ _. HasIncremented before block.now (D.device disk.old) (D.device disk.new) log)
        (λ _. PreservesBlocks before (D.device disk.new) block.now) }
    ensures model { D.keeps_model disk.new → D.keeps_model disk.old }
{
    disk.write(BlockNo(SUPER_BLOCK), block)?;
    disk.barrier(Side::Home)
}
