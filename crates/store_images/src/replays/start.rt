//! The beginning of a replay: what the log has comes home, and the boot number rises.
ghost use Rattle.std.specs.Prelude.{◌≡◌, ◌+◌, ◌<◌, ◌≤◌, ◌^◌, ℕ, Some, None, length, All, IfErr, IfOk};
ghost use Rattle.std.specs.Prelude.{MatchResult, OnOk, replicate};
ghost use Rattle.base.specs.declared.TheConstants.{BLOCK_BYTES, FIRST_HOME_BLOCK, START_BLOCK, SUPER_BLOCK};
ghost use Rattle.disk.specs.Device.{CountsFailure};
ghost use Rattle.layout.specs.declared.version.FormatVersion.TheVariants.{Second};
ghost use Rattle.nfs_spec.specs.Model.Tree.{Tree};
ghost use Rattle.circ.specs.Log.EightBytes.{with_number};
ghost use Rattle.circ.specs.Log.Law.{with_changes, with_home};
ghost use Rattle.circ.specs.Log.Log.{IsHomeOn, blocks_of, changes_of};
ghost use Rattle.circ.specs.Log.Overlay.{HasHomes, IsInRange, end_in, logged_in};
ghost use Rattle.circ.specs.Log.Recovery.{HasOnlyRead, IsCertain, image_of};
ghost use Rattle.store_promise.specs.Openings.{IsAnsweredFor, IsLater};
ghost use Rattle.store_images.specs.BringingHome.{CountsCause, HasNoLog};
ghost use Rattle.store_images.specs.Opening.{HoldsTree};
ghost use Rattle.store_images.specs.Replays.AtHome.{Begins, IsLogOf};
ghost use Rattle.store_images.specs.Replays.Putting.{HasComeHome, with_log_home};

use crate::read_super;
use crate::replays::home_writes::{put, put_blocks};
use base::{START_BLOCK, SUPER_BLOCK};
use circ::{LogFault, Recovered, put_start};
use disk::{Block, BlockNo, CrashDisk, Failed, Side};
use layout::{Geometry, Super};
use std::alloc::Global;
use store_promise::OpenFault;

/// Brings home what the log has, and raises the boot number, as an opening does: so nothing is in the log then, and all
/// is settled. An image is refused as an opening refuses it, before anything is written, and a failed call of the device
/// is Device.
#[tactic(auto, using(store_promise::proofs::Later::past_more, store_promise::proofs::Later::past_one, store_promise::proofs::Later::past_none, store_promise::proofs::Later::read_later, circ::proofs::LogLemmas::OnlyRead::reads_then))]
pub(crate) fn begin<D: CrashDisk>(
    alloc: Global,
    disk: &mut D,
    block: &mut Block,
) -> Result<Geometry, OpenFault>
    ensures newest { IfOk result (λ geometry. geometry.version ≡ Second) }
    ensures size { IfOk result (λ geometry. geometry.blocks ≡ (D.device disk.new).size) }
    ensures answered { MatchResult result
        (λ _. IsAnsweredFor (D.keeps_model disk.new) None (D.device disk.old) (D.device disk.new))
        (λ cause. IsAnsweredFor (D.keeps_model disk.new) (Some cause) (D.device disk.old) (D.device disk.new)) }
    ensures counted { IfErr result (λ cause. CountsCause cause (D.device disk.old) (D.device disk.new)) }
    ensures begun { (tree : Tree) (first : ℕ) → HoldsTree (D.device disk.old) tree first → D.keeps_model disk.new
        → Begins (D.device disk.old) (D.device disk.new) tree first result }
    ensures model { D.keeps_model disk.new → D.keeps_model disk.old }
{
    layout::a_super_block_is_its_bytes();
    let found = read_super(disk, block)?;
    let (logged, end) = find_log(alloc, disk)?;
    let geometry = found.geometry.newest();
    let incremented = Super {
        geometry,
        boot: found.boot + 1,
    };
    let bytes = incremented.write(alloc)?;
    match begin_home(disk, block, &logged, end, &bytes) {
        Ok(()) => Ok(geometry),
        Err(Failed) => Err(OpenFault::Device),
    }
}

// The blocks that the log has, with their homes, and the position at which it ends. It only reads.
#[tactic(auto, using(circ::proofs::LogLemmas::OnlyRead::reads_then, circ::proofs::LogLemmas::OnlyRead::no_read, circ::proofs::LogLemmas::OnlyRead::single_read))]
fn find_log<D: CrashDisk>(
    alloc: Global,
    disk: &mut D,
) -> Result<(Vec<(BlockNo, Block)>, u64), OpenFault>
    requires { FIRST_HOME_BLOCK ≤ (D.device disk.old).size }
    ensures reads { HasOnlyRead (D.device disk.old) (D.device disk.new) }
    ensures failure { MatchResult result (λ _. (D.device disk.new).failures ≡ (D.device disk.old).failures)
        (λ cause. CountsCause cause (D.device disk.old) (D.device disk.new)) }
    ensures homes { IfOk result (λ found. All (IsHomeOn (D.device disk.old).size) (blocks_of found.0.items)) }
    ensures fits { IfOk result (λ found. found.1 < 2 ^ 64) }
    ensures found { D.keeps_model disk.new → IsCertain (D.device disk.old) → IfOk result (λ found.
        IsLogOf (D.device disk.old).size (image_of (D.device disk.old)) found.0.items found.1) }
    ensures refused { IfErr result (λ cause. HasNoLog (D.keeps_model disk.new × IsCertain (D.device disk.old))
        cause (D.device disk.old).size (image_of (D.device disk.old))) }
    ensures model { D.keeps_model disk.new → D.keeps_model disk.old }
{
    match circ::recover(alloc, disk) {
        Ok(Recovered { start, logged }) => {
            let end = start + logged.len() as u64;
            Ok((logged, end))
        }
        Err(LogFault::Range | LogFault::Address) => Err(OpenFault::Log),
        Err(LogFault::Device) => Err(OpenFault::Device),
        Err(LogFault::NoMemory(error)) => Err(OpenFault::NoMemory(error)),
    }
}

// Writes the blocks of a log home, that it begins where it ends, and a super block; and settles them.
#[tactic(auto, using(store_promise::proofs::Later::past_more, store_promise::proofs::Later::past_one, store_promise::proofs::Later::past_none))]
fn begin_home<D: CrashDisk>(
    disk: &mut D,
    block: &mut Block,
    logged: &[(BlockNo, Block)],
    end: u64,
    incremented: &[u8],
) -> Result<(), Failed>
    requires some { FIRST_HOME_BLOCK ≤ (D.device disk.old).size }
    requires homes { All (IsHomeOn (D.device disk.old).size) (blocks_of logged.now) }
    requires whole { length incremented.now ≡ BLOCK_BYTES }
    ensures later { IsLater (D.device disk.old) (D.device disk.new) }
    ensures failure { CountsFailure (D.device disk.old) (D.device disk.new) result }
    ensures home { OnOk result (HasComeHome (D.device disk.old) (D.device disk.new)
        (with_log_home (image_of (D.device disk.old)) logged.now end incremented.now)) }
    ensures model { D.keeps_model disk.new → D.keeps_model disk.old }
{
    put_blocks(disk, logged)?;
    put_start(block, end);
    put(disk, BlockNo(START_BLOCK), block)?;
    put_whole(block, incremented);
    put(disk, BlockNo(SUPER_BLOCK), block)?;
    disk.barrier(Side::Home)
}

// Makes a block these bytes.
#[tactic(auto, using(crate::proofs::Incrementing::all_of))]
fn put_whole(block: &mut Block, bytes: &[u8])
    requires { length bytes.now ≡ BLOCK_BYTES }
    ensures { block.new ≡ bytes.now }
{
    block.put(0, bytes);
}
