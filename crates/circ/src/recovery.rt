//! What an opening finds in the log.
ghost use Rattle.std.specs.Prelude.{◌≡◌, ◌≤◌, ◌<◌, ◌+◌, ◌*◌, ◌%◌, ◌^◌, ◌-◌, ◌⊎◌, ℕ, length, IfOk, OnOk, OnErr, alloc_error};
ghost use Rattle.std.specs.Prelude.{IsErrOf, All, true, false};
ghost use Rattle.base.specs.declared.TheConstants.{FIRST_HOME_BLOCK, LOG_SLOTS, LOG_HEADER_BLOCK};
ghost use Rattle.circ.specs.Log.EightBytes.{number_at};
ghost use Rattle.circ.specs.Log.Log.{IsHomeOn, blocks_of};
ghost use Rattle.circ.specs.Log.Overlay.{start_in, home_at, positions};
ghost use Rattle.circ.specs.Log.Recovery.{HasOnlyRead, CountsFault, IsCertain, image_of, IsRecovered, IsLog};

use crate::header::{address_at, end_of, start_of};
use crate::log::{LogFault, Recovered};
use base::{FIRST_HOME_BLOCK, FIRST_SLOT_BLOCK, LOG_HEADER_BLOCK, LOG_SLOTS, START_BLOCK};
use disk::{Block, BlockNo, CrashDisk};
use std::alloc::Global;

/// Reads the log of a disk: its blocks with their home addresses, in log order.
pub fn read_log<D: CrashDisk>(
    alloc: Global,
    disk: &mut D,
) -> Result<Vec<(BlockNo, Block)>, LogFault>
    requires { FIRST_HOME_BLOCK ≤ (D.device disk.old).size }
    ensures reads { HasOnlyRead (D.device disk.old) (D.device disk.new) }
    ensures failure { CountsFault (D.device disk.old) (D.device disk.new) result }
    ensures model { D.keeps_model disk.new → D.keeps_model disk.old }
    ensures log { D.keeps_model disk.new → IsCertain (D.device disk.old)
        → IsLog (D.device disk.old).size (image_of (D.device disk.old)) result }
{
    let Recovered { start: _, logged } = recover(alloc, disk)?;
    Ok(logged)
}

/// Reads the log of a disk, with where it begins.
#[tactic(auto, using(crate::proofs::LogLemmas::OnlyRead::reads_then))]
pub fn recover<D: CrashDisk>(alloc: Global, disk: &mut D) -> Result<Recovered, LogFault>
    requires { FIRST_HOME_BLOCK ≤ (D.device disk.old).size }
    ensures slots { IfOk result (λ found. length found.logged.items ≤ LOG_SLOTS) }
    ensures positions { IfOk result (λ found. found.start + length found.logged.items < 2 ^ 64) }
    ensures homes { IfOk result (λ found. All (IsHomeOn (D.device disk.old).size)
        (blocks_of found.logged.items)) }
    ensures reads { HasOnlyRead (D.device disk.old) (D.device disk.new) }
    ensures failure { CountsFault (D.device disk.old) (D.device disk.new) result }
    ensures model { D.keeps_model disk.new → D.keeps_model disk.old }
    ensures found { D.keeps_model disk.new → IsCertain (D.device disk.old)
        → IsRecovered (D.device disk.old).size (image_of (D.device disk.old)) result }
{
    let (header, start) = read_ends(alloc, disk)?;
    let blocks = disk.blocks();
    let count = positions_in_header(&header, start, blocks)?;
    let logged = read_slots(alloc, disk, blocks, &header, start, count)?;
    Ok(Recovered { start, logged })
}

// Reads the header, and where the log begins.
#[tactic(auto, using(crate::proofs::LogLemmas::OnlyRead::reads_then))]
fn read_ends<D: CrashDisk>(alloc: Global, disk: &mut D) -> Result<(Block, u64), LogFault>
    requires { FIRST_HOME_BLOCK ≤ (D.device disk.old).size }
    ensures reads { HasOnlyRead (D.device disk.old) (D.device disk.new) }
    ensures failure { CountsFault (D.device disk.old) (D.device disk.new) result }
    ensures model { D.keeps_model disk.new → D.keeps_model disk.old }
    ensures header { D.keeps_model disk.new → IsCertain (D.device disk.old)
        → IfOk result (λ ends. ends.0 ≡ image_of (D.device disk.old) LOG_HEADER_BLOCK) }
    ensures start { D.keeps_model disk.new → IsCertain (D.device disk.old)
        → IfOk result (λ ends. ends.1 ≡ start_in (image_of (D.device disk.old))) }
    ensures other { OnErr result (IsErrOf result LogFault.Device ⊎ IsErrOf result (LogFault.NoMemory alloc_error)) }
{
    let mut header = zeros(alloc)?;
    read_block(disk, BlockNo(LOG_HEADER_BLOCK), &mut header)?;
    let start = read_start(alloc, disk)?;
    Ok((header, start))
}

// How many positions the header tells from the start on.
fn positions_in_header(header: &Block, start: u64, blocks: u32) -> Result<usize, LogFault>
    ensures end { IfOk result (λ count. start + count ≡ number_at header.now 0) }
    ensures fits { IfOk result (λ count. start + count < 2 ^ 64) }
    ensures slots { IfOk result (λ count. count ≤ LOG_SLOTS) }
    ensures homes { IfOk result (λ count. (k : ℕ) → k < count
        → IsHomeOn blocks (home_at header.now (start + k))) }
    ensures range { IsErrOf result LogFault.Range → start ≤ number_at header.now 0
        → number_at header.now 0 ≤ start + LOG_SLOTS → ⊥ }
    ensures address { IsErrOf result LogFault.Address → (start ≤ number_at header.now 0)
        × (number_at header.now 0 ≤ start + LOG_SLOTS)
        × (((k : ℕ) → k < number_at header.now 0 - start
        → IsHomeOn blocks (home_at header.now (start + k))) → ⊥) }
    ensures other { OnErr result (IsErrOf result LogFault.Range ⊎ IsErrOf result LogFault.Address) }
{
    let end = end_of(header);
    if start > end || end - start > LOG_SLOTS {
        return Err(LogFault::Range);
    }
    let count = (end - start) as usize;
    if !has_homes(header, start, count, blocks) {
        return Err(LogFault::Address);
    }
    Ok(count)
}

// Reads where the log begins.
fn read_start<D: CrashDisk>(alloc: Global, disk: &mut D) -> Result<u64, LogFault>
    requires { FIRST_HOME_BLOCK ≤ (D.device disk.old).size }
    ensures reads { HasOnlyRead (D.device disk.old) (D.device disk.new) }
    ensures failure { CountsFault (D.device disk.old) (D.device disk.new) result }
    ensures model { D.keeps_model disk.new → D.keeps_model disk.old }
    ensures start { D.keeps_model disk.new → IsCertain (D.device disk.old)
        → IfOk result (λ start. start ≡ start_in (image_of (D.device disk.old))) }
    ensures other { OnErr result (IsErrOf result LogFault.Device ⊎ IsErrOf result (LogFault.NoMemory alloc_error)) }
{
    let mut block = zeros(alloc)?;
    read_block(disk, BlockNo(START_BLOCK), &mut block)?;
    Ok(start_of(&block))
}

// A block of zeros.
fn zeros(alloc: Global) -> Result<Block, LogFault>
    ensures { OnErr result (IsErrOf result (LogFault.NoMemory alloc_error)) }
{
    match Block::zeros(alloc) {
        Ok(block) => Ok(block),
        Err(error) => Err(LogFault::NoMemory(error)),
    }
}

// Reads a block.
fn read_block<D: CrashDisk>(disk: &mut D, block: BlockNo, out: &mut Block) -> Result<(), LogFault>
    requires { block.0 < (D.device disk.old).size }
    ensures reads { HasOnlyRead (D.device disk.old) (D.device disk.new) }
    ensures failure { CountsFault (D.device disk.old) (D.device disk.new) result }
    ensures model { D.keeps_model disk.new → D.keeps_model disk.old }
    ensures newest { D.keeps_model disk.new → IsCertain (D.device disk.old)
        → OnOk result (out.new ≡ image_of (D.device disk.old) block.0) }
    ensures other { OnErr result (IsErrOf result LogFault.Device) }
{
    match disk.read(block, out) {
        Ok(()) => Ok(()),
        Err(_) => Err(LogFault::Device),
    }
}

// Whether the home of each of so many positions lies behind the log and on the disk.
fn has_homes(header: &Block, start: u64, count: usize, blocks: u32) -> bool
    requires { start + count < 2 ^ 64 }
    ensures homes { result ≡ true → (k : ℕ) → k < count → IsHomeOn blocks (home_at header.now (start + k)) }
    ensures other { result ≡ false → ((k : ℕ) → k < count → IsHomeOn blocks (home_at header.now (start + k)))
        → ⊥ }
{
    for i in 0..count {
        let address = address_at(header, (start + i as u64) % LOG_SLOTS);
        if address < FIRST_HOME_BLOCK as u64 || address >= blocks as u64 {
            return false;
        }
    }
    true
}

// Reads the blocks of so many positions.
#[tactic(auto, using(crate::proofs::LogLemmas::OnlyRead::reads_then))]
fn read_slots<D: CrashDisk>(
    alloc: Global,
    disk: &mut D,
    blocks: u32,
    header: &Block,
    start: u64,
    count: usize,
) -> Result<Vec<(BlockNo, Block)>, LogFault>
    requires range { start + count < 2 ^ 64 }
    requires slots { count ≤ LOG_SLOTS }
    requires size { blocks ≡ (D.device disk.old).size }
    requires disk { FIRST_HOME_BLOCK ≤ blocks }
    requires homes { (k : ℕ) → k < count → IsHomeOn blocks (home_at header.now (start + k)) }
    ensures count { IfOk result (λ logged. length logged.items ≡ count) }
    ensures homes { IfOk result (λ logged. All (IsHomeOn blocks) (blocks_of logged.items)) }
    ensures reads { HasOnlyRead (D.device disk.old) (D.device disk.new) }
    ensures failure { CountsFault (D.device disk.old) (D.device disk.new) result }
    ensures model { D.keeps_model disk.new → D.keeps_model disk.old }
    ensures positions { D.keeps_model disk.new → IsCertain (D.device disk.old)
        → IfOk result (λ logged. logged.items
        ≡ positions header.now (image_of (D.device disk.old)) start count) }
    ensures other { OnErr result (IsErrOf result LogFault.Device ⊎ IsErrOf result (LogFault.NoMemory alloc_error)) }
{
    let mut logged = match Vec::with_capacity(alloc, count) {
        Ok(logged) => logged,
        Err(error) => return Err(LogFault::NoMemory(error)),
    };
    for i in 0..count {
        let slot = (start + i as u64) % LOG_SLOTS;
        let home = address_at(header, slot);
        let mut block = zeros(alloc)?;
        read_block(disk, BlockNo(FIRST_SLOT_BLOCK + slot as u32), &mut block)?;
        logged.push_reserved((BlockNo(home as u32), block));
    }
    Ok(logged)
}
