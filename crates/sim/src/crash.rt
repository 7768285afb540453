//! What a crash leaves, and bytes that are changed behind it.
ghost use Rattle.std.specs.Prelude.{◌≡◌, ◌<◌, ◌≤◌, ◌+◌, length, IfOk, OnOk};
ghost use Rattle.base.specs.declared.TheConstants.{BLOCK_BYTES};
ghost use Rattle.disk.specs.Memory.{memory_device};
ghost use Rattle.sim.specs.Crashing.{IsLeft, IsPoked, digits_of};

use disk::{Block, BlockNo, CrashDisk, MemDisk};
use sim_words::Choice;
use std::alloc::{AllocError, Global};

/// The device stops, and leaves of each block the content that is chosen.
pub fn crashed(alloc: Global, disk: MemDisk, choice: &Choice) -> Result<MemDisk, AllocError>
    ensures { IfOk result (λ left. IsLeft choice.now disk left) }
{
    let digits = digits_of(alloc, disk.blocks(), choice)?;
    Ok(disk.crash(&digits))
}

// The index of the content that is chosen of each block that has several: at most so many have.
fn digits_of(alloc: Global, blocks: u32, choice: &Choice) -> Result<Vec<u32>, AllocError>
    ensures { IfOk result (λ digits. digits.items ≡ digits_of blocks choice.now) }
{
    match choice {
        Choice::Old => Ok(Vec::new(alloc)),
        Choice::New => vec![in alloc; u32::MAX; blocks as usize],
        Choice::Each(digits) => digits.as_slice().to_vec(alloc),
    }
}

/// Bytes of a block are changed, from an offset on.
pub fn poke(
    alloc: Global,
    disk: &mut MemDisk,
    block: BlockNo,
    offset: usize,
    bytes: &[u8],
) -> Result<(), AllocError>
    requires there { block.0 < (memory_device disk.old).size }
    requires within { offset + length bytes.now ≤ BLOCK_BYTES }
    ensures { OnOk result (IsPoked block.0 offset bytes.now disk.old disk.new) }
{
    let mut content = Block::zeros(alloc)?;
    content.copy_from(disk.newest(block));
    content.put(offset, bytes);
    disk.set(block, &content);
    Ok(())
}
