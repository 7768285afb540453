//! Blocks that become free.
ghost use Rattle.std.specs.Prelude.{◌≡◌, ◌<◌, ◌≤◌, All, length, take, get_or, IfErr, IfOk, OnOk};
ghost use Rattle.disk.specs.Crash.{Image};
ghost use Rattle.inode.specs.Over.{IsResumable, MaySuspend};
ghost use Rattle.inode.specs.WriteSets.WriteSetContents.{Shows, image_of, dirty_count};
ghost use Rattle.bitmap.specs.Inodes.Frees.{Frees};

use crate::unmark_blocks;
use base::FIRST_HOME_BLOCK;
use inode::{Snap, Suspend, WriteSet, bytes_at};
use layout::PIECE_BITS;
use layout_records::piece_addr;
use std::alloc::Global;

// Marks as free the first of these blocks, with as many of the next as can be marked at once. Said is how many these
// are.
fn free_next(alloc: Global, write_set: &mut WriteSet, numbers: &[u32]) -> Result<usize, Suspend>
    requires { 0 < length numbers.now }
    ensures some { IfOk result (λ count. 0 < count) }
    ensures most { IfOk result (λ count. count ≤ length numbers.now) }
    ensures shows { OnOk result ((blocks : Image) → Shows write_set.old (image_of blocks write_set.old)
        → Shows write_set.new (image_of blocks write_set.new)) }
    ensures frees { IfOk result (λ count. (blocks : Image) → Shows write_set.old (image_of blocks write_set.old)
        → Frees write_set.old.there.geometry (take count numbers.now) (image_of blocks write_set.old)
        (image_of blocks write_set.new)) }
    ensures seen { write_set.new.seen ≡ write_set.old.seen }
    ensures geometry { write_set.new.there.geometry ≡ write_set.old.there.geometry }
    ensures dirty_count { dirty_count write_set.new ≤ dirty_count write_set.old }
    ensures err { IfErr result (λ suspend. MaySuspend write_set.old.seen suspend) }
    ensures resumable { IfErr result (λ suspend. get_or numbers.now 0 0 < write_set.old.there.geometry.blocks → IsResumable suspend) }
{
    if numbers[0] >= write_set.there().geometry.blocks {
        return Err(Suspend::Io);
    }
    unmark_blocks(alloc, write_set, numbers)
}

// Marks blocks as free, as they come.
fn free_each(alloc: Global, write_set: &mut WriteSet, numbers: &[u32]) -> Result<(), Suspend>
    ensures shows { OnOk result ((blocks : Image) → Shows write_set.old (image_of blocks write_set.old)
        → Shows write_set.new (image_of blocks write_set.new)) }
    ensures frees { OnOk result ((blocks : Image) → Shows write_set.old (image_of blocks write_set.old)
        → Frees write_set.old.there.geometry numbers.now (image_of blocks write_set.old) (image_of blocks write_set.new)) }
    ensures seen { write_set.new.seen ≡ write_set.old.seen }
    ensures geometry { write_set.new.there.geometry ≡ write_set.old.there.geometry }
    ensures dirty_count { dirty_count write_set.new ≤ dirty_count write_set.old }
    ensures err { IfErr result (λ suspend. MaySuspend write_set.old.seen suspend) }
    ensures resumable { IfErr result (λ suspend. All (λ number. number < write_set.old.there.geometry.blocks) numbers.now
        → IsResumable suspend) }
{
    let mut at = 0;
    'numbers: while at < numbers.len() {
        match free_next(alloc, write_set, &numbers[at..]) {
            Ok(count) => at += count,
            Err(suspend) => return Err(suspend),
        }
    }
    Ok(())
}

// Asks for the bit of a block.
fn ask_bit(snap: &Snap, number: u32) -> Result<(), Suspend>
    ensures err { IfErr result (λ suspend. MaySuspend snap.now suspend) }
    ensures resumable { IfErr result (λ suspend. number < snap.now.geometry.blocks → IsResumable suspend) }
{
    if number >= snap.geometry.blocks {
        return Err(Suspend::Io);
    }
    match bytes_at(snap, piece_addr(FIRST_HOME_BLOCK, number / PIECE_BITS)) {
        Ok(_) => Ok(()),
        Err(suspend) => Err(suspend),
    }
}

// Asks for the bits of these blocks, in their order: for each piece of the bitmap once.
fn ask_bits(alloc: Global, snap: &Snap, numbers: &[u32]) -> Result<(), Suspend>
    ensures err { IfErr result (λ suspend. MaySuspend snap.now suspend) }
    ensures resumable { IfErr result (λ suspend. All (λ number. number < snap.now.geometry.blocks) numbers.now
        → IsResumable suspend) }
{
    let pieces = (snap.geometry.blocks / PIECE_BITS) as usize + 1;
    let mut asked = vec![in alloc; false; pieces]?;
    for number in numbers {
        if let Some(was_asked) = asked.get_mut((*number / PIECE_BITS) as usize) {
            if *was_asked {
                continue;
            }
            *was_asked = true;
        }
        ask_bit(snap, *number)?;
    }
    Ok(())
}

/// Marks blocks as free. Their bits are asked for in the order in which the blocks come, and written from the lowest on: so
/// each piece of the bitmap is written once, however scattered the blocks are.
pub fn free_all(alloc: Global, write_set: &mut WriteSet, numbers: &[u32]) -> Result<(), Suspend>
    ensures shows { OnOk result ((blocks : Image) → Shows write_set.old (image_of blocks write_set.old)
        → Shows write_set.new (image_of blocks write_set.new)) }
    ensures frees { OnOk result ((blocks : Image) → Shows write_set.old (image_of blocks write_set.old)
        → Frees write_set.old.there.geometry numbers.now (image_of blocks write_set.old) (image_of blocks write_set.new)) }
    ensures seen { write_set.new.seen ≡ write_set.old.seen }
    ensures geometry { write_set.new.there.geometry ≡ write_set.old.there.geometry }
    ensures dirty_count { dirty_count write_set.new ≤ dirty_count write_set.old }
    ensures err { IfErr result (λ suspend. MaySuspend write_set.old.seen suspend) }
    ensures resumable { IfErr result (λ suspend. All (λ number. number < write_set.old.there.geometry.blocks) numbers.now
        → IsResumable suspend) }
{
    match ask_bits(alloc, write_set.there(), numbers) {
        Ok(()) => {}
        Err(suspend) => return Err(suspend),
    }
    let mut rising = Vec::from_slice(alloc, numbers)?;
    rising.sort_unstable();
    match free_each(alloc, write_set, &rising) {
        Ok(()) => Ok(()),
        Err(suspend) => Err(suspend),
    }
}
