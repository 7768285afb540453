//! Bits of the bitmaps that are set and cleared.
ghost use Rattle.std.specs.Prelude.{ℕ, ◌≡◌, ◌+◌, ◌*◌, ◌/◌, ◌<◌, ◌≤◌, length, IfErr, OnOk};
ghost use Rattle.base.specs.declared.TheConstants.{BITS_PER_BLOCK, FIRST_HOME_BLOCK};
ghost use Rattle.disk.specs.Crash.{Image};
ghost use Rattle.layout.specs.Geometry.{table_at};
ghost use Rattle.inode.specs.Over.{IsResumable, MaySuspend};
ghost use Rattle.inode.specs.WriteSets.WriteSetContents.{Shows, fresh, image_of, dirty_count};
ghost use Rattle.bitmap.specs.Bits.{MarksBlock, MarksNumber, PutsBit};

use base::FIRST_HOME_BLOCK;
use inode::{Suspend, WriteSet, bytes_at};
use layout::PIECE_BITS;
use layout_records::{piece_addr, put_bit};
use std::alloc::Global;

// Gives a bit of the bitmap that begins with this block a value.
fn mark(
    alloc: Global,
    write_set: &mut WriteSet,
    first: u32,
    bit: u32,
    is: bool,
) -> Result<(), Suspend>
    requires from { FIRST_HOME_BLOCK ≤ first }
    requires to { first + bit / BITS_PER_BLOCK
        < table_at write_set.old.there.geometry.blocks write_set.old.there.geometry.inodes }
    ensures shows { OnOk result ((blocks : Image) → Shows write_set.old (image_of blocks write_set.old)
        → Shows write_set.new (image_of blocks write_set.new)) }
    ensures puts { OnOk result ((blocks : Image) → Shows write_set.old (image_of blocks write_set.old)
        → PutsBit first bit is (image_of blocks write_set.old) (image_of blocks write_set.new)) }
    ensures seen { write_set.new.seen ≡ write_set.old.seen }
    ensures geometry { write_set.new.there.geometry ≡ write_set.old.there.geometry }
    ensures dirty_count { dirty_count write_set.new ≤ dirty_count write_set.old }
    ensures stays { (block offset len : ℕ) → fresh block offset len write_set.new ≤ fresh block offset len write_set.old }
    ensures err { IfErr result (λ suspend. MaySuspend write_set.old.seen suspend) }
    ensures resumable { IfErr result (λ suspend. IsResumable suspend) }
{
    let addr = piece_addr(first, bit / PIECE_BITS);
    let old = match bytes_at(write_set.there(), addr) {
        Ok(bytes) => Vec::from_slice(alloc, bytes),
        Err(suspend) => return Err(suspend),
    };
    let mut bytes = old?;
    put_bit(&mut bytes, (bit % PIECE_BITS) as usize, is);
    write_set.put(addr, bytes)?;
    Ok(())
}

/// Marks a block as used or as free.
pub fn mark_block(
    alloc: Global,
    write_set: &mut WriteSet,
    number: u32,
    is: bool,
) -> Result<(), Suspend>
    requires { number < write_set.old.there.geometry.blocks }
    ensures shows { OnOk result ((blocks : Image) → Shows write_set.old (image_of blocks write_set.old)
        → Shows write_set.new (image_of blocks write_set.new)) }
    ensures marks { OnOk result ((blocks : Image) → Shows write_set.old (image_of blocks write_set.old)
        → MarksBlock write_set.old.there.geometry number is (image_of blocks write_set.old)
        (image_of blocks write_set.new)) }
    ensures seen { write_set.new.seen ≡ write_set.old.seen }
    ensures geometry { write_set.new.there.geometry ≡ write_set.old.there.geometry }
    ensures dirty_count { dirty_count write_set.new ≤ dirty_count write_set.old }
    ensures stays { (block offset len : ℕ) → fresh block offset len write_set.new ≤ fresh block offset len write_set.old }
    ensures err { IfErr result (λ suspend. MaySuspend write_set.old.seen suspend) }
    ensures resumable { IfErr result (λ suspend. IsResumable suspend) }
{
    mark(alloc, write_set, FIRST_HOME_BLOCK, number, is)
}

/// Marks the number of an inode as used or as free.
pub fn mark_number(
    alloc: Global,
    write_set: &mut WriteSet,
    number: u32,
    is: bool,
) -> Result<(), Suspend>
    requires { number < write_set.old.there.geometry.inodes }
    ensures shows { OnOk result ((blocks : Image) → Shows write_set.old (image_of blocks write_set.old)
        → Shows write_set.new (image_of blocks write_set.new)) }
    ensures marks { OnOk result ((blocks : Image) → Shows write_set.old (image_of blocks write_set.old)
        → MarksNumber write_set.old.there.geometry number is (image_of blocks write_set.old)
        (image_of blocks write_set.new)) }
    ensures seen { write_set.new.seen ≡ write_set.old.seen }
    ensures geometry { write_set.new.there.geometry ≡ write_set.old.there.geometry }
    ensures dirty_count { dirty_count write_set.new ≤ dirty_count write_set.old }
    ensures stays { (block offset len : ℕ) → fresh block offset len write_set.new ≤ fresh block offset len write_set.old }
    ensures err { IfErr result (λ suspend. MaySuspend write_set.old.seen suspend) }
    ensures resumable { IfErr result (λ suspend. IsResumable suspend) }
{
    let first = write_set.there().geometry.inode_bitmap();
    mark(alloc, write_set, first.0, number, is)
}
