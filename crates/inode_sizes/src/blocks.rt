//! The blocks of a file that is cut.
ghost use Rattle.std.specs.Prelude.{◌≡◌, ◌+◌, ◌++◌, ◌≤◌, length, true, IfErr, IfOk, OnOk};
ghost use Rattle.base.specs.declared.TheConstants.{BLOCK_BYTES, INDIRECT_INDEXES};
ghost use Rattle.disk.specs.Crash.{Image};
ghost use Rattle.layout.specs.InodeForm.{is_data_block_or_none};
ghost use Rattle.nfs_spec.specs.Model.Tree.{Tree};
ghost use Rattle.inode.specs.Over.{IsResumable, MaySuspend};
ghost use Rattle.bitmap.specs.Bits.{AreOfBytes};
ghost use Rattle.inode.specs.WriteSets.WriteSetContents.{IsWriteSet, Shows, image_of, dirty_count};
ghost use Rattle.inode_sizes.specs.Cut.{zeroed};
ghost use Rattle.inode_sizes.specs.CutBlocks.{HasNumbers, HasZeros};

use base::BLOCK_BYTES;
use disk::BlockNo;
use inode::{Suspend, WriteSet, data_block};
use layout::Numbers;
use objects::Addr;
use std::alloc::{AllocError, Global};

// The bytes of a block with zeros behind the first so many.
fn zeroed(alloc: Global, block: &[u8], from: usize) -> Result<Vec<u8>, AllocError>
    requires len { length block.now ≡ BLOCK_BYTES }
    requires from { from ≤ BLOCK_BYTES }
    ensures len { IfOk result (λ bytes. length bytes.items ≡ BLOCK_BYTES) }
    ensures is { IfOk result (λ bytes. bytes.items ≡ zeroed from block.now) }
{
    let mut bytes = Vec::from_slice(alloc, &block[..from])?;
    bytes.resize(BLOCK_BYTES, 0)?;
    Ok(bytes)
}

/// Makes the bytes of a block zeros from one on, if there are a block and such bytes.
pub(crate) fn zero_from(
    alloc: Global,
    write_set: &mut WriteSet,
    number: u32,
    from: usize,
) -> Result<(), Suspend>
    requires { is_data_block_or_none write_set.old.there.geometry number ≡ true }
    ensures shows { OnOk result ((blocks : Image) → Shows write_set.old (image_of blocks write_set.old)
        → Shows write_set.new (image_of blocks write_set.new)) }
    ensures zeros { OnOk result ((blocks : Image) (tree : Tree) → IsWriteSet write_set.old blocks tree
        → from ≤ BLOCK_BYTES
        → HasZeros write_set.old.there.geometry number from (image_of blocks write_set.old) (image_of blocks write_set.new)) }
    ensures seen { write_set.new.seen ≡ write_set.old.seen }
    ensures geometry { write_set.new.there.geometry ≡ write_set.old.there.geometry }
    ensures dirty_count { dirty_count write_set.new ≤ dirty_count write_set.old + 1 }
    ensures err { IfErr result (λ suspend. MaySuspend write_set.old.seen suspend) }
    ensures resumable { IfErr result (λ suspend. IsResumable suspend) }
{
    if number == 0 {
        return Ok(());
    }
    if from >= BLOCK_BYTES {
        return Ok(());
    }
    let block = data_block(write_set.there(), number)?;
    let bytes = zeroed(alloc, block, from)?;
    write_set.put(Addr::whole(BlockNo(number)), bytes)
}

/// Writes the numbers in a block, if there is one.
pub(crate) fn put_numbers(
    alloc: Global,
    write_set: &mut WriteSet,
    number: u32,
    numbers: &[u32],
) -> Result<(), Suspend>
    requires placed { is_data_block_or_none write_set.old.there.geometry number ≡ true }
    requires len { length numbers.now ≡ INDIRECT_INDEXES }
    ensures shows { OnOk result ((blocks : Image) → Shows write_set.old (image_of blocks write_set.old)
        → Shows write_set.new (image_of blocks write_set.new)) }
    ensures numbers { OnOk result ((blocks : Image) → Shows write_set.old (image_of blocks write_set.old)
        → AreOfBytes write_set.old.there.geometry (image_of blocks write_set.old)
        → HasNumbers write_set.old.there.geometry number numbers.now (image_of blocks write_set.old)
        (image_of blocks write_set.new)) }
    ensures seen { write_set.new.seen ≡ write_set.old.seen }
    ensures geometry { write_set.new.there.geometry ≡ write_set.old.there.geometry }
    ensures dirty_count { dirty_count write_set.new ≤ dirty_count write_set.old + 1 }
    ensures err { IfErr result (λ suspend. MaySuspend write_set.old.seen suspend) }
    ensures resumable { IfErr result (λ suspend. IsResumable suspend) }
{
    if number == 0 {
        return Ok(());
    }
    let bytes = Numbers::spelled(alloc, numbers)?;
    write_set.put(Addr::whole(BlockNo(number)), bytes)
}
