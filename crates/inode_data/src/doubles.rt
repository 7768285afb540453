//! A block of a file with new bytes in it, in a free one that an inner block names.
ghost use Rattle.std.specs.Prelude.{ℕ, ◌≡◌, ◌+◌, ◌/◌, ◌<◌, ◌≤◌, List, length, nat_eq, true, IfErr, IfOk};
ghost use Rattle.base.specs.declared.TheConstants.{BLOCK_BYTES, FILE_INDEXES, FIRST_DOUBLE_INDEX, INDIRECT_INDEXES};
ghost use Rattle.disk.specs.Crash.{Image};
ghost use Rattle.nfs_spec.specs.Model.Tree.{Tree, free};
ghost use Rattle.layout.specs.Parts.{content_in};
ghost use Rattle.layout.specs.Places.{is_data};
ghost use Rattle.inode.specs.Over.{IsResumable, MaySuspend, pointer_number_at, number_at};
ghost use Rattle.inode.specs.WriteSets.WriteSetContents.{IsWriteSet, image_of, dirty_count};
ghost use Rattle.inode_data.specs.Inner.{inner_of, index_in_inner};
ghost use Rattle.inode_data.specs.CleanCounts.{clean_count};
ghost use Rattle.inode_data.specs.Written.{IsWrite, PutsPiece};

use crate::inodes::{sized, store_double, store_indirect, with_double_block};
use base::{BLOCK_BYTES, FIRST_DOUBLE_INDEX, INDIRECT_INDEXES};
use bitmap::take_block;
use inode::{Suspend, WriteSet, data_block};
use layout::Inode;
use layout_records::with_number;
use std::alloc::Global;

/// The inner block that names an index.
pub(crate) fn inner_of(index: usize) -> usize
    requires past { FIRST_DOUBLE_INDEX ≤ index }
    requires within { index < FILE_INDEXES }
    ensures few { result < INDIRECT_INDEXES }
    ensures is { result ≡ inner_of index }
{
    (index - FIRST_DOUBLE_INDEX) / INDIRECT_INDEXES
}

/// The place of its number there.
pub(crate) fn index_in_inner(index: usize) -> usize
    requires { FIRST_DOUBLE_INDEX ≤ index }
    ensures few { result < INDIRECT_INDEXES }
    ensures is { result ≡ index_in_inner index }
{
    (index - FIRST_DOUBLE_INDEX) % INDIRECT_INDEXES
}

/// Writes the bytes of a block to a free one, which an inner block names from then on. Where none is free it isn't
/// done (false).
pub(crate) fn map_inner(
    alloc: Global,
    write_set: &mut WriteSet,
    number: u32,
    inode: &mut Inode,
    index: usize,
    inner: u32,
    bytes: Vec<u8>,
    size: u64,
) -> Result<bool, Suspend>
    requires inner { is_data write_set.old.there.geometry inner ≡ true }
    requires past { FIRST_DOUBLE_INDEX ≤ index }
    requires within { index < FILE_INDEXES }
    requires len { length bytes.items ≡ BLOCK_BYTES }
    ensures ok { IfOk result (λ done. done ≡ true
        → (blocks : Image) (tree : Tree) (offset : ℕ) (piece : List ℕ) → IsWriteSet write_set.old blocks tree
        → IsWrite write_set.old.there.geometry (image_of blocks write_set.old) tree number inode.old offset piece
        bytes.items size → index ≡ offset / BLOCK_BYTES
        → nat_eq (number_at write_set.old.there.geometry (image_of blocks write_set.old) inode.old (offset / BLOCK_BYTES)) 0
        ≡ true
        → inner ≡ pointer_number_at (content_in write_set.old.there.geometry (image_of blocks write_set.old)) inode.old.double
        (inner_of index)
        → PutsPiece write_set.old write_set.new blocks tree number inode.old inode.new offset piece) }
    ensures has_space { IfOk result (λ done. (blocks : Image) (tree : Tree) → IsWriteSet write_set.old blocks tree
        → 1 ≤ free tree → done ≡ true) }
    ensures seen { write_set.new.seen ≡ write_set.old.seen }
    ensures twice { dirty_count write_set.new + clean_count write_set.new number inode.new.indirect inode.new.double
        ≤ dirty_count write_set.old + clean_count write_set.old number inode.old.indirect inode.old.double + 2 }
    ensures err { IfErr result (λ suspend. MaySuspend write_set.old.seen suspend) }
    ensures resumable { IfErr result (λ suspend. (blocks : Image) (tree : Tree) → IsWriteSet write_set.old blocks tree
        → number < write_set.old.there.geometry.inodes → IsResumable suspend) }
{
    let old = match data_block(write_set.there(), inner) {
        Ok(block) => Vec::from_slice(alloc, block)?,
        Err(suspend) => return Err(suspend),
    };
    match take_block(alloc, write_set) {
        Ok(Some(block)) => {
            let numbers = with_number(alloc, &old, index_in_inner(index), block)?;
            let same = sized(inode, size);
            *inode = same;
            match store_indirect(
                alloc, write_set, number, inner, numbers, block, bytes, &same,
            ) {
                Ok(()) => Ok(true),
                Err(suspend) => Err(suspend),
            }
        }
        Ok(None) => Ok(false),
        Err(suspend) => Err(suspend),
    }
}

/// Writes the bytes of a block to a free one, which another free one names, a new inner block that the double indirect
/// block names from then on. Where no two are free it isn't done (false).
pub(crate) fn map_first_inner(
    alloc: Global,
    write_set: &mut WriteSet,
    number: u32,
    inode: &mut Inode,
    index: usize,
    bytes: Vec<u8>,
    size: u64,
) -> Result<bool, Suspend>
    requires double { is_data write_set.old.there.geometry inode.old.double ≡ true }
    requires past { FIRST_DOUBLE_INDEX ≤ index }
    requires within { index < FILE_INDEXES }
    requires len { length bytes.items ≡ BLOCK_BYTES }
    ensures ok { IfOk result (λ done. done ≡ true
        → (blocks : Image) (tree : Tree) (offset : ℕ) (piece : List ℕ) → IsWriteSet write_set.old blocks tree
        → IsWrite write_set.old.there.geometry (image_of blocks write_set.old) tree number inode.old offset piece
        bytes.items size → index ≡ offset / BLOCK_BYTES
        → nat_eq (number_at write_set.old.there.geometry (image_of blocks write_set.old) inode.old (offset / BLOCK_BYTES)) 0
        ≡ true
        → nat_eq (pointer_number_at (content_in write_set.old.there.geometry (image_of blocks write_set.old)) inode.old.double
        (inner_of index)) 0 ≡ true
        → PutsPiece write_set.old write_set.new blocks tree number inode.old inode.new offset piece) }
    ensures has_space { IfOk result (λ done. (blocks : Image) (tree : Tree) → IsWriteSet write_set.old blocks tree
        → 2 ≤ free tree → done ≡ true) }
    ensures seen { write_set.new.seen ≡ write_set.old.seen }
    ensures twice { dirty_count write_set.new + clean_count write_set.new number inode.new.indirect inode.new.double
        ≤ dirty_count write_set.old + clean_count write_set.old number inode.old.indirect inode.old.double + 2 }
    ensures err { IfErr result (λ suspend. MaySuspend write_set.old.seen suspend) }
    ensures resumable { IfErr result (λ suspend. (blocks : Image) (tree : Tree) → IsWriteSet write_set.old blocks tree
        → number < write_set.old.there.geometry.inodes → IsResumable suspend) }
{
    let old = match data_block(write_set.there(), inode.double) {
        Ok(block) => Vec::from_slice(alloc, block)?,
        Err(suspend) => return Err(suspend),
    };
    let block = match take_block(alloc, write_set) {
        Ok(Some(block)) => block,
        Ok(None) => return Ok(false),
        Err(suspend) => return Err(suspend),
    };
    match take_block(alloc, write_set) {
        Ok(Some(inner)) => {
            let zeros = [0; BLOCK_BYTES];
            let numbers = with_number(alloc, &zeros, index_in_inner(index), block)?;
            let inners = with_number(alloc, &old, inner_of(index), inner)?;
            let same = sized(inode, size);
            let double = inode.double;
            *inode = same;
            match store_double(
                alloc, write_set, number, double, inners, inner, numbers, block, bytes, &same,
            ) {
                Ok(()) => Ok(true),
                Err(suspend) => Err(suspend),
            }
        }
        Ok(None) => Ok(false),
        Err(suspend) => Err(suspend),
    }
}

/// Writes the bytes of a block to a free one, which another free one names, the first inner block of a third, which is
/// the double indirect block from then on. Where no three are free it isn't done (false).
pub(crate) fn map_double(
    alloc: Global,
    write_set: &mut WriteSet,
    number: u32,
    inode: &mut Inode,
    index: usize,
    bytes: Vec<u8>,
    size: u64,
) -> Result<bool, Suspend>
    requires none { nat_eq inode.old.double 0 ≡ true }
    requires past { FIRST_DOUBLE_INDEX ≤ index }
    requires within { index < FILE_INDEXES }
    requires len { length bytes.items ≡ BLOCK_BYTES }
    ensures ok { IfOk result (λ done. done ≡ true
        → (blocks : Image) (tree : Tree) (offset : ℕ) (piece : List ℕ) → IsWriteSet write_set.old blocks tree
        → IsWrite write_set.old.there.geometry (image_of blocks write_set.old) tree number inode.old offset piece
        bytes.items size → index ≡ offset / BLOCK_BYTES
        → nat_eq (number_at write_set.old.there.geometry (image_of blocks write_set.old) inode.old (offset / BLOCK_BYTES)) 0
        ≡ true
        → PutsPiece write_set.old write_set.new blocks tree number inode.old inode.new offset piece) }
    ensures has_space { IfOk result (λ done. (blocks : Image) (tree : Tree) → IsWriteSet write_set.old blocks tree
        → 3 ≤ free tree → done ≡ true) }
    ensures seen { write_set.new.seen ≡ write_set.old.seen }
    ensures twice { dirty_count write_set.new + clean_count write_set.new number inode.new.indirect inode.new.double
        ≤ dirty_count write_set.old + clean_count write_set.old number inode.old.indirect inode.old.double + 2 }
    ensures err { IfErr result (λ suspend. MaySuspend write_set.old.seen suspend) }
    ensures resumable { IfErr result (λ suspend. (blocks : Image) (tree : Tree) → IsWriteSet write_set.old blocks tree
        → number < write_set.old.there.geometry.inodes → IsResumable suspend) }
{
    let block = match take_block(alloc, write_set) {
        Ok(Some(block)) => block,
        Ok(None) => return Ok(false),
        Err(suspend) => return Err(suspend),
    };
    let inner = match take_block(alloc, write_set) {
        Ok(Some(inner)) => inner,
        Ok(None) => return Ok(false),
        Err(suspend) => return Err(suspend),
    };
    match take_block(alloc, write_set) {
        Ok(Some(double)) => {
            let zeros = [0; BLOCK_BYTES];
            let numbers = with_number(alloc, &zeros, index_in_inner(index), block)?;
            let inners = with_number(alloc, &zeros, inner_of(index), inner)?;
            let repointed = with_double_block(inode, size, double);
            *inode = repointed;
            match store_double(
                alloc, write_set, number, double, inners, inner, numbers, block, bytes, &repointed,
            ) {
                Ok(()) => Ok(true),
                Err(suspend) => Err(suspend),
            }
        }
        Ok(None) => Ok(false),
        Err(suspend) => Err(suspend),
    }
}
