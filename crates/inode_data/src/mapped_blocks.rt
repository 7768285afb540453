//! A block of a file with new bytes in it, where it lies or in a free one.
ghost use Rattle.std.specs.Prelude.{ℕ, ◌≡◌, ◌+◌, ◌-◌, ◌/◌, ◌<◌, ◌≤◌, List, length, nat_eq, true, IfErr, IfOk, OnOk};
ghost use Rattle.base.specs.declared.TheConstants.{BLOCK_BYTES, DIRECT_INDEXES, FIRST_DOUBLE_INDEX};
ghost use Rattle.disk.specs.Crash.{Image};
ghost use Rattle.nfs_spec.specs.Model.Tree.{Tree, free};
ghost use Rattle.layout.specs.Places.{is_data};
ghost use Rattle.inode.specs.Over.{IsResumable, MaySuspend, number_at};
ghost use Rattle.inode.specs.WriteSets.WriteSetContents.{IsWriteSet, image_of, dirty_count};
ghost use Rattle.inode_data.specs.CleanCounts.{clean_count};
ghost use Rattle.inode_data.specs.Written.{IsWrite, PutsPiece};

use crate::inodes::{naming, sized, store, store_indirect, with_indirect_block};
use base::{BLOCK_BYTES, DIRECT_INDEXES};
use bitmap::take_block;
use inode::{Suspend, WriteSet, data_block};
use layout::Inode;
use layout_records::with_number;
use std::alloc::Global;

/// Writes the bytes of a block that the file has. As in each case below, `inode` is the file's inode then.
pub(crate) fn rewrite(
    alloc: Global,
    write_set: &mut WriteSet,
    number: u32,
    inode: &mut Inode,
    block: u32,
    bytes: Vec<u8>,
    size: u64,
) -> Result<(), Suspend>
    requires lies { is_data write_set.old.there.geometry block ≡ true }
    requires len { length bytes.items ≡ BLOCK_BYTES }
    ensures ok { OnOk result ((blocks : Image) (tree : Tree) (offset : ℕ) (piece : List ℕ)
        → IsWriteSet write_set.old blocks tree
        → IsWrite write_set.old.there.geometry (image_of blocks write_set.old) tree number inode.old offset piece
        bytes.items size
        → block ≡ number_at write_set.old.there.geometry (image_of blocks write_set.old) inode.old (offset / BLOCK_BYTES)
        → PutsPiece write_set.old write_set.new blocks tree number inode.old inode.new offset piece) }
    ensures seen { write_set.new.seen ≡ write_set.old.seen }
    ensures once { dirty_count write_set.new + clean_count write_set.new number inode.new.indirect inode.new.double
        ≤ dirty_count write_set.old + clean_count write_set.old number inode.old.indirect inode.old.double + 1 }
    ensures err { IfErr result (λ suspend. MaySuspend write_set.old.seen suspend) }
    ensures resumable { IfErr result (λ suspend. number < write_set.old.there.geometry.inodes → IsResumable suspend) }
{
    let same = sized(inode, size);
    *inode = same;
    store(alloc, write_set, number, block, bytes, &same)
}

/// Writes the bytes of a block to a free one, which the inode names from then on. Where none is free it isn't
/// done (false).
pub(crate) fn map_direct(
    alloc: Global,
    write_set: &mut WriteSet,
    number: u32,
    inode: &mut Inode,
    index: usize,
    bytes: Vec<u8>,
    size: u64,
) -> Result<bool, Suspend>
    requires direct_part { index < DIRECT_INDEXES }
    requires len { length bytes.items ≡ BLOCK_BYTES }
    ensures ok { IfOk result (λ done. done ≡ true
        → (blocks : Image) (tree : Tree) (offset : ℕ) (piece : List ℕ) → IsWriteSet write_set.old blocks tree
        → IsWrite write_set.old.there.geometry (image_of blocks write_set.old) tree number inode.old offset piece
        bytes.items size → index ≡ offset / BLOCK_BYTES
        → nat_eq (number_at write_set.old.there.geometry (image_of blocks write_set.old) inode.old (offset / BLOCK_BYTES)) 0
        ≡ true
        → PutsPiece write_set.old write_set.new blocks tree number inode.old inode.new offset piece) }
    ensures has_space { IfOk result (λ done. (blocks : Image) (tree : Tree) → IsWriteSet write_set.old blocks tree
        → 1 ≤ free tree → done ≡ true) }
    ensures seen { write_set.new.seen ≡ write_set.old.seen }
    ensures once { dirty_count write_set.new + clean_count write_set.new number inode.new.indirect inode.new.double
        ≤ dirty_count write_set.old + clean_count write_set.old number inode.old.indirect inode.old.double + 1 }
    ensures err { IfErr result (λ suspend. MaySuspend write_set.old.seen suspend) }
    ensures resumable { IfErr result (λ suspend. (blocks : Image) (tree : Tree) → IsWriteSet write_set.old blocks tree
        → number < write_set.old.there.geometry.inodes → IsResumable suspend) }
{
    match take_block(alloc, write_set) {
        Ok(Some(block)) => {
            let named = naming(inode, size, index, block);
            *inode = named;
            match store(alloc, write_set, number, block, bytes, &named) {
                Ok(()) => Ok(true),
                Err(suspend) => Err(suspend),
            }
        }
        Ok(None) => Ok(false),
        Err(suspend) => Err(suspend),
    }
}

/// Writes the bytes of a block to a free one, which the indirect block names from then on.
/// Where none is free it isn't done (false).
pub(crate) fn map_indirect(
    alloc: Global,
    write_set: &mut WriteSet,
    number: u32,
    inode: &mut Inode,
    index: usize,
    bytes: Vec<u8>,
    size: u64,
) -> Result<bool, Suspend>
    requires indirect_block { is_data write_set.old.there.geometry inode.old.indirect ≡ true }
    requires past { DIRECT_INDEXES ≤ index }
    requires within { index < FIRST_DOUBLE_INDEX }
    requires len { length bytes.items ≡ BLOCK_BYTES }
    ensures ok { IfOk result (λ done. done ≡ true
        → (blocks : Image) (tree : Tree) (offset : ℕ) (piece : List ℕ) → IsWriteSet write_set.old blocks tree
        → IsWrite write_set.old.there.geometry (image_of blocks write_set.old) tree number inode.old offset piece
        bytes.items size → index ≡ offset / BLOCK_BYTES
        → nat_eq (number_at write_set.old.there.geometry (image_of blocks write_set.old) inode.old (offset / BLOCK_BYTES)) 0
        ≡ true
        → PutsPiece write_set.old write_set.new blocks tree number inode.old inode.new offset piece) }
    ensures has_space { IfOk result (λ done. (blocks : Image) (tree : Tree) → IsWriteSet write_set.old blocks tree
        → 1 ≤ free tree → done ≡ true) }
    ensures seen { write_set.new.seen ≡ write_set.old.seen }
    ensures once { dirty_count write_set.new + clean_count write_set.new number inode.new.indirect inode.new.double
        ≤ dirty_count write_set.old + clean_count write_set.old number inode.old.indirect inode.old.double + 1 }
    ensures err { IfErr result (λ suspend. MaySuspend write_set.old.seen suspend) }
    ensures resumable { IfErr result (λ suspend. (blocks : Image) (tree : Tree) → IsWriteSet write_set.old blocks tree
        → number < write_set.old.there.geometry.inodes → IsResumable suspend) }
{
    let old = match data_block(write_set.there(), inode.indirect) {
        Ok(block) => Vec::from_slice(alloc, block)?,
        Err(suspend) => return Err(suspend),
    };
    match take_block(alloc, write_set) {
        Ok(Some(block)) => {
            let numbers = with_number(alloc, &old, index - DIRECT_INDEXES, block)?;
            let same = sized(inode, size);
            let indirect = inode.indirect;
            *inode = same;
            match store_indirect(
                alloc, write_set, number, indirect, numbers, block, bytes, &same,
            ) {
                Ok(()) => Ok(true),
                Err(suspend) => Err(suspend),
            }
        }
        Ok(None) => Ok(false),
        Err(suspend) => Err(suspend),
    }
}

/// Writes the bytes of a block to a free one, which another free one names, the indirect block
/// from then on. Where no two are free it isn't done (false).
pub(crate) fn map_first(
    alloc: Global,
    write_set: &mut WriteSet,
    number: u32,
    inode: &mut Inode,
    index: usize,
    bytes: Vec<u8>,
    size: u64,
) -> Result<bool, Suspend>
    requires none { nat_eq inode.old.indirect 0 ≡ true }
    requires past { DIRECT_INDEXES ≤ index }
    requires within { index < FIRST_DOUBLE_INDEX }
    requires len { length bytes.items ≡ BLOCK_BYTES }
    ensures ok { IfOk result (λ done. done ≡ true
        → (blocks : Image) (tree : Tree) (offset : ℕ) (piece : List ℕ) → IsWriteSet write_set.old blocks tree
        → IsWrite write_set.old.there.geometry (image_of blocks write_set.old) tree number inode.old offset piece
        bytes.items size → index ≡ offset / BLOCK_BYTES
        → nat_eq (number_at write_set.old.there.geometry (image_of blocks write_set.old) inode.old (offset / BLOCK_BYTES)) 0
        ≡ true
        → PutsPiece write_set.old write_set.new blocks tree number inode.old inode.new offset piece) }
    ensures has_space { IfOk result (λ done. (blocks : Image) (tree : Tree) → IsWriteSet write_set.old blocks tree
        → 2 ≤ free tree → done ≡ true) }
    ensures seen { write_set.new.seen ≡ write_set.old.seen }
    ensures once { dirty_count write_set.new + clean_count write_set.new number inode.new.indirect inode.new.double
        ≤ dirty_count write_set.old + clean_count write_set.old number inode.old.indirect inode.old.double + 1 }
    ensures err { IfErr result (λ suspend. MaySuspend write_set.old.seen suspend) }
    ensures resumable { IfErr result (λ suspend. (blocks : Image) (tree : Tree) → IsWriteSet write_set.old blocks tree
        → number < write_set.old.there.geometry.inodes → IsResumable suspend) }
{
    let block = match take_block(alloc, write_set) {
        Ok(Some(block)) => block,
        Ok(None) => return Ok(false),
        Err(suspend) => return Err(suspend),
    };
    match take_block(alloc, write_set) {
        Ok(Some(indirect_block)) => {
            let zeros = [0; BLOCK_BYTES];
            let numbers = with_number(alloc, &zeros, index - DIRECT_INDEXES, block)?;
            let repointed = with_indirect_block(inode, size, indirect_block);
            *inode = repointed;
            match store_indirect(
                alloc,
                write_set,
                number,
                indirect_block,
                numbers,
                block,
                bytes,
                &repointed,
            ) {
                Ok(()) => Ok(true),
                Err(suspend) => Err(suspend),
            }
        }
        Ok(None) => Ok(false),
        Err(suspend) => Err(suspend),
    }
}
