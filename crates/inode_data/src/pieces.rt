//! Pieces of bytes, each of which lies in one block of a regular file.
ghost use Rattle.std.specs.Prelude.{ℕ, ◌≡◌, ◌+◌, ◌-◌, ◌/◌, ◌%◌, ◌<◌, ◌≤◌, List, length};
ghost use Rattle.std.specs.Prelude.{max, nat_eq, true, Some, IfErr, IfOk};
ghost use Rattle.base.specs.declared.TheConstants.{BLOCK_BYTES, FILE_INDEXES, FIRST_DOUBLE_INDEX, LARGEST_FILE};
ghost use Rattle.disk.specs.Crash.{Image};
ghost use Rattle.nfs_spec.specs.Model.Cost.{cost};
ghost use Rattle.nfs_spec.specs.Model.Node.{Node};
ghost use Rattle.nfs_spec.specs.Model.Tree.{Tree, free, node_at};
ghost use Rattle.nfs_spec.specs.Procedures.Write.{with_text};
ghost use Rattle.layout.specs.InodeForm.{is_data_block_or_none};
ghost use Rattle.inode.specs.Over.{HasInode, IsResumable, MaySuspend, number_at};
ghost use Rattle.inode.specs.Shown.{body_in};
ghost use Rattle.inode.specs.WriteSets.WriteSetContents.{IsWriteSet, image_of, dirty_count};
ghost use Rattle.inode_data.specs.CleanCounts.{clean_count};
ghost use Rattle.inode_data.specs.Written.{IsWrite, NamesRegular, PutsPiece, WritesText};

use crate::blocks::filled;
use crate::doubles::{inner_of, map_double, map_first_inner, map_inner};
use crate::mapped_blocks::{map_direct, map_first, map_indirect, rewrite};
use base::{BLOCK_BYTES, DIRECT_INDEXES, FIRST_DOUBLE_INDEX};
use inode::{Suspend, WriteSet, block_number, inner_number};
use layout::Inode;
use std::alloc::Global;

// The greater of two sizes.
fn greater(size: u64, end: u64) -> u64
    ensures { result ≡ max size end }
{
    if size < end { end } else { size }
}

// Puts the bytes of a block that the file doesn't have in a free one, at an index that an inner block names. It is done
// if there is room.
fn put_piece_double(
    alloc: Global,
    write_set: &mut WriteSet,
    number: u32,
    inode: &mut Inode,
    index: usize,
    bytes: Vec<u8>,
    size: u64,
) -> Result<bool, Suspend>
    requires past { FIRST_DOUBLE_INDEX ≤ index }
    requires within { index < FILE_INDEXES }
    requires len { length bytes.items ≡ BLOCK_BYTES }
    ensures ok { IfOk result (λ done. done ≡ true
        → (blocks : Image) (tree : Tree) (offset : ℕ) (piece : List ℕ) → IsWriteSet write_set.old blocks tree
        → IsWrite write_set.old.there.geometry (image_of blocks write_set.old) tree number inode.old offset piece
        bytes.items size → index ≡ offset / BLOCK_BYTES
        → nat_eq (number_at write_set.old.there.geometry (image_of blocks write_set.old) inode.old (offset / BLOCK_BYTES)) 0
        ≡ true
        → PutsPiece write_set.old write_set.new blocks tree number inode.old inode.new offset piece) }
    ensures has_space { IfOk result (λ done. (blocks : Image) (tree : Tree) (offset : ℕ) (piece : List ℕ)
        → IsWriteSet write_set.old blocks tree
        → IsWrite write_set.old.there.geometry (image_of blocks write_set.old) tree number inode.old offset piece
        bytes.items size → index ≡ offset / BLOCK_BYTES
        → nat_eq (number_at write_set.old.there.geometry (image_of blocks write_set.old) inode.old (offset / BLOCK_BYTES)) 0
        ≡ true
        → cost (with_text offset piece (body_in write_set.old.there.geometry (image_of blocks write_set.old) inode.old))
        - cost (body_in write_set.old.there.geometry (image_of blocks write_set.old) inode.old) ≤ free tree
        → done ≡ true) }
    ensures seen { write_set.new.seen ≡ write_set.old.seen }
    ensures twice { dirty_count write_set.new + clean_count write_set.new number inode.new.indirect inode.new.double
        ≤ dirty_count write_set.old + clean_count write_set.old number inode.old.indirect inode.old.double + 2 }
    ensures err { IfErr result (λ suspend. MaySuspend write_set.old.seen suspend) }
    ensures resumable { IfErr result (λ suspend. (blocks : Image) (tree : Tree) → IsWriteSet write_set.old blocks tree
        → HasInode write_set.old.there (image_of blocks write_set.old) tree number inode.old → IsResumable suspend) }
{
    if inode.double == 0 {
        return map_double(alloc, write_set, number, inode, index, bytes, size);
    }
    if !write_set.there().geometry.is_data(inode.double) {
        return Err(Suspend::Io);
    }
    let inner = match inner_number(write_set.there(), inode, inner_of(index)) {
        Ok(inner) => inner,
        Err(suspend) => return Err(suspend),
    };
    if inner == 0 {
        return map_first_inner(alloc, write_set, number, inode, index, bytes, size);
    }
    if !write_set.there().geometry.is_data(inner) {
        return Err(Suspend::Io);
    }
    map_inner(alloc, write_set, number, inode, index, inner, bytes, size)
}

// Puts the bytes of a block where the file has it, or in a free one. It is done if there is room.
fn put_piece(
    alloc: Global,
    write_set: &mut WriteSet,
    number: u32,
    inode: &mut Inode,
    index: usize,
    block: u32,
    bytes: Vec<u8>,
    size: u64,
) -> Result<bool, Suspend>
    requires within { index < FILE_INDEXES }
    requires placed { is_data_block_or_none write_set.old.there.geometry block ≡ true }
    requires len { length bytes.items ≡ BLOCK_BYTES }
    ensures ok { IfOk result (λ done. done ≡ true
        → (blocks : Image) (tree : Tree) (offset : ℕ) (piece : List ℕ) → IsWriteSet write_set.old blocks tree
        → IsWrite write_set.old.there.geometry (image_of blocks write_set.old) tree number inode.old offset piece
        bytes.items size → index ≡ offset / BLOCK_BYTES
        → block ≡ number_at write_set.old.there.geometry (image_of blocks write_set.old) inode.old (offset / BLOCK_BYTES)
        → PutsPiece write_set.old write_set.new blocks tree number inode.old inode.new offset piece) }
    ensures has_space { IfOk result (λ done. (blocks : Image) (tree : Tree) (offset : ℕ) (piece : List ℕ)
        → IsWriteSet write_set.old blocks tree
        → IsWrite write_set.old.there.geometry (image_of blocks write_set.old) tree number inode.old offset piece
        bytes.items size → index ≡ offset / BLOCK_BYTES
        → block ≡ number_at write_set.old.there.geometry (image_of blocks write_set.old) inode.old (offset / BLOCK_BYTES)
        → cost (with_text offset piece (body_in write_set.old.there.geometry (image_of blocks write_set.old) inode.old))
        - cost (body_in write_set.old.there.geometry (image_of blocks write_set.old) inode.old) ≤ free tree
        → done ≡ true) }
    ensures seen { write_set.new.seen ≡ write_set.old.seen }
    ensures twice { dirty_count write_set.new + clean_count write_set.new number inode.new.indirect inode.new.double
        ≤ dirty_count write_set.old + clean_count write_set.old number inode.old.indirect inode.old.double + 2 }
    ensures err { IfErr result (λ suspend. MaySuspend write_set.old.seen suspend) }
    ensures resumable { IfErr result (λ suspend. (blocks : Image) (tree : Tree) → IsWriteSet write_set.old blocks tree
        → HasInode write_set.old.there (image_of blocks write_set.old) tree number inode.old → IsResumable suspend) }
{
    if block != 0 {
        return match rewrite(alloc, write_set, number, inode, block, bytes, size) {
            Ok(()) => Ok(true),
            Err(suspend) => Err(suspend),
        };
    }
    if index < DIRECT_INDEXES {
        return map_direct(alloc, write_set, number, inode, index, bytes, size);
    }
    if index >= FIRST_DOUBLE_INDEX {
        return put_piece_double(alloc, write_set, number, inode, index, bytes, size);
    }
    if inode.indirect == 0 {
        return map_first(alloc, write_set, number, inode, index, bytes, size);
    }
    if !write_set.there().geometry.is_data(inode.indirect) {
        return Err(Suspend::Io);
    }
    map_indirect(alloc, write_set, number, inode, index, bytes, size)
}

/// Writes bytes that lie in one block to the regular file of this inode, which is its inode then. It isn't done
/// (false) where there is no room for what they take.
pub(crate) fn write_piece(
    alloc: Global,
    write_set: &mut WriteSet,
    number: u32,
    inode: &mut Inode,
    offset: u64,
    piece: &[u8],
) -> Result<bool, Suspend>
    requires some { 0 < length piece.now }
    requires within { offset % BLOCK_BYTES + length piece.now ≤ BLOCK_BYTES }
    requires small { offset + length piece.now ≤ LARGEST_FILE }
    ensures ok { IfOk result (λ done. done ≡ true → (blocks : Image) (tree : Tree) → IsWriteSet write_set.old blocks tree
        → NamesRegular write_set.old blocks number inode.old
        → WritesText write_set.new blocks tree number offset piece.now
        × NamesRegular write_set.new blocks number inode.new) }
    ensures has_space { IfOk result (λ done. (blocks : Image) (tree : Tree) (node : Node)
        → IsWriteSet write_set.old blocks tree → NamesRegular write_set.old blocks number inode.old
        → node_at tree number ≡ Some node
        → cost (with_text offset piece.now node.body) - cost node.body ≤ free tree → done ≡ true) }
    ensures seen { write_set.new.seen ≡ write_set.old.seen }
    ensures twice { dirty_count write_set.new + clean_count write_set.new number inode.new.indirect inode.new.double
        ≤ dirty_count write_set.old + clean_count write_set.old number inode.old.indirect inode.old.double + 2 }
    ensures err { IfErr result (λ suspend. MaySuspend write_set.old.seen suspend) }
    ensures resumable { IfErr result (λ suspend. (blocks : Image) (tree : Tree) → IsWriteSet write_set.old blocks tree
        → NamesRegular write_set.old blocks number inode.old → IsResumable suspend) }
{
    let index = (offset / BLOCK_BYTES as u64) as usize;
    let from = (offset % BLOCK_BYTES as u64) as usize;
    let size = greater(inode.size, offset + piece.len() as u64);
    let block = match block_number(write_set.there(), inode, index) {
        Ok(block) => block,
        Err(suspend) => return Err(suspend),
    };
    match filled(alloc, write_set.there(), block, from, piece) {
        Ok(bytes) => put_piece(alloc, write_set, number, inode, index, block, bytes, size),
        Err(suspend) => Err(suspend),
    }
}
