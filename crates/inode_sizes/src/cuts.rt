//! Files that are cut.
ghost use Rattle.std.specs.Prelude.{◌≡◌, ◌+◌, ◌<◌, ◌≤◌, ℕ, Some, true, length, All, IfErr, IfOk, OnOk};
ghost use Rattle.base.specs.declared.TheConstants.{BLOCK_BYTES, DIRECT_INDEXES, DOUBLE_INDEXES, FILE_INDEXES};
ghost use Rattle.base.specs.declared.TheConstants.{INDIRECT_INDEXES, LARGEST_FILE};
ghost use Rattle.disk.specs.Crash.{Image};
ghost use Rattle.layout.specs.declared.inode.InodeKind.TheVariants as kinds;
ghost use Rattle.layout.specs.Decode.{node_with, numbers_of};
ghost use Rattle.layout.specs.InodeForm.{SoundInode, is_data_block_or_none};
ghost use Rattle.layout.specs.Parts.{content_in};
ghost use Rattle.nfs_spec.specs.Model.SetAttr.{with_length};
ghost use Rattle.nfs_spec.specs.Model.Tree.{Tree, with_node};
ghost use Rattle.inode.specs.Over.{HasInode, IsResumable, MaySuspend};
ghost use Rattle.inode.specs.Shown.{body_in};
ghost use Rattle.inode.specs.WriteSets.Attributes.{attributed};
ghost use Rattle.inode.specs.WriteSets.WriteSetContents.{IsWriteSet, Shows, image_of, dirty_count};
ghost use Rattle.bitmap.specs.Bits.{AreOfBytes};
ghost use Rattle.inode_sizes.specs.Cut.{count_before, last_of, left_in, numbered};
ghost use Rattle.inode_sizes.specs.CutBlocks.{FitsCut, HasPointers, IsCut, IsCutOf};
ghost use Rattle.inode_sizes.specs.Sized.{IsUse};

use crate::blocks::{put_numbers, zero_from};
use crate::doubles::{Double, cut_double};
use crate::numbers::{LeftOverNumbers, Row, cut_numbers, cut_row};
use base::{BLOCK_BYTES, DIRECT_INDEXES, FIRST_DOUBLE_INDEX};
use bitmap::free_all;
use inode::{Snap, Suspend, WriteSet, attributed, block_number, indirect_numbers};
use layout::Inode;
use std::alloc::Global;

// What stays of a file's numbers of blocks: those that its inode names itself, its indirect block and its double
// indirect block; and the blocks that it has no more.
#[derive(Drop)]
struct CutPointers {
    direct_part: LeftOverNumbers,
    indirect_part: Row,
    double: Double,
    gone: Vec<u32>,
}

// How many blocks it uses.
fn used_by(cut: &CutPointers) -> u32
    requires direct_part { cut.now.direct_part.count ≤ DIRECT_INDEXES }
    requires indirect_part { cut.now.indirect_part.used ≤ INDIRECT_INDEXES + 1 }
    requires double { cut.now.double.used ≤ DOUBLE_INDEXES + INDIRECT_INDEXES + 1 }
    ensures { result ≡ cut.now.direct_part.count + cut.now.indirect_part.used + cut.now.double.used }
{
    cut.direct_part.count + cut.indirect_part.used + cut.double.used
}

// Whether the number is that of a data block, or 0.
fn is_placed(snap: &Snap, number: u32) -> bool
    ensures { result ≡ is_data_block_or_none snap.now.geometry number }
{
    number == 0 || snap.geometry.is_data(number)
}

// Cuts a file's numbers of blocks: the first so many indexes stay.
fn cut_all(alloc: Global, snap: &Snap, inode: &Inode, count: usize) -> Result<CutPointers, Suspend>
    ensures fits { IfOk result (λ cut. FitsCut snap.now.geometry cut) }
    ensures ok { IfOk result (λ cut. (blocks : Image) (tree : Tree) (file : ℕ)
        → HasInode snap.now blocks tree file inode.now
        → IsCutOf (content_in snap.now.geometry blocks) inode.now count cut) }
    ensures err { IfErr result (λ suspend. MaySuspend snap.now suspend) }
    ensures resumable { IfErr result (λ suspend. (blocks : Image) (tree : Tree) (file : ℕ)
        → HasInode snap.now blocks tree file inode.now → IsResumable suspend) }
{
    if !is_placed(snap, inode.indirect) {
        return Err(Suspend::Io);
    }
    if !is_placed(snap, inode.double) {
        return Err(Suspend::Io);
    }
    let indirect = indirect_numbers(alloc, snap, inode)?;
    let mut gone = Vec::new(alloc);
    let direct_part = cut_numbers(alloc, &inode.direct, count, &mut gone)?;
    let behind = count.saturating_sub(DIRECT_INDEXES);
    let indirect_part = cut_row(alloc, inode.indirect, &indirect, behind, &mut gone)?;
    let further = count.saturating_sub(FIRST_DOUBLE_INDEX);
    let double = cut_double(alloc, snap, inode, further, &mut gone)?;
    Ok(CutPointers {
        direct_part,
        indirect_part,
        double,
        gone,
    })
}

// The inode of this size with what stays of its numbers.
fn numbered(inode: &Inode, size: u64, cut: &CutPointers) -> Inode
    requires { length cut.now.direct_part.numbers.items ≡ DIRECT_INDEXES }
    ensures { result ≡ numbered inode.now size cut.now.direct_part.numbers.items cut.now.indirect_part.pointer
        cut.now.double.pointer }
{
    let mut new = *inode;
    let mut direct = [0; DIRECT_INDEXES];
    direct.copy_from_slice(&cut.direct_part.numbers);
    new.size = size;
    new.direct = direct;
    new.indirect = cut.indirect_part.pointer;
    new.double = cut.double.pointer;
    new
}

// Writes the numbers that stay in pointer blocks of which a part stays.
fn write_pointers(alloc: Global, write_set: &mut WriteSet, cut: &CutPointers) -> Result<(), Suspend>
    requires { FitsCut write_set.old.there.geometry cut.now }
    ensures shows { OnOk result ((blocks : Image) → Shows write_set.old (image_of blocks write_set.old)
        → Shows write_set.new (image_of blocks write_set.new)) }
    ensures numbers { OnOk result ((blocks : Image) → Shows write_set.old (image_of blocks write_set.old)
        → AreOfBytes write_set.old.there.geometry (image_of blocks write_set.old)
        → HasPointers write_set.old.there.geometry cut.now (image_of blocks write_set.old) (image_of blocks write_set.new)) }
    ensures seen { write_set.new.seen ≡ write_set.old.seen }
    ensures geometry { write_set.new.there.geometry ≡ write_set.old.there.geometry }
    ensures dirty_count { dirty_count write_set.new ≤ dirty_count write_set.old + 3 }
    ensures err { IfErr result (λ suspend. MaySuspend write_set.old.seen suspend) }
    ensures resumable { IfErr result (λ suspend. IsResumable suspend) }
{
    match put_numbers(
        alloc,
        write_set,
        cut.indirect_part.pointer,
        &cut.indirect_part.numbers,
    ) {
        Ok(()) => {}
        Err(suspend) => return Err(suspend),
    }
    let inners = &cut.double.inners;
    match put_numbers(alloc, write_set, inners.part, &inners.part_numbers) {
        Ok(()) => {}
        Err(suspend) => return Err(suspend),
    }
    put_numbers(alloc, write_set, cut.double.pointer, &inners.numbers)
}

// Writes what a cut changes: zeros in the last block that stays, the numbers in pointer blocks, and the inode; and
// frees blocks.
fn write_cut(
    alloc: Global,
    write_set: &mut WriteSet,
    number: u32,
    inode: &Inode,
    last: u32,
    from: usize,
    cut: &CutPointers,
) -> Result<(), Suspend>
    requires less { number < write_set.old.there.geometry.inodes }
    requires last { is_data_block_or_none write_set.old.there.geometry last ≡ true }
    requires fits { FitsCut write_set.old.there.geometry cut.now }
    ensures shows { OnOk result ((blocks : Image) → Shows write_set.old (image_of blocks write_set.old)
        → Shows write_set.new (image_of blocks write_set.new)) }
    ensures cuts { OnOk result ((blocks : Image) (tree : Tree) → IsWriteSet write_set.old blocks tree
        → SoundInode write_set.old.there.geometry inode.now → from ≤ BLOCK_BYTES
        → IsCut write_set.old.there.geometry number inode.now last from cut.now
        (image_of blocks write_set.old) (image_of blocks write_set.new)) }
    ensures seen { write_set.new.seen ≡ write_set.old.seen }
    ensures geometry { write_set.new.there.geometry ≡ write_set.old.there.geometry }
    ensures dirty_count { dirty_count write_set.new ≤ dirty_count write_set.old + 5 }
    ensures err { IfErr result (λ suspend. MaySuspend write_set.old.seen suspend) }
    ensures resumable { IfErr result (λ suspend. All (λ one. one < write_set.old.there.geometry.blocks) cut.now.gone.items
        → IsResumable suspend) }
{
    match zero_from(alloc, write_set, last, from) {
        Ok(()) => {}
        Err(suspend) => return Err(suspend),
    }
    match write_pointers(alloc, write_set, cut) {
        Ok(()) => {}
        Err(suspend) => return Err(suspend),
    }
    match free_all(alloc, write_set, &cut.gone) {
        Ok(()) => {}
        Err(suspend) => return Err(suspend),
    }
    write_set.put_inode(alloc, number, inode)
}

// How many indexes lie before the end of so many bytes.
fn count_before(size: u64) -> usize
    requires { size ≤ LARGEST_FILE }
    ensures few { result ≤ FILE_INDEXES }
    ensures is { result ≡ count_before size }
{
    ((size + (BLOCK_BYTES as u64 - 1)) / BLOCK_BYTES as u64) as usize
}

// How many bytes stay of the last block.
fn left_in(size: u64) -> usize
    requires { size ≤ LARGEST_FILE }
    ensures few { result ≤ BLOCK_BYTES }
    ensures is { result ≡ left_in size }
{
    let count = count_before(size);
    if count == 0 {
        return 0;
    }
    size as usize - BLOCK_BYTES * (count - 1)
}

// The number of the block of the last of the first so many indexes, 0 if these are none.
fn last_of(snap: &Snap, inode: &Inode, count: usize) -> Result<u32, Suspend>
    requires { count ≤ FILE_INDEXES }
    ensures placed { IfOk result (λ number. is_data_block_or_none snap.now.geometry number ≡ true) }
    ensures ok { IfOk result (λ number. (blocks : Image) (tree : Tree) (file : ℕ)
        → HasInode snap.now blocks tree file inode.now
        → number ≡ last_of count (numbers_of (content_in snap.now.geometry blocks) inode.now)) }
    ensures err { IfErr result (λ suspend. MaySuspend snap.now suspend) }
    ensures resumable { IfErr result (λ suspend. (blocks : Image) (tree : Tree) (file : ℕ)
        → HasInode snap.now blocks tree file inode.now → IsResumable suspend) }
{
    if count == 0 {
        return Ok(0);
    }
    block_number(snap, inode, count - 1)
}

/// Cuts a regular file, whose attributes become these. Said is how many blocks it uses then.
pub(crate) fn cut(
    alloc: Global,
    write_set: &mut WriteSet,
    number: u32,
    inode: &Inode,
    looks: &Inode,
    size: u64,
) -> Result<u32, Suspend>
    requires less { size < inode.now.size }
    requires small { size ≤ LARGEST_FILE }
    requires regular { inode.now.kind ≡ kinds.Regular }
    ensures ok { IfOk result (λ used. (blocks : Image) (tree : Tree) → IsWriteSet write_set.old blocks tree
        → HasInode write_set.old.there (image_of blocks write_set.old) tree number inode.now
        → SoundInode write_set.old.there.geometry (attributed inode.now looks.now)
        → IsUse (Some used)
        (body_in write_set.old.there.geometry (image_of blocks write_set.old) (attributed inode.now looks.now))
        (with_length (Some size)
        (body_in write_set.old.there.geometry (image_of blocks write_set.old) (attributed inode.now looks.now)))
        × IsWriteSet write_set.new blocks (with_node tree number (node_with (attributed inode.now looks.now)
        (with_length (Some size)
        (body_in write_set.old.there.geometry (image_of blocks write_set.old) (attributed inode.now looks.now)))))) }
    ensures seen { write_set.new.seen ≡ write_set.old.seen }
    ensures dirty_count { dirty_count write_set.new ≤ dirty_count write_set.old + 5 }
    ensures err { IfErr result (λ suspend. MaySuspend write_set.old.seen suspend) }
    ensures resumable { IfErr result (λ suspend. (blocks : Image) (tree : Tree) → IsWriteSet write_set.old blocks tree
        → HasInode write_set.old.there (image_of blocks write_set.old) tree number inode.now → IsResumable suspend) }
{
    let geometry = write_set.there().geometry;
    if number >= geometry.inodes {
        return Err(Suspend::Io);
    }
    let count = count_before(size);
    let cut = match cut_all(alloc, write_set.there(), inode, count) {
        Ok(cut) => cut,
        Err(suspend) => return Err(suspend),
    };
    let last = match last_of(write_set.there(), inode, count) {
        Ok(last) => last,
        Err(suspend) => return Err(suspend),
    };
    let new = numbered(&attributed(inode, looks), size, &cut);
    match write_cut(alloc, write_set, number, &new, last, left_in(size), &cut) {
        Ok(()) => Ok(used_by(&cut)),
        Err(suspend) => Err(suspend),
    }
}
