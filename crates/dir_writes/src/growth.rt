//! Directories that span one block more.
ghost use Rattle.std.specs.Prelude.{◌≡◌, ◌+◌, ◌*◌, ◌<◌, ◌≤◌, ℕ, List, length, nat_eq, true, IfErr, IfOk};
ghost use Rattle.base.specs.declared.TheConstants.{BLOCK_BYTES, DIRECT_INDEXES, MOST_SPAN, SLOTS_PER_BLOCK};
ghost use Rattle.disk.specs.Crash.{Image};
ghost use Rattle.nfs_spec.specs.Model.Node.{Node};
ghost use Rattle.nfs_spec.specs.Model.Tree.{Tree, free};
ghost use Rattle.nfs_spec.specs.Procedures.Changes.{with_dirent};
ghost use Rattle.procs_files.specs.Writable.{adds};
ghost use Rattle.layout.specs.Decode.{span_of};
ghost use Rattle.layout.specs.Places.{is_data};
ghost use Rattle.inode.specs.Over.{IsResumable, MaySuspend};
ghost use Rattle.dir.specs.Slots.{IsDirectoryOf};
ghost use Rattle.inode.specs.WriteSets.WriteSetContents.{IsWriteSet, image_of, dirty_count};
ghost use Rattle.dir_writes.specs.NameInsertion.{dirent_in, with_name};
ghost use Rattle.layout.specs.SlotForm.{first_slot};
ghost use Rattle.dir_writes.specs.Growing.{HoldsWith, IsGrowth};

use base::{BLOCK_BYTES, DIRECT_INDEXES};
use bitmap::take_block;
use inode::{Suspend, WriteSet, data_block};
use inode_data::{naming, sized, store, store_indirect, with_indirect_block};
use layout::Inode;
use layout_records::with_number;
use std::alloc::Global;

// The size of a directory that has a block at this index, and none behind it.
fn size_with(index: usize) -> u64
    requires { index < MOST_SPAN }
    ensures { result ≡ BLOCK_BYTES * (index + 1) }
{
    BLOCK_BYTES as u64 * (index as u64 + 1)
}

// Gives a directory a free block, which its inode names from then on.
fn grow_direct(
    alloc: Global,
    write_set: &mut WriteSet,
    number: u32,
    inode: &Inode,
    index: usize,
    bytes: Vec<u8>,
) -> Result<Inode, Suspend>
    requires direct_part { index < DIRECT_INDEXES }
    requires len { length bytes.items ≡ BLOCK_BYTES }
    ensures ok { IfOk result (λ made. (blocks : Image) (tree : Tree) (node : Node) (name : List ℕ)
        (dirent_number : ℕ) → IsWriteSet write_set.old blocks tree
        → IsGrowth write_set.old.there (image_of blocks write_set.old) tree number inode.now node name dirent_number
        → bytes.items ≡ first_slot (record { number = dirent_number; name = name })
        → index ≡ span_of inode.now
        → adds (with_dirent name (dirent_in dirent_number (SLOTS_PER_BLOCK * span_of inode.now)) node.body) node.body
        ≤ free tree
        → HoldsWith write_set.new blocks tree number
        (with_name name dirent_number (SLOTS_PER_BLOCK * span_of inode.now) node) made) }
    ensures seen { write_set.new.seen ≡ write_set.old.seen }
    ensures geometry { write_set.new.there.geometry ≡ write_set.old.there.geometry }
    ensures dirty_count { dirty_count write_set.new ≤ dirty_count write_set.old + 2 }
    ensures err { IfErr result (λ suspend. MaySuspend write_set.old.seen suspend) }
    ensures resumable { IfErr result (λ suspend. (blocks : Image) (tree : Tree) → IsWriteSet write_set.old blocks tree
        → number < write_set.old.there.geometry.inodes → IsResumable suspend) }
{
    match take_block(alloc, write_set) {
        Ok(Some(block)) => {
            let named = naming(inode, size_with(index), index, block);
            match store(alloc, write_set, number, block, bytes, &named) {
                Ok(()) => Ok(named),
                Err(suspend) => Err(suspend),
            }
        }
        Ok(None) => Ok(*inode),
        Err(suspend) => Err(suspend),
    }
}

// Gives a directory a free block, which its indirect block names from then on.
fn grow_indirect(
    alloc: Global,
    write_set: &mut WriteSet,
    number: u32,
    inode: &Inode,
    index: usize,
    bytes: Vec<u8>,
) -> Result<Inode, Suspend>
    requires indirect_block { is_data write_set.old.there.geometry inode.now.indirect ≡ true }
    requires past { DIRECT_INDEXES ≤ index }
    requires within { index < MOST_SPAN }
    requires len { length bytes.items ≡ BLOCK_BYTES }
    ensures ok { IfOk result (λ made. (blocks : Image) (tree : Tree) (node : Node) (name : List ℕ)
        (dirent_number : ℕ) → IsWriteSet write_set.old blocks tree
        → IsGrowth write_set.old.there (image_of blocks write_set.old) tree number inode.now node name dirent_number
        → bytes.items ≡ first_slot (record { number = dirent_number; name = name })
        → index ≡ span_of inode.now
        → adds (with_dirent name (dirent_in dirent_number (SLOTS_PER_BLOCK * span_of inode.now)) node.body) node.body
        ≤ free tree
        → HoldsWith write_set.new blocks tree number
        (with_name name dirent_number (SLOTS_PER_BLOCK * span_of inode.now) node) made) }
    ensures seen { write_set.new.seen ≡ write_set.old.seen }
    ensures geometry { write_set.new.there.geometry ≡ write_set.old.there.geometry }
    ensures dirty_count { dirty_count write_set.new ≤ dirty_count write_set.old + 3 }
    ensures err { IfErr result (λ suspend. MaySuspend write_set.old.seen suspend) }
    ensures resumable { IfErr result (λ suspend. (blocks : Image) (tree : Tree) → IsWriteSet write_set.old blocks tree
        → number < write_set.old.there.geometry.inodes → IsResumable suspend) }
{
    let old = match data_block(write_set.there(), inode.indirect) {
        Ok(block) => Vec::from_slice(alloc, block)?,
        Err(suspend) => return Err(suspend),
    };
    match take_block(alloc, write_set) {
        Ok(Some(block)) => {
            let numbers = with_number(alloc, &old, index - DIRECT_INDEXES, block)?;
            let same = sized(inode, size_with(index));
            match store_indirect(
                alloc,
                write_set,
                number,
                inode.indirect,
                numbers,
                block,
                bytes,
                &same,
            ) {
                Ok(()) => Ok(same),
                Err(suspend) => Err(suspend),
            }
        }
        Ok(None) => Ok(*inode),
        Err(suspend) => Err(suspend),
    }
}

// Gives a directory a free block, which another free one names, its indirect block from then on.
fn grow_first(
    alloc: Global,
    write_set: &mut WriteSet,
    number: u32,
    inode: &Inode,
    index: usize,
    bytes: Vec<u8>,
) -> Result<Inode, Suspend>
    requires none { nat_eq inode.now.indirect 0 ≡ true }
    requires past { DIRECT_INDEXES ≤ index }
    requires within { index < MOST_SPAN }
    requires len { length bytes.items ≡ BLOCK_BYTES }
    ensures ok { IfOk result (λ made. (blocks : Image) (tree : Tree) (node : Node) (name : List ℕ)
        (dirent_number : ℕ) → IsWriteSet write_set.old blocks tree
        → IsGrowth write_set.old.there (image_of blocks write_set.old) tree number inode.now node name dirent_number
        → bytes.items ≡ first_slot (record { number = dirent_number; name = name })
        → index ≡ span_of inode.now
        → adds (with_dirent name (dirent_in dirent_number (SLOTS_PER_BLOCK * span_of inode.now)) node.body) node.body
        ≤ free tree
        → HoldsWith write_set.new blocks tree number
        (with_name name dirent_number (SLOTS_PER_BLOCK * span_of inode.now) node) made) }
    ensures seen { write_set.new.seen ≡ write_set.old.seen }
    ensures geometry { write_set.new.there.geometry ≡ write_set.old.there.geometry }
    ensures dirty_count { dirty_count write_set.new ≤ dirty_count write_set.old + 3 }
    ensures err { IfErr result (λ suspend. MaySuspend write_set.old.seen suspend) }
    ensures resumable { IfErr result (λ suspend. (blocks : Image) (tree : Tree) → IsWriteSet write_set.old blocks tree
        → number < write_set.old.there.geometry.inodes → IsResumable suspend) }
{
    let block = match take_block(alloc, write_set) {
        Ok(Some(block)) => block,
        Ok(None) => return Ok(*inode),
        Err(suspend) => return Err(suspend),
    };
    match take_block(alloc, write_set) {
        Ok(Some(indirect_block)) => {
            let zeros = [0; BLOCK_BYTES];
            let numbers = with_number(alloc, &zeros, index - DIRECT_INDEXES, block)?;
            let repointed = with_indirect_block(inode, size_with(index), indirect_block);
            match store_indirect(
                alloc,
                write_set,
                number,
                indirect_block,
                numbers,
                block,
                bytes,
                &repointed,
            ) {
                Ok(()) => Ok(repointed),
                Err(suspend) => Err(suspend),
            }
        }
        Ok(None) => Ok(*inode),
        Err(suspend) => Err(suspend),
    }
}

/// Gives a directory a block more, behind all that it has. The inode is that of the directory with it.
pub(crate) fn grow(
    alloc: Global,
    write_set: &mut WriteSet,
    number: u32,
    inode: &Inode,
    index: usize,
    bytes: Vec<u8>,
) -> Result<Inode, Suspend>
    requires within { index < MOST_SPAN }
    requires len { length bytes.items ≡ BLOCK_BYTES }
    ensures ok { IfOk result (λ made. (blocks : Image) (tree : Tree) (node : Node) (name : List ℕ)
        (dirent_number : ℕ) → IsWriteSet write_set.old blocks tree
        → IsGrowth write_set.old.there (image_of blocks write_set.old) tree number inode.now node name dirent_number
        → bytes.items ≡ first_slot (record { number = dirent_number; name = name })
        → index ≡ span_of inode.now
        → adds (with_dirent name (dirent_in dirent_number (SLOTS_PER_BLOCK * span_of inode.now)) node.body) node.body
        ≤ free tree
        → HoldsWith write_set.new blocks tree number
        (with_name name dirent_number (SLOTS_PER_BLOCK * span_of inode.now) node) made) }
    ensures seen { write_set.new.seen ≡ write_set.old.seen }
    ensures geometry { write_set.new.there.geometry ≡ write_set.old.there.geometry }
    ensures dirty_count { dirty_count write_set.new ≤ dirty_count write_set.old + 3 }
    ensures err { IfErr result (λ suspend. MaySuspend write_set.old.seen suspend) }
    ensures resumable { IfErr result (λ suspend. (blocks : Image) (tree : Tree) → IsWriteSet write_set.old blocks tree
        → IsDirectoryOf write_set.old.there (image_of blocks write_set.old) tree number inode.now → IsResumable suspend) }
{
    if index < DIRECT_INDEXES {
        return grow_direct(alloc, write_set, number, inode, index, bytes);
    }
    if inode.indirect == 0 {
        return grow_first(alloc, write_set, number, inode, index, bytes);
    }
    if !write_set.there().geometry.is_data(inode.indirect) {
        return Err(Suspend::Io);
    }
    grow_indirect(alloc, write_set, number, inode, index, bytes)
}
