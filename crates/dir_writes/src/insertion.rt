//! A name that is put into a directory.
ghost use Rattle.std.specs.Prelude.{◌≡◌, ◌+◌, ◌*◌, ◌<◌, ◌≤◌, ℕ, length, true, false, IfErr, IfNone, IfOk, IfSome, IsSome, Ok, OnOk, Some};
ghost use Rattle.base.specs.declared.TheConstants.{BLOCK_BYTES, MOST_SPAN, NAME_BYTES};
ghost use Rattle.base.specs.declared.TheConstants.{SLOTS_PER_BLOCK};
ghost use Rattle.disk.specs.Crash.{Image};
ghost use Rattle.nfs_spec.specs.Model.Node.{Node};
ghost use Rattle.nfs_spec.specs.Model.Tree.{Tree, free, node_at, with_node};
ghost use Rattle.nfs_spec.specs.Procedures.Changes.{with_dirent};
ghost use Rattle.procs_files.specs.Writable.{CanEnter, adds};
ghost use Rattle.layout.specs.Decode.{inode_at, span_of};
ghost use Rattle.inode.specs.Over.{IsResumable, MaySuspend};
ghost use Rattle.dir.specs.Slots.{IsDirectoryOf};
ghost use Rattle.inode.specs.WriteSets.WriteSetContents.{IsWriteSet, image_of, dirty_count};
ghost use Rattle.dir_writes.specs.NameInsertion.{dirent_in, with_name};
ghost use Rattle.dir_writes.specs.Growing.{HoldsWith, IsGrowth};

use crate::growth::grow;
use crate::slot_writes::put_slot;
use base::{BLOCK_BYTES, MOST_SPAN, NAME_BYTES, SLOTS_PER_BLOCK};
use inode::{Suspend, WriteSet, held};
use layout::{Inode, InodeKind, Slot};
use layout_records::first_slot;
use std::alloc::Global;

// Whether a slot is one of those that a directory spans.
fn is_spanned(inode: &Inode, slot: u32) -> bool
    ensures within { result ≡ true → slot < SLOTS_PER_BLOCK * span_of inode.now }
    ensures behind { result ≡ false → SLOTS_PER_BLOCK * span_of inode.now ≤ slot }
{
    ((slot / SLOTS_PER_BLOCK) as u64) < inode.size / BLOCK_BYTES as u64
}

// Gives a slot that a directory spans a name for a file.
fn enter_within(
    alloc: Global,
    write_set: &mut WriteSet,
    inode: &Inode,
    name: &[u8],
    dirent_number: u32,
    slot: u32,
) -> Result<(), Suspend>
    requires { length name.now ≤ NAME_BYTES }
    ensures ok { OnOk result ((blocks : Image) (tree : Tree) (number : ℕ) (node : Node)
        → IsWriteSet write_set.old blocks tree → node_at tree number ≡ Some node
        → IsDirectoryOf write_set.old.there (image_of blocks write_set.old) tree number inode.now
        → slot < SLOTS_PER_BLOCK * span_of inode.now
        → CanEnter tree node.body name.now (dirent_in dirent_number slot)
        → IsWriteSet write_set.new blocks (with_node tree number (with_name name.now dirent_number slot node))
        × (inode_at write_set.new.there.geometry (image_of blocks write_set.new) number ≡ Ok (Some inode.now))) }
    ensures seen { write_set.new.seen ≡ write_set.old.seen }
    ensures geometry { write_set.new.there.geometry ≡ write_set.old.there.geometry }
    ensures dirty_count { dirty_count write_set.new ≤ dirty_count write_set.old + 1 }
    ensures err { IfErr result (λ suspend. MaySuspend write_set.old.seen suspend) }
    ensures resumable { IfErr result (λ suspend. (blocks : Image) (tree : Tree) (number : ℕ)
        → IsWriteSet write_set.old blocks tree
        → IsDirectoryOf write_set.old.there (image_of blocks write_set.old) tree number inode.now
        → slot < SLOTS_PER_BLOCK * span_of inode.now → IsResumable suspend) }
{
    let bytes = Slot::named(alloc, dirent_number, name)?;
    put_slot(alloc, write_set, inode, slot, &bytes)
}

// The index of the block that a directory takes for a name in this slot: None where the slot isn't the first
// behind those that it spans, or it may have no more.
fn next_index(inode: &Inode, slot: u32) -> Option<usize>
    ensures some { IfSome result (λ index. (index ≡ span_of inode.now) × (slot ≡ SLOTS_PER_BLOCK * index)) }
    ensures few { IfSome result (λ index. index < MOST_SPAN) }
    ensures none { IfNone result (slot < SLOTS_PER_BLOCK * MOST_SPAN → SLOTS_PER_BLOCK * span_of inode.now ≤ slot
        → slot ≤ SLOTS_PER_BLOCK * span_of inode.now → ⊥) }
{
    let span = inode.size / BLOCK_BYTES as u64;
    if span >= MOST_SPAN as u64 {
        return None;
    }
    if slot as u64 != SLOTS_PER_BLOCK as u64 * span {
        return None;
    }
    Some(span as usize)
}

// Gives the first slot behind those that a directory spans a name for a file.
fn enter_behind(
    alloc: Global,
    write_set: &mut WriteSet,
    number: u32,
    inode: &Inode,
    index: usize,
    name: &[u8],
    dirent_number: u32,
) -> Result<Inode, Suspend>
    requires short { length name.now ≤ NAME_BYTES }
    requires within { index < MOST_SPAN }
    ensures ok { IfOk result (λ made. (blocks : Image) (tree : Tree) (node : Node) → IsWriteSet write_set.old blocks tree
        → IsGrowth write_set.old.there (image_of blocks write_set.old) tree number inode.now node name.now dirent_number
        → index ≡ span_of inode.now
        → adds (with_dirent name.now (dirent_in dirent_number (SLOTS_PER_BLOCK * span_of inode.now)) node.body) node.body
        ≤ free tree
        → HoldsWith write_set.new blocks tree number
        (with_name name.now dirent_number (SLOTS_PER_BLOCK * span_of inode.now) node) made) }
    ensures seen { write_set.new.seen ≡ write_set.old.seen }
    ensures geometry { write_set.new.there.geometry ≡ write_set.old.there.geometry }
    ensures dirty_count { dirty_count write_set.new ≤ dirty_count write_set.old + 3 }
    ensures err { IfErr result (λ suspend. MaySuspend write_set.old.seen suspend) }
    ensures resumable { IfErr result (λ suspend. (blocks : Image) (tree : Tree) → IsWriteSet write_set.old blocks tree
        → IsDirectoryOf write_set.old.there (image_of blocks write_set.old) tree number inode.now → IsResumable suspend) }
{
    let bytes = first_slot(alloc, dirent_number, name)?;
    grow(alloc, write_set, number, inode, index, bytes)
}

// Gives the directory of an inode a name for a file.
fn enter_in(
    alloc: Global,
    write_set: &mut WriteSet,
    number: u32,
    inode: &Inode,
    name: &[u8],
    dirent_number: u32,
    slot: u32,
) -> Result<Inode, Suspend>
    ensures ok { IfOk result (λ made. (blocks : Image) (tree : Tree) (node : Node) → IsWriteSet write_set.old blocks tree
        → node_at tree number ≡ Some node
        → IsDirectoryOf write_set.old.there (image_of blocks write_set.old) tree number inode.now
        → CanEnter tree node.body name.now (dirent_in dirent_number slot)
        → adds (with_dirent name.now (dirent_in dirent_number slot) node.body) node.body ≤ free tree
        → HoldsWith write_set.new blocks tree number (with_name name.now dirent_number slot node) made) }
    ensures seen { write_set.new.seen ≡ write_set.old.seen }
    ensures geometry { write_set.new.there.geometry ≡ write_set.old.there.geometry }
    ensures dirty_count { dirty_count write_set.new ≤ dirty_count write_set.old + 3 }
    ensures err { IfErr result (λ suspend. MaySuspend write_set.old.seen suspend) }
    ensures resumable { IfErr result (λ suspend. (blocks : Image) (tree : Tree) → IsWriteSet write_set.old blocks tree
        → IsDirectoryOf write_set.old.there (image_of blocks write_set.old) tree number inode.now → IsResumable suspend) }
{
    if name.len() > NAME_BYTES {
        return Ok(*inode);
    }
    if is_spanned(inode, slot) {
        return match enter_within(alloc, write_set, inode, name, dirent_number, slot) {
            Ok(()) => Ok(*inode),
            Err(suspend) => Err(suspend),
        };
    }
    match next_index(inode, slot) {
        Some(index) => enter_behind(alloc, write_set, number, inode, index, name, dirent_number),
        None => Ok(*inode),
    }
}

/// Gives a directory a name for a file, which lies in this slot. A name that it has there leads to this file
/// from then on. For a slot behind all that it spans the directory takes a block. The inode is that of the directory with the name. Where the name can't be entered nothing is
/// said of what is done.
pub fn enter(
    alloc: Global,
    write_set: &mut WriteSet,
    number: u32,
    name: &[u8],
    dirent_number: u32,
    slot: u32,
) -> Result<Option<Inode>, Suspend>
    ensures ok { IfOk result (λ found. (blocks : Image) (tree : Tree) (node : Node) → IsWriteSet write_set.old blocks tree
        → node_at tree number ≡ Some node → CanEnter tree node.body name.now (dirent_in dirent_number slot)
        → adds (with_dirent name.now (dirent_in dirent_number slot) node.body) node.body ≤ free tree
        → IsWriteSet write_set.new blocks (with_node tree number (with_name name.now dirent_number slot node))
        × (inode_at write_set.new.there.geometry (image_of blocks write_set.new) number ≡ Ok found)
        × IsSome found) }
    ensures less { IfOk result (λ found. IfSome found (λ made. (blocks : Image) (tree : Tree)
        → IsWriteSet write_set.old blocks tree → number < write_set.old.there.geometry.inodes)) }
    ensures seen { write_set.new.seen ≡ write_set.old.seen }
    ensures geometry { write_set.new.there.geometry ≡ write_set.old.there.geometry }
    ensures dirty_count { dirty_count write_set.new ≤ dirty_count write_set.old + 3 }
    ensures err { IfErr result (λ suspend. MaySuspend write_set.old.seen suspend) }
    ensures resumable { IfErr result (λ suspend. (blocks : Image) (tree : Tree) → IsWriteSet write_set.old blocks tree
        → IsResumable suspend) }
{
    match held(write_set.there(), number) {
        Ok(Some(inode)) => match inode.kind {
            InodeKind::Directory => {
                match enter_in(alloc, write_set, number, &inode, name, dirent_number, slot) {
                    Ok(made) => Ok(Some(made)),
                    Err(suspend) => Err(suspend),
                }
            }
            InodeKind::Regular => Ok(None),
            InodeKind::Link => Ok(None),
        },
        Ok(None) => Ok(None),
        Err(suspend) => Err(suspend),
    }
}
