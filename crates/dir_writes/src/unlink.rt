//! A name that is taken out of its directory.
ghost use Rattle.std.specs.Prelude.{◌≡◌, ◌+◌, ◌*◌, ◌<◌, ◌≤◌, ℕ, length, true, replicate};
ghost use Rattle.std.specs.Prelude.{IfErr, IfOk, OnOk, Some};
ghost use Rattle.base.specs.declared.TheConstants.{BLOCK_BYTES, SLOTS_PER_BLOCK};
ghost use Rattle.disk.specs.Crash.{Image};
ghost use Rattle.nfs_spec.specs.Model.Node.{Node};
ghost use Rattle.nfs_spec.specs.Model.Tree.{Tree, node_at, with_node};
ghost use Rattle.objects.specs.Spliced.{spliced};
ghost use Rattle.layout.specs.declared.slot.TheConstants.{SLOT_BYTES};
ghost use Rattle.layout.specs.Decode.{span_of};
ghost use Rattle.layout.specs.Parts.{content_in};
ghost use Rattle.layout.specs.Places.{is_data};
ghost use Rattle.inode.specs.Over.{IsResumable, MaySuspend};
ghost use Rattle.dir.specs.Slots.{IsDirectoryOf};
ghost use Rattle.inode.specs.WriteSets.WriteSetContents.{IsWriteSet, Shows, image_of, dirty_count};
ghost use Rattle.dir_writes.specs.Clearing.{IsClearedIn, without_name};

use crate::slot_writes::put_slot;
use dir::find;
use inode::{Suspend, WriteSet, held};
use layout::{Inode, InodeKind, SLOT_BYTES};
use std::alloc::Global;

// Clears a slot of a directory.
fn erase_slot(
    alloc: Global,
    write_set: &mut WriteSet,
    inode: &Inode,
    slot: u32,
) -> Result<(), Suspend>
    ensures ok { OnOk result ((blocks : Image) (tree : Tree) (file : ℕ) → IsWriteSet write_set.old blocks tree
        → IsDirectoryOf write_set.old.there (image_of blocks write_set.old) tree file inode.now
        → slot < SLOTS_PER_BLOCK * span_of inode.now
        → Shows write_set.new (image_of blocks write_set.new)
        × IsClearedIn write_set.old.there.geometry inode.now slot (image_of blocks write_set.old) (image_of blocks write_set.new)) }
    ensures seen { write_set.new.seen ≡ write_set.old.seen }
    ensures geometry { write_set.new.there.geometry ≡ write_set.old.there.geometry }
    ensures dirty_count { dirty_count write_set.new ≤ dirty_count write_set.old + 1 }
    ensures err { IfErr result (λ suspend. MaySuspend write_set.old.seen suspend) }
    ensures resumable { IfErr result (λ suspend. (blocks : Image) (tree : Tree) (file : ℕ)
        → IsWriteSet write_set.old blocks tree
        → IsDirectoryOf write_set.old.there (image_of blocks write_set.old) tree file inode.now
        → slot < SLOTS_PER_BLOCK * span_of inode.now → IsResumable suspend) }
{
    put_slot(alloc, write_set, inode, slot, &[0; SLOT_BYTES])
}

// Takes a name out of the directory of an inode.
fn lose_in(
    alloc: Global,
    write_set: &mut WriteSet,
    number: u32,
    inode: &Inode,
    name: &[u8],
) -> Result<(), Suspend>
    ensures ok { OnOk result ((blocks : Image) (tree : Tree) (node : Node) → IsWriteSet write_set.old blocks tree
        → node_at tree number ≡ Some node
        → IsDirectoryOf write_set.old.there (image_of blocks write_set.old) tree number inode.now
        → IsWriteSet write_set.new blocks (with_node tree number (without_name name.now node))) }
    ensures seen { write_set.new.seen ≡ write_set.old.seen }
    ensures dirty_count { dirty_count write_set.new ≤ dirty_count write_set.old + 1 }
    ensures err { IfErr result (λ suspend. MaySuspend write_set.old.seen suspend) }
    ensures resumable { IfErr result (λ suspend. (blocks : Image) (tree : Tree) → IsWriteSet write_set.old blocks tree
        → IsDirectoryOf write_set.old.there (image_of blocks write_set.old) tree number inode.now → IsResumable suspend) }
{
    match find(write_set.there(), inode, name) {
        Ok(Some(search_hit)) => erase_slot(alloc, write_set, inode, search_hit.slot),
        Ok(None) => Ok(()),
        Err(suspend) => Err(suspend),
    }
}

/// Takes a name out of a directory. Where the file has no such name nothing is done.
pub fn lose(
    alloc: Global,
    write_set: &mut WriteSet,
    number: u32,
    name: &[u8],
) -> Result<(), Suspend>
    ensures ok { OnOk result ((blocks : Image) (tree : Tree) (node : Node) → IsWriteSet write_set.old blocks tree
        → node_at tree number ≡ Some node
        → IsWriteSet write_set.new blocks (with_node tree number (without_name name.now node))) }
    ensures seen { write_set.new.seen ≡ write_set.old.seen }
    ensures dirty_count { dirty_count write_set.new ≤ dirty_count write_set.old + 1 }
    ensures err { IfErr result (λ suspend. MaySuspend write_set.old.seen suspend) }
    ensures resumable { IfErr result (λ suspend. (blocks : Image) (tree : Tree) → IsWriteSet write_set.old blocks tree
        → IsResumable suspend) }
{
    match held(write_set.there(), number) {
        Ok(Some(inode)) => match inode.kind {
            InodeKind::Directory => lose_in(alloc, write_set, number, &inode, name),
            InodeKind::Regular => Ok(()),
            InodeKind::Link => Ok(()),
        },
        Ok(None) => Ok(()),
        Err(suspend) => Err(suspend),
    }
}
