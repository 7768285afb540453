//! Files that are taken away.
ghost use Rattle.std.specs.Prelude.{◌≡◌, ◌+◌, ◌<◌, ◌≤◌, All, IfErr, OnOk};
ghost use Rattle.disk.specs.Crash.{Image};
ghost use Rattle.nfs_spec.specs.Model.Tree.{Tree};
ghost use Rattle.nfs_spec.specs.Procedures.Changes.{without_node};
ghost use Rattle.inode.specs.Over.{HasInode, IsResumable, MaySuspend};
ghost use Rattle.inode.specs.WriteSets.WriteSetContents.{IsWriteSet, Shows, image_of, dirty_count};
ghost use Rattle.bitmap.specs.Inodes.Frees.{Clears};

use crate::inodes::block_release::free_all;
use crate::inodes::numbers::blocks_of;
use crate::mark_number;
use inode::{Suspend, WriteSet, held};
use layout::Inode;
use std::alloc::Global;

// Makes the inode of a number free, and these blocks.
fn unmark_all(
    alloc: Global,
    write_set: &mut WriteSet,
    number: u32,
    numbers: &[u32],
) -> Result<(), Suspend>
    requires { number < write_set.old.there.geometry.inodes }
    ensures shows { OnOk result ((blocks : Image) → Shows write_set.old (image_of blocks write_set.old)
        → Shows write_set.new (image_of blocks write_set.new)) }
    ensures clears { OnOk result ((blocks : Image) → Shows write_set.old (image_of blocks write_set.old)
        → Clears write_set.old.there.geometry number numbers.now (image_of blocks write_set.old)
        (image_of blocks write_set.new)) }
    ensures seen { write_set.new.seen ≡ write_set.old.seen }
    ensures geometry { write_set.new.there.geometry ≡ write_set.old.there.geometry }
    ensures dirty_count { dirty_count write_set.new ≤ dirty_count write_set.old + 1 }
    ensures err { IfErr result (λ suspend. MaySuspend write_set.old.seen suspend) }
    ensures resumable { IfErr result (λ suspend. All (λ one. one < write_set.old.there.geometry.blocks) numbers.now
        → IsResumable suspend) }
{
    match free_all(alloc, write_set, numbers) {
        Ok(()) => {}
        Err(suspend) => return Err(suspend),
    }
    match mark_number(alloc, write_set, number, false) {
        Ok(()) => write_set.erase_inode(alloc, number),
        Err(suspend) => Err(suspend),
    }
}

// Takes the file of this inode away.
fn remove_file(
    alloc: Global,
    write_set: &mut WriteSet,
    number: u32,
    inode: &Inode,
) -> Result<(), Suspend>
    requires { number < write_set.old.there.geometry.inodes }
    ensures ok { OnOk result ((blocks : Image) (tree : Tree) → IsWriteSet write_set.old blocks tree
        → HasInode write_set.old.there (image_of blocks write_set.old) tree number inode.now
        → IsWriteSet write_set.new blocks (without_node tree number)) }
    ensures seen { write_set.new.seen ≡ write_set.old.seen }
    ensures dirty_count { dirty_count write_set.new ≤ dirty_count write_set.old + 1 }
    ensures err { IfErr result (λ suspend. MaySuspend write_set.old.seen suspend) }
    ensures resumable { IfErr result (λ suspend. (blocks : Image) (tree : Tree) → IsWriteSet write_set.old blocks tree
        → HasInode write_set.old.there (image_of blocks write_set.old) tree number inode.now → IsResumable suspend) }
{
    match blocks_of(alloc, write_set.there(), inode) {
        Ok(numbers) => unmark_all(alloc, write_set, number, &numbers),
        Err(suspend) => Err(suspend),
    }
}

/// Takes the file of a number away, if there is one.
pub fn remove(alloc: Global, write_set: &mut WriteSet, number: u32) -> Result<(), Suspend>
    ensures ok { OnOk result ((blocks : Image) (tree : Tree) → IsWriteSet write_set.old blocks tree
        → IsWriteSet write_set.new blocks (without_node tree number)) }
    ensures seen { write_set.new.seen ≡ write_set.old.seen }
    ensures dirty_count { dirty_count write_set.new ≤ dirty_count write_set.old + 1 }
    ensures err { IfErr result (λ suspend. MaySuspend write_set.old.seen suspend) }
    ensures resumable { IfErr result (λ suspend. (blocks : Image) (tree : Tree) → IsWriteSet write_set.old blocks tree
        → IsResumable suspend) }
{
    if number >= write_set.there().geometry.inodes {
        return Ok(());
    }
    match held(write_set.there(), number) {
        Ok(Some(inode)) => remove_file(alloc, write_set, number, &inode),
        Ok(None) => Ok(()),
        Err(suspend) => Err(suspend),
    }
}
