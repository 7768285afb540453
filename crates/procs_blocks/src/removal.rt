//! Names that are taken out of directories.
ghost use Rattle.std.specs.Prelude.{◌≡◌, ◌+◌, ◌≤◌, Some, IfErr, OnOk};
ghost use Rattle.disk.specs.Crash.{Image};
ghost use Rattle.nfs_spec.specs.Model.Node.{Node};
ghost use Rattle.nfs_spec.specs.Model.Tree.{Tree, node_at, with_node};
ghost use Rattle.nfs_spec.specs.Procedures.Changes.{without_dirent};
ghost use Rattle.procs_files.specs.Writable.{SoundInodeAttributes};
ghost use Rattle.procs_files.specs.Heads.{IsBodyOf, node_of};
ghost use Rattle.inode.specs.Over.{IsResumable, MaySuspend};
ghost use Rattle.inode.specs.WriteSets.WriteSetContents.{IsWriteSet, dirty_count};

use crate::attributes::set;
use dir_writes::lose;
use inode::{Suspend, WriteSet, held};
use procs_files::InodeAttributes;
use std::alloc::Global;

// Takes a name out of a file that is there, whose attributes become these.
fn depart_there(
    alloc: Global,
    write_set: &mut WriteSet,
    inode_attributes: &InodeAttributes,
    name: &[u8],
) -> Result<(), Suspend>
    ensures ok { OnOk result ((blocks : Image) (tree : Tree) (node : Node) → IsWriteSet write_set.old blocks tree
        → node_at tree inode_attributes.now.number ≡ Some node → IsBodyOf inode_attributes.now node.body
        → SoundInodeAttributes tree.geometry.inodes inode_attributes.now
        → IsWriteSet write_set.new blocks (with_node tree inode_attributes.now.number
        (node_of inode_attributes.now (without_dirent name.now node.body)))) }
    ensures seen { write_set.new.seen ≡ write_set.old.seen }
    ensures dirty_count { dirty_count write_set.new ≤ dirty_count write_set.old + 2 }
    ensures err { IfErr result (λ suspend. MaySuspend write_set.old.seen suspend) }
    ensures resumable { IfErr result (λ suspend. (blocks : Image) (tree : Tree) (node : Node)
        → IsWriteSet write_set.old blocks tree → node_at tree inode_attributes.now.number ≡ Some node → IsResumable suspend) }
{
    match lose(alloc, write_set, inode_attributes.number, name) {
        Ok(()) => set(alloc, write_set, inode_attributes),
        Err(suspend) => Err(suspend),
    }
}

/// Takes a name out of a directory, whose attributes become these.
pub fn depart(
    alloc: Global,
    write_set: &mut WriteSet,
    inode_attributes: &InodeAttributes,
    name: &[u8],
) -> Result<(), Suspend>
    ensures ok { OnOk result ((blocks : Image) (tree : Tree) (node : Node) → IsWriteSet write_set.old blocks tree
        → node_at tree inode_attributes.now.number ≡ Some node → IsBodyOf inode_attributes.now node.body
        → SoundInodeAttributes tree.geometry.inodes inode_attributes.now
        → IsWriteSet write_set.new blocks (with_node tree inode_attributes.now.number
        (node_of inode_attributes.now (without_dirent name.now node.body)))) }
    ensures seen { write_set.new.seen ≡ write_set.old.seen }
    ensures dirty_count { dirty_count write_set.new ≤ dirty_count write_set.old + 2 }
    ensures err { IfErr result (λ suspend. MaySuspend write_set.old.seen suspend) }
    ensures resumable { IfErr result (λ suspend. (blocks : Image) (tree : Tree) → IsWriteSet write_set.old blocks tree
        → IsResumable suspend) }
{
    match held(write_set.there(), inode_attributes.number) {
        Ok(Some(_)) => depart_there(alloc, write_set, inode_attributes, name),
        Ok(None) => Ok(()),
        Err(suspend) => Err(suspend),
    }
}
