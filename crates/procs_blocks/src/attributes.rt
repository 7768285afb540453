//! The attributes of files that are set.
ghost use Rattle.std.specs.Prelude.{◌≡◌, ◌+◌, ◌≤◌, Some, IfErr, OnOk};
ghost use Rattle.disk.specs.Crash.{Image};
ghost use Rattle.nfs_spec.specs.Model.Node.{Node};
ghost use Rattle.nfs_spec.specs.Model.Tree.{Tree, node_at, with_node};
ghost use Rattle.nfs_spec.specs.Procedures.Rename.{with_parent};
ghost use Rattle.procs_files.specs.Writable.{SoundInodeAttributes};
ghost use Rattle.procs_files.specs.Heads.{IsBodyOf, node_of};
ghost use Rattle.inode.specs.Over.{IsResumable, MaySuspend};
ghost use Rattle.inode.specs.WriteSets.WriteSetContents.{IsWriteSet, dirty_count};
ghost use Rattle.procs_blocks.specs.Heads.{looks_of};

use base::DIRECT_INDEXES;
use inode::{Suspend, WriteSet};
use layout::{Inode, InodeKind};
use procs_files::InodeAttributes;
use std::alloc::Global;

/// An inode with the attributes of a head, and no blocks.
pub(crate) fn looks_of(inode_attributes: &InodeAttributes) -> Inode
    ensures { result ≡ looks_of inode_attributes.now }
{
    Inode {
        kind: InodeKind::Regular,
        mode: inode_attributes.mode,
        uid: inode_attributes.uid,
        gid: inode_attributes.gid,
        nlink: inode_attributes.nlink,
        size: 0,
        atime: inode_attributes.atime,
        mtime: inode_attributes.mtime,
        ctime: inode_attributes.ctime,
        stamp: inode_attributes.stamp,
        parent: inode_attributes.parent,
        verifier: inode_attributes.verifier,
        direct: [0; DIRECT_INDEXES],
        indirect: 0,
        double: 0,
    }
}

/// Sets the attributes of a file that is there, and the parent of a directory.
pub fn set(
    alloc: Global,
    write_set: &mut WriteSet,
    inode_attributes: &InodeAttributes,
) -> Result<(), Suspend>
    ensures ok { OnOk result ((blocks : Image) (tree : Tree) (node : Node) → IsWriteSet write_set.old blocks tree
        → node_at tree inode_attributes.now.number ≡ Some node
        → IsBodyOf inode_attributes.now (with_parent inode_attributes.now.parent node.body) → SoundInodeAttributes tree.geometry.inodes inode_attributes.now
        → IsWriteSet write_set.new blocks (with_node tree inode_attributes.now.number
        (node_of inode_attributes.now (with_parent inode_attributes.now.parent node.body)))) }
    ensures seen { write_set.new.seen ≡ write_set.old.seen }
    ensures dirty_count { dirty_count write_set.new ≤ dirty_count write_set.old + 1 }
    ensures err { IfErr result (λ suspend. MaySuspend write_set.old.seen suspend) }
    ensures resumable { IfErr result (λ suspend. (blocks : Image) (tree : Tree) → IsWriteSet write_set.old blocks tree
        → IsResumable suspend) }
{
    write_set.set(alloc, inode_attributes.number, &looks_of(inode_attributes))
}
