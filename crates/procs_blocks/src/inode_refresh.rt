//! The head of a file in which something changed.
ghost use Rattle.std.specs.Prelude.{◌≡◌, ◌+◌, ◌≤◌, Some, IfErr, IfOk};
ghost use Rattle.disk.specs.Crash.{Image};
ghost use Rattle.nfs_spec.specs.Model.Attributes.{kind_of};
ghost use Rattle.nfs_spec.specs.Model.Names.{parent_of};
ghost use Rattle.nfs_spec.specs.Model.Node.{Node};
ghost use Rattle.nfs_spec.specs.Model.Tree.{Tree, node_at, with_node};
ghost use Rattle.procs_files.specs.Writable.{SoundInodeAttributes, headed};
ghost use Rattle.procs_files.specs.Heads.{node_of};
ghost use Rattle.inode.specs.Over.{IsResumable, MaySuspend};
ghost use Rattle.inode.specs.WriteSets.WriteSetContents.{IsWriteSet, dirty_count};

use crate::attributes::set;
use crate::heads::file;
use inode::{Suspend, WriteSet};
use procs_files::InodeAttributes;
use std::alloc::Global;

// The head with the size and the blocks of another.
fn as_large(inode_attributes: &InodeAttributes, other: &InodeAttributes) -> InodeAttributes
    ensures { result ≡ record inode_attributes.now { size = other.now.size; used = other.now.used } }
{
    let mut new = *inode_attributes;
    new.size = other.size;
    new.used = other.used;
    new
}

/// Sets the attributes of a file in which something changed, and gives the head that it has then.
pub fn refresh(
    alloc: Global,
    write_set: &mut WriteSet,
    inode_attributes: &InodeAttributes,
) -> Result<InodeAttributes, Suspend>
    ensures ok { IfOk result (λ next. (blocks : Image) (tree : Tree) (node : Node) → IsWriteSet write_set.old blocks tree
        → node_at tree inode_attributes.now.number ≡ Some node → kind_of node.body ≡ inode_attributes.now.kind
        → parent_of node.body ≡ inode_attributes.now.parent → SoundInodeAttributes tree.geometry.inodes inode_attributes.now
        → (next ≡ headed inode_attributes.now node.body)
        × IsWriteSet write_set.new blocks (with_node tree inode_attributes.now.number (node_of inode_attributes.now node.body))) }
    ensures seen { write_set.new.seen ≡ write_set.old.seen }
    ensures dirty_count { dirty_count write_set.new ≤ dirty_count write_set.old + 1 }
    ensures err { IfErr result (λ suspend. MaySuspend write_set.old.seen suspend) }
    ensures resumable { IfErr result (λ suspend. (blocks : Image) (tree : Tree) (node : Node)
        → IsWriteSet write_set.old blocks tree → node_at tree inode_attributes.now.number ≡ Some node → IsResumable suspend) }
{
    let found = match file(write_set.there(), inode_attributes.number) {
        Ok(Some(found)) => found,
        Ok(None) => return Err(Suspend::Io),
        Err(suspend) => return Err(suspend),
    };
    let next = as_large(inode_attributes, &found);
    match set(alloc, write_set, &next) {
        Ok(()) => Ok(next),
        Err(suspend) => Err(suspend),
    }
}
