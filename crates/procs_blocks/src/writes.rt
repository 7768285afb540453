//! Bytes that are written to files.
ghost use Rattle.std.specs.Prelude.{◌≡◌, ◌+◌, ◌<◌, ◌≤◌, length, Some, IfErr, IfOk};
ghost use Rattle.base.specs.declared.TheConstants.{LARGEST_FILE, TRANSFER_BYTES};
ghost use Rattle.disk.specs.Crash.{Image};
ghost use Rattle.nfs_spec.specs.Model.Node.{Node};
ghost use Rattle.nfs_spec.specs.Model.Tree.{Tree, free, node_at, with_node};
ghost use Rattle.nfs_spec.specs.Procedures.Write.{with_text};
ghost use Rattle.procs_files.specs.Writable.{SoundInodeAttributes, adds, headed};
ghost use Rattle.procs_files.specs.Heads.{IsBodyOf, node_of};
ghost use Rattle.inode.specs.Over.{IsResumable, MaySuspend};
ghost use Rattle.inode.specs.WriteSets.WriteSetContents.{IsWriteSet, dirty_count};

use crate::inode_refresh::refresh;
use inode::{Suspend, WriteSet};
use procs_files::InodeAttributes;
use std::alloc::Global;

/// Writes bytes to a regular file, whose attributes become these. The head is that of the file with them.
pub fn write(
    alloc: Global,
    write_set: &mut WriteSet,
    inode_attributes: &InodeAttributes,
    offset: u64,
    text: &[u8],
) -> Result<InodeAttributes, Suspend>
    requires some { 0 < length text.now }
    requires small { offset + length text.now ≤ LARGEST_FILE }
    ensures ok { IfOk result (λ next. (blocks : Image) (tree : Tree) (node : Node) → IsWriteSet write_set.old blocks tree
        → node_at tree inode_attributes.now.number ≡ Some node → IsBodyOf inode_attributes.now node.body
        → SoundInodeAttributes tree.geometry.inodes inode_attributes.now
        → adds (with_text offset text.now node.body) node.body ≤ free tree
        → (next ≡ headed inode_attributes.now (with_text offset text.now node.body))
        × IsWriteSet write_set.new blocks (with_node tree inode_attributes.now.number
        (node_of inode_attributes.now (with_text offset text.now node.body)))) }
    ensures seen { write_set.new.seen ≡ write_set.old.seen }
    ensures dirty_count { length text.now ≤ TRANSFER_BYTES → dirty_count write_set.new ≤ dirty_count write_set.old + 71 }
    ensures err { IfErr result (λ suspend. MaySuspend write_set.old.seen suspend) }
    ensures resumable { IfErr result (λ suspend. (blocks : Image) (tree : Tree) → IsWriteSet write_set.old blocks tree
        → IsResumable suspend) }
{
    match inode_data::write(alloc, write_set, inode_attributes.number, offset, text) {
        Ok(true) => refresh(alloc, write_set, inode_attributes),
        Ok(false) => Ok(*inode_attributes),
        Err(suspend) => Err(suspend),
    }
}
