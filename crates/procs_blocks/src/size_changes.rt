//! Files of another size.
ghost use Rattle.std.specs.Prelude.{◌≡◌, ◌+◌, ◌*◌, ◌≤◌, Some, IfErr, IfOk};
ghost use Rattle.base.specs.declared.TheConstants.{BLOCK_BYTES, LARGEST_FILE};
ghost use Rattle.disk.specs.Crash.{Image};
ghost use Rattle.nfs_spec.specs.Model.Attributes.{size_of};
ghost use Rattle.nfs_spec.specs.Model.Cost.{cost};
ghost use Rattle.nfs_spec.specs.Model.Node.{Body, Node};
ghost use Rattle.nfs_spec.specs.Model.SetAttr.{with_length};
ghost use Rattle.nfs_spec.specs.Model.Tree.{Tree, node_at, with_node};
ghost use Rattle.procs_files.specs.Writable.{SoundInodeAttributes, headed};
ghost use Rattle.procs_files.specs.Heads.{IsBodyOf, node_of};
ghost use Rattle.inode.specs.Over.{IsResumable, MaySuspend};
ghost use Rattle.inode.specs.WriteSets.WriteSetContents.{IsWriteSet, dirty_count};
ghost use Rattle.inode_sizes.specs.Sized.{IsUse};

use crate::attributes::looks_of;
use base::BLOCK_BYTES;
use inode::{Suspend, WriteSet};
use inode_sizes::resize as resize_file;
use nfs_types::FileKind;
use procs_files::InodeAttributes;
use std::alloc::Global;

// The size that a file has when it was given this one, which only a regular file takes.
fn size_after(inode_attributes: &InodeAttributes, size: u64) -> u64
    ensures { (body : Body) → IsBodyOf inode_attributes.now body → result ≡ size_of (with_length (Some size) body) }
{
    match inode_attributes.kind {
        FileKind::Regular => size,
        FileKind::Directory => inode_attributes.size,
        FileKind::BlockDevice => inode_attributes.size,
        FileKind::CharacterDevice => inode_attributes.size,
        FileKind::Link => inode_attributes.size,
        FileKind::Socket => inode_attributes.size,
        FileKind::Fifo => inode_attributes.size,
    }
}

// The bytes of the blocks that a file uses: of so many, or as before.
fn used_after(inode_attributes: &InodeAttributes, used: Option<u32>) -> u64
    ensures { (body new : Body) → IsBodyOf inode_attributes.now body → IsUse used body new
        → result ≡ BLOCK_BYTES * cost new }
{
    match used {
        Some(blocks) => BLOCK_BYTES as u64 * blocks as u64,
        None => inode_attributes.used,
    }
}

// The head of the file with this size, if it is a regular one, that uses so many blocks, or as many as before.
fn resized(inode_attributes: &InodeAttributes, size: u64, used: Option<u32>) -> InodeAttributes
    ensures { (body : Body) → IsBodyOf inode_attributes.now body → IsUse used body (with_length (Some size) body)
        → result ≡ headed inode_attributes.now (with_length (Some size) body) }
{
    let mut next = *inode_attributes;
    next.size = size_after(inode_attributes, size);
    next.used = used_after(inode_attributes, used);
    next
}

/// Cuts a regular file, whose attributes become these, or fills it up with zeros, for which it takes no block.
/// The head is that of the file of this size.
pub fn resize(
    alloc: Global,
    write_set: &mut WriteSet,
    inode_attributes: &InodeAttributes,
    size: u64,
) -> Result<InodeAttributes, Suspend>
    requires { size ≤ LARGEST_FILE }
    ensures ok { IfOk result (λ next. (blocks : Image) (tree : Tree) (node : Node)
        → IsWriteSet write_set.old blocks tree → node_at tree inode_attributes.now.number ≡ Some node
        → IsBodyOf inode_attributes.now node.body → SoundInodeAttributes tree.geometry.inodes inode_attributes.now
        → (next ≡ headed inode_attributes.now (with_length (Some size) node.body))
        × IsWriteSet write_set.new blocks (with_node tree inode_attributes.now.number
        (node_of inode_attributes.now (with_length (Some size) node.body)))) }
    ensures seen { write_set.new.seen ≡ write_set.old.seen }
    ensures dirty_count { dirty_count write_set.new ≤ dirty_count write_set.old + 5 }
    ensures err { IfErr result (λ suspend. MaySuspend write_set.old.seen suspend) }
    ensures resumable { IfErr result (λ suspend. (blocks : Image) (tree : Tree) → IsWriteSet write_set.old blocks tree
        → IsResumable suspend) }
{
    match resize_file(
        alloc,
        write_set,
        inode_attributes.number,
        &looks_of(inode_attributes),
        size,
    ) {
        Ok(used) => Ok(resized(inode_attributes, size, used)),
        Err(suspend) => Err(suspend),
    }
}
