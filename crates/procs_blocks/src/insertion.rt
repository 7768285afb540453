//! Names that are put into directories.
ghost use Rattle.std.specs.Prelude.{◌≡◌, ◌+◌, ◌*◌, ◌<◌, ◌≤◌, ℕ, cond, nat_lt, List, Some, true, IfErr, IfOk, OnOk};
ghost use Rattle.base.specs.declared.TheConstants.{BLOCK_BYTES, DIRECT_INDEXES, SLOTS_PER_BLOCK};
ghost use Rattle.disk.specs.Crash.{Image};
ghost use Rattle.nfs_spec.specs.Model.Names.{is_directory};
ghost use Rattle.nfs_spec.specs.Model.Node.{Body, DirentValue, Node};
ghost use Rattle.nfs_spec.specs.Model.Tree.{Tree, free, node_at, with_node};
ghost use Rattle.nfs_spec.specs.Procedures.Changes.{with_dirent};
ghost use Rattle.procs_files.specs.Writable.{CanEnter, SoundInodeAttributes, adds, headed};
ghost use Rattle.procs_files.specs.Heads.{IsBodyOf, dirent_of, node_of};
ghost use Rattle.inode.specs.Over.{IsResumable, MaySuspend};
ghost use Rattle.inode.specs.WriteSets.WriteSetContents.{IsWriteSet, dirty_count};

use crate::attributes::looks_of;
use base::{BLOCK_BYTES, DIRECT_INDEXES, SLOTS_PER_BLOCK};
use inode::{Suspend, WriteSet, attributed};
use procs_files::{InodeAttributes, SlotDirent};
use std::alloc::Global;

// The bytes of the blocks of a directory that spans so many.
fn used_bytes(span: u32) -> u64
    ensures { result ≡ BLOCK_BYTES * (span + cond (nat_lt DIRECT_INDEXES span) 1 0) }
{
    let indirect_block = if span as usize > DIRECT_INDEXES { 1 } else { 0 };
    BLOCK_BYTES as u64 * (span as u64 + indirect_block)
}

// The head of a directory in which a name lies in this slot, too.
fn entered_inode_attributes(inode_attributes: &InodeAttributes, slot: u32) -> InodeAttributes
    ensures { (name : List ℕ) (dirent : DirentValue) (body : Body) → IsBodyOf inode_attributes.now body
        → is_directory body ≡ true → dirent.slot ≡ slot → result ≡ headed inode_attributes.now (with_dirent name dirent body) }
{
    let wide = slot / SLOTS_PER_BLOCK + 1;
    if wide as u64 <= inode_attributes.size / BLOCK_BYTES as u64 {
        return *inode_attributes;
    }
    let mut next = *inode_attributes;
    next.size = BLOCK_BYTES as u64 * wide as u64;
    next.used = used_bytes(wide);
    next
}

// Gives a file, whose attributes become these, a name for a file.
fn enter_there(
    alloc: Global,
    write_set: &mut WriteSet,
    inode_attributes: &InodeAttributes,
    name: &[u8],
    dirent: SlotDirent,
) -> Result<(), Suspend>
    ensures ok { OnOk result ((blocks : Image) (tree : Tree) (node : Node) → IsWriteSet write_set.old blocks tree
        → node_at tree inode_attributes.now.number ≡ Some node → IsBodyOf inode_attributes.now node.body
        → SoundInodeAttributes tree.geometry.inodes inode_attributes.now → CanEnter tree node.body name.now (dirent_of dirent)
        → adds (with_dirent name.now (dirent_of dirent) node.body) node.body ≤ free tree
        → IsWriteSet write_set.new blocks (with_node tree inode_attributes.now.number
        (node_of inode_attributes.now (with_dirent name.now (dirent_of dirent) node.body)))) }
    ensures seen { write_set.new.seen ≡ write_set.old.seen }
    ensures dirty_count { dirty_count write_set.new ≤ dirty_count write_set.old + 4 }
    ensures err { IfErr result (λ suspend. MaySuspend write_set.old.seen suspend) }
    ensures resumable { IfErr result (λ suspend. (blocks : Image) (tree : Tree) → IsWriteSet write_set.old blocks tree
        → IsResumable suspend) }
{
    match dir_writes::enter(
        alloc,
        write_set,
        inode_attributes.number,
        name,
        dirent.number,
        dirent.slot,
    ) {
        Ok(Some(inode)) => {
            write_set.put_inode(
                alloc,
                inode_attributes.number,
                &attributed(&inode, &looks_of(inode_attributes)),
            )
        }
        Ok(None) => Ok(()),
        Err(suspend) => Err(suspend),
    }
}

/// Gives a directory, whose attributes become these, a name for a file. A name that it has leads to this file
/// from then on. The head is that of the directory with the name.
pub fn enter(
    alloc: Global,
    write_set: &mut WriteSet,
    inode_attributes: &InodeAttributes,
    name: &[u8],
    dirent: SlotDirent,
) -> Result<InodeAttributes, Suspend>
    ensures ok { IfOk result (λ next. (blocks : Image) (tree : Tree) (node : Node) → IsWriteSet write_set.old blocks tree
        → node_at tree inode_attributes.now.number ≡ Some node → IsBodyOf inode_attributes.now node.body
        → SoundInodeAttributes tree.geometry.inodes inode_attributes.now → CanEnter tree node.body name.now (dirent_of dirent)
        → adds (with_dirent name.now (dirent_of dirent) node.body) node.body ≤ free tree
        → (next ≡ headed inode_attributes.now (with_dirent name.now (dirent_of dirent) node.body))
        × IsWriteSet write_set.new blocks (with_node tree inode_attributes.now.number
        (node_of inode_attributes.now (with_dirent name.now (dirent_of dirent) node.body)))) }
    ensures seen { write_set.new.seen ≡ write_set.old.seen }
    ensures dirty_count { dirty_count write_set.new ≤ dirty_count write_set.old + 4 }
    ensures err { IfErr result (λ suspend. MaySuspend write_set.old.seen suspend) }
    ensures resumable { IfErr result (λ suspend. (blocks : Image) (tree : Tree) → IsWriteSet write_set.old blocks tree
        → IsResumable suspend) }
{
    let next = entered_inode_attributes(inode_attributes, dirent.slot);
    match enter_there(alloc, write_set, inode_attributes, name, dirent) {
        Ok(()) => Ok(next),
        Err(suspend) => Err(suspend),
    }
}
