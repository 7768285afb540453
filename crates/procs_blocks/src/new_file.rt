//! Files that are made.
ghost use Rattle.std.specs.Prelude.{◌≡◌, ◌+◌, ◌≤◌, IfErr, IfOk, OnOk};
ghost use Rattle.disk.specs.Crash.{Image};
ghost use Rattle.nfs_spec.specs.Model.Cost.{cost};
ghost use Rattle.nfs_spec.specs.Model.Sound.{SoundBody};
ghost use Rattle.nfs_spec.specs.Model.Tree.{Tree, free, with_node};
ghost use Rattle.nfs_spec.specs.Procedures.Fresh.{IsNewNumber, IsUnused};
ghost use Rattle.procs_files.specs.Writable.{SoundInodeAttributes, first_body};
ghost use Rattle.procs_files.specs.Heads.{IsBodyOf, node_of};
ghost use Rattle.inode.specs.Over.{IsResumable, MaySuspend};
ghost use Rattle.inode.specs.WriteSets.WriteSetContents.{IsWriteSet, dirty_count};
ghost use Rattle.procs_blocks.specs.Heads.{inode_of};

use crate::attributes::looks_of;
use crate::space::unused_number;
use bitmap::{make_empty, make_link};
use inode::{Suspend, WriteSet};
use layout::{Inode, InodeKind};
use nfs_types::FileKind;
use procs_files::InodeAttributes;
use std::alloc::Global;

/// A number that a file may have and none has.
pub fn new_number(write_set: &WriteSet) -> Result<Option<u32>, Suspend>
    ensures ok { IfOk result (λ number. (blocks : Image) (tree : Tree) → IsWriteSet write_set.now blocks tree
        → IsNewNumber tree number) }
    ensures err { IfErr result (λ suspend. MaySuspend write_set.now.seen suspend) }
    ensures resumable { IfErr result (λ suspend. (blocks : Image) (tree : Tree) → IsWriteSet write_set.now blocks tree
        → IsResumable suspend) }
{
    unused_number(write_set.there())
}

// An inode of this kind with the attributes of a head, and no blocks.
fn inode_of(inode_attributes: &InodeAttributes, kind: InodeKind) -> Inode
    ensures { result ≡ inode_of inode_attributes.now kind }
{
    let mut inode = looks_of(inode_attributes);
    inode.kind = kind;
    inode
}

/// Makes a file of this head, under a number that none has: without bytes, without names, or a link with
/// this target.
pub fn make(
    alloc: Global,
    write_set: &mut WriteSet,
    inode_attributes: &InodeAttributes,
    target: &[u8],
) -> Result<(), Suspend>
    ensures ok { OnOk result ((blocks : Image) (tree : Tree) → IsWriteSet write_set.old blocks tree
        → IsUnused tree inode_attributes.now.number → IsBodyOf inode_attributes.now (first_body inode_attributes.now target.now)
        → SoundInodeAttributes tree.geometry.inodes inode_attributes.now → SoundBody (first_body inode_attributes.now target.now)
        → cost (first_body inode_attributes.now target.now) ≤ free tree
        → IsWriteSet write_set.new blocks (with_node tree inode_attributes.now.number
        (node_of inode_attributes.now (first_body inode_attributes.now target.now)))) }
    ensures seen { write_set.new.seen ≡ write_set.old.seen }
    ensures dirty_count { dirty_count write_set.new ≤ dirty_count write_set.old + 2 }
    ensures err { IfErr result (λ suspend. MaySuspend write_set.old.seen suspend) }
    ensures resumable { IfErr result (λ suspend. (blocks : Image) (tree : Tree) → IsWriteSet write_set.old blocks tree
        → IsResumable suspend) }
{
    match inode_attributes.kind {
        FileKind::Directory => make_empty(
            alloc,
            write_set,
            inode_attributes.number,
            &inode_of(inode_attributes, InodeKind::Directory),
        ),
        FileKind::Regular => {
            make_empty(
                alloc,
                write_set,
                inode_attributes.number,
                &inode_of(inode_attributes, InodeKind::Regular),
            )
        }
        FileKind::Link => make_link(
            alloc,
            write_set,
            inode_attributes.number,
            &inode_of(inode_attributes, InodeKind::Link),
            target,
        ),
        FileKind::BlockDevice => Ok(()),
        FileKind::CharacterDevice => Ok(()),
        FileKind::Socket => Ok(()),
        FileKind::Fifo => Ok(()),
    }
}
