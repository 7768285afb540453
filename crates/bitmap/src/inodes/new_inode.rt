//! Files that are made.
ghost use Rattle.std.specs.Prelude.{◌≡◌, ◌+◌, ◌≤◌, IfErr, OnOk};
ghost use Rattle.disk.specs.Crash.{Image};
ghost use Rattle.nfs_spec.specs.Model.Tree.{Tree, with_node};
ghost use Rattle.nfs_spec.specs.Procedures.Fresh.{IsUnused};
ghost use Rattle.layout.specs.Decode.{node_with};
ghost use Rattle.layout.specs.InodeForm.{SoundInode};
ghost use Rattle.inode.specs.Over.{IsResumable, MaySuspend};
ghost use Rattle.inode.specs.Shown.{body_in};
ghost use Rattle.inode.specs.WriteSets.WriteSetContents.{IsWriteSet, image_of, dirty_count};
ghost use Rattle.bitmap.specs.Inodes.Emptied.{emptied};

use crate::mark_number;
use base::DIRECT_INDEXES;
use inode::{Suspend, WriteSet};
use layout::Inode;
use std::alloc::Global;

/// The inode with no bytes and no blocks.
pub fn emptied(inode: &Inode) -> Inode
    ensures { result ≡ emptied inode.now }
{
    let mut new = *inode;
    let none = [0; DIRECT_INDEXES];
    new.size = 0;
    new.direct = none;
    new.indirect = 0;
    new.double = 0;
    new
}

/// Makes a file with the attributes of this inode, without bytes or names, under a number that none has. No
/// link is made so: it has a target.
pub fn make_empty(
    alloc: Global,
    write_set: &mut WriteSet,
    number: u32,
    inode: &Inode,
) -> Result<(), Suspend>
    ensures ok { OnOk result ((blocks : Image) (tree : Tree) → IsWriteSet write_set.old blocks tree
        → IsUnused tree number → SoundInode write_set.old.there.geometry (emptied inode.now)
        → IsWriteSet write_set.new blocks (with_node tree number (node_with (emptied inode.now)
        (body_in write_set.old.there.geometry (image_of blocks write_set.old) (emptied inode.now))))) }
    ensures seen { write_set.new.seen ≡ write_set.old.seen }
    ensures dirty_count { dirty_count write_set.new ≤ dirty_count write_set.old + 1 }
    ensures err { IfErr result (λ suspend. MaySuspend write_set.old.seen suspend) }
    ensures resumable { IfErr result (λ suspend. IsResumable suspend) }
{
    if number >= write_set.there().geometry.inodes {
        return Ok(());
    }
    match mark_number(alloc, write_set, number, true) {
        Ok(()) => write_set.put_inode(alloc, number, &emptied(inode)),
        Err(suspend) => Err(suspend),
    }
}
