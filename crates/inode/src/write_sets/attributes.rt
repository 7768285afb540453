//! The attributes of files that are there.
ghost use Rattle.std.specs.Prelude.{◌≡◌, ◌+◌, ◌≤◌, Some, Ok, IfErr, OnOk};
ghost use Rattle.disk.specs.Crash.{Image};
ghost use Rattle.nfs_spec.specs.Model.Node.{Node};
ghost use Rattle.nfs_spec.specs.Model.Tree.{Tree, node_at, with_node};
ghost use Rattle.layout.specs.declared.inode.Inode.{Inode as Held};
ghost use Rattle.layout.specs.Decode.{inode_at, node_with};
ghost use Rattle.layout.specs.InodeForm.{SoundInode};
ghost use Rattle.inode.specs.Over.{IsResumable, MaySuspend};
ghost use Rattle.inode.specs.Shown.{body_in};
ghost use Rattle.inode.specs.WriteSets.Attributes.{attributed};
ghost use Rattle.inode.specs.WriteSets.WriteSetContents.{IsWriteSet, image_of, dirty_count};

use crate::write_sets::WriteSet;
use crate::{Suspend, held};
use layout::Inode;
use std::alloc::Global;

/// The inode with the attributes of another, and its own kind, size and blocks.
pub fn attributed(inode: &Inode, looks: &Inode) -> Inode
    ensures { result ≡ attributed inode.now looks.now }
{
    let mut new = *looks;
    new.kind = inode.kind;
    new.size = inode.size;
    let direct = inode.direct;
    new.direct = direct;
    new.indirect = inode.indirect;
    new.double = inode.double;
    new
}

impl<'a> WriteSet<'a> {
    /// Gives the file of a number the attributes of this inode. Where there is no file nothing is done.
    pub fn set(&mut self, alloc: Global, number: u32, looks: &Inode) -> Result<(), Suspend>
        ensures ok { OnOk result ((blocks : Image) (tree : Tree) (node : Node) (inode : Held)
            → IsWriteSet self.old blocks tree → node_at tree number ≡ Some node
            → inode_at self.old.there.geometry (image_of blocks self.old) number ≡ Ok (Some inode)
            → SoundInode self.old.there.geometry (attributed inode looks.now)
            → IsWriteSet self.new blocks (with_node tree number (node_with (attributed inode looks.now)
            (body_in self.old.there.geometry (image_of blocks self.old) (attributed inode looks.now))))) }
        ensures seen { self.new.seen ≡ self.old.seen }
        ensures dirty_count { dirty_count self.new ≤ dirty_count self.old + 1 }
        ensures err { IfErr result (λ suspend. MaySuspend self.old.seen suspend) }
        ensures resumable { IfErr result (λ suspend. (blocks : Image) (tree : Tree) → IsWriteSet self.old blocks tree
            → IsResumable suspend) }
    {
        match held(self.there(), number) {
            Ok(Some(inode)) => self.put_inode(alloc, number, &attributed(&inode, looks)),
            Ok(None) => Ok(()),
            Err(suspend) => Err(suspend),
        }
    }
}
