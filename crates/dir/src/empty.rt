//! Whether a directory has names.
ghost use Rattle.std.specs.Prelude.{◌≡◌, ℕ, not, IfErr, IfOk};
ghost use Rattle.disk.specs.Crash.{Image};
ghost use Rattle.nfs_spec.specs.Model.Tree.{Tree};
ghost use Rattle.nfs_spec.specs.Procedures.RmDir.{has_names};
ghost use Rattle.layout.specs.Decode.{directory_in};
ghost use Rattle.layout.specs.Parts.{content_in};
ghost use Rattle.inode.specs.Over.{IsResumable, MaySuspend};
ghost use Rattle.dir.specs.Slots.{IsDirectoryOf};
ghost use Rattle.inode.specs.Asked.{MaySuspendFor};
ghost use Rattle.dir.specs.Asked.{FreeBefore, IsNeededBehind};

use crate::next::next_name;
use inode::{Snap, Suspend};
use layout::Inode;
use std::alloc::Global;

/// Whether no name lies in a directory.
pub fn is_empty(alloc: Global, snap: &Snap, inode: &Inode) -> Result<bool, Suspend>
    ensures ok { IfOk result (λ empty. (blocks : Image) (tree : Tree) (file : ℕ)
        → IsDirectoryOf snap.now blocks tree file inode.now
        → empty ≡ not (has_names (directory_in snap.now.geometry.inodes (content_in snap.now.geometry blocks)
        inode.now))) }
    ensures err { IfErr result (λ suspend. MaySuspend snap.now suspend) }
    ensures asks { IfErr result (λ suspend. MaySuspendFor (IsNeededBehind (FreeBefore 0) snap.now inode.now) suspend) }
    ensures resumable { IfErr result (λ suspend. (blocks : Image) (tree : Tree) (file : ℕ)
        → IsDirectoryOf snap.now blocks tree file inode.now → IsResumable suspend) }
{
    match next_name(alloc, snap, inode, 0) {
        Ok(Some(_)) => Ok(false),
        Ok(None) => Ok(true),
        Err(suspend) => Err(suspend),
    }
}
