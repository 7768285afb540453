//! What a RENAME asks for behind a run that walks up from the directory that gets the name (RFC 1813, section 3.3.14): the
//! directories above that one, each by the one below it. This is a position, of which nothing is claimed.
ghost use Rattle.std.specs.Prelude.{IfErr};
ghost use Rattle.inode.specs.Over.{MaySuspend};

use inode::{Snap, Suspend, held};
use layout::InodeKind;
use nfs_types::Handle;

/// How far the walk has come, and the file that gets the name: the walk ends there, or at the root.
#[derive(Drop)]
pub(crate) struct Above {
    at: u32,
    moved: u32,
}

impl Above {
    /// A walk that begins at the directory of a handle.
    pub(crate) fn begin(directory: &Handle, moved: u32) -> Option<Above> {
        let (at, _) = directory.parts()?;
        Some(Above { at, moved })
    }

    /// Asks for the next directory that wasn't read.
    pub(crate) fn go_on(&mut self, snap: &Snap) -> Result<(), Suspend>
        ensures { IfErr result (λ why. MaySuspend snap.now why) }
    {
        for _ in 0..snap.geometry.inodes {
            if self.at == self.moved {
                return Ok(());
            }
            let Some(inode) = held(snap, self.at)? else {
                return Ok(());
            };
            if inode.kind != InodeKind::Directory || inode.parent == self.at {
                return Ok(());
            }
            self.at = inode.parent;
        }
        Ok(())
    }
}
