//! What is asked of directories before a name comes or goes.
ghost use Rattle.std.specs.Prelude.{◌≡◌, not, IfErr, IfOk};
ghost use Rattle.disk.specs.Crash.{Image};
ghost use Rattle.nfs_spec.specs.Model.Node.{Body};
ghost use Rattle.nfs_spec.specs.Model.Tree.{Tree};
ghost use Rattle.nfs_spec.specs.Procedures.Places.{least_free_slot};
ghost use Rattle.nfs_spec.specs.Procedures.RmDir.{has_names};
ghost use Rattle.procs_files.specs.Heads.{IsFileIn};
ghost use Rattle.inode.specs.Over.{IsOver, IsResumable, MaySuspend};

use crate::BlockFiles;
use crate::contents::{first_free_slot, has_no_names};
use inode::{Suspend, held};
use procs_files::InodeAttributes;

impl<'a> BlockFiles<'a> {
    /// The least slot of a directory in which no name lies.
    pub(crate) fn free_slot(&self, directory: &InodeAttributes) -> Result<Option<u32>, Suspend>
        ensures err { IfErr result (λ suspend. MaySuspend self.now.snap.now suspend) }
        ensures resumable { IfErr result (λ suspend. (blocks : Image) (tree : Tree)
            → IsOver self.now.snap.now blocks tree → IsResumable suspend) }
        ensures ok { IfOk result (λ slot. (blocks : Image) (tree : Tree) (body : Body)
            → IsOver self.now.snap.now blocks tree → IsFileIn tree directory.now body
            → slot ≡ least_free_slot body) }
    {
        match held(self.snap, directory.number)? {
            Some(inode) => first_free_slot(self.snap, &inode),
            None => Ok(None),
        }
    }

    /// Whether no name lies in a file.
    pub(crate) fn is_empty(&self, file: &InodeAttributes) -> Result<bool, Suspend>
        ensures err { IfErr result (λ suspend. MaySuspend self.now.snap.now suspend) }
        ensures resumable { IfErr result (λ suspend. (blocks : Image) (tree : Tree)
            → IsOver self.now.snap.now blocks tree → IsResumable suspend) }
        ensures ok { IfOk result (λ empty. (blocks : Image) (tree : Tree) (body : Body)
            → IsOver self.now.snap.now blocks tree → IsFileIn tree file.now body
            → empty ≡ not (has_names body)) }
    {
        match held(self.snap, file.number)? {
            Some(inode) => has_no_names(self.alloc, self.snap, &inode),
            None => Ok(true),
        }
    }
}
