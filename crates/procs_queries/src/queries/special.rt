//! MKNOD (RFC 1813, section 3.3.11): no special file is ever made, so this only tells something.
ghost use Rattle.std.specs.Prelude.{IfErr, IfOk};
ghost use Rattle.nfs_spec.specs.Model.Tree.{Tree};
ghost use Rattle.nfs_spec.specs.Procedures.MkNod.{MkNodStep};

use crate::queries::commits::left_unchanged;
use nfs_types::{Created, Handle, Status};
use procs_files::{Changed, Files, find, untold};

/// The refusal of a special file.
pub fn make_special<F: Files>(files: &F, directory: &Handle) -> Result<Changed<Created>, F::Suspend>
    ensures err { IfErr result (λ suspend. F.may_suspend (F.source files.now) suspend) }
    ensures resumable { IfErr result (λ suspend. (world : F.World) (tree : Tree) → F.stands files.now world tree
        → F.is_resumable suspend) }
    ensures ok { IfOk result (λ query_reply. (world : F.World) (tree : Tree) → F.stands files.now world tree → MkNodStep
        tree directory.now.bytes query_reply.outcome query_reply.file tree) }
{
    match find(files, directory)? {
        Err(status) => Ok(Changed {
            outcome: Err(status),
            file: untold(),
        }),
        Ok(inode_attributes) => Ok(Changed {
            outcome: Err(Status::NotSupp),
            file: left_unchanged(&inode_attributes),
        }),
    }
}
