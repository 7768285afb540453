//! What a name leads to that a caller would change.
ghost use Rattle.std.specs.Prelude.{IfErr, IfOk};
ghost use Rattle.nfs_spec.specs.Model.Node.{Body};
ghost use Rattle.nfs_spec.specs.Model.Tree.{Tree};
ghost use Rattle.procs_files.specs.Heads.{IsFileIn, node_of};
ghost use Rattle.procs_names.specs.Links.Shapes.{IsLookupForChange};

use nfs_types::{Credential, Status};
use procs_files::{Files, InodeAttributes, dentry_refusal, may_change, named_file};

/// What a name in a directory leads to, where it may be changed.
pub fn lookup_for_change<F: Files>(
    files: &F,
    caller: &Credential,
    directory: &InodeAttributes,
    name: &[u8],
) -> Result<Result<Option<InodeAttributes>, Status>, F::Suspend>
    ensures err { IfErr result (λ suspend. F.may_suspend (F.source files.now) suspend) }
    ensures resumable { IfErr result (λ suspend. (world : F.World) (tree : Tree) → F.stands files.now world tree
        → F.is_resumable suspend) }
    ensures ok { IfOk result (λ found. (world : F.World) (tree : Tree) (body : Body)
        → F.stands files.now world tree → IsFileIn tree directory.now body
        → IsLookupForChange tree caller.now (node_of directory.now body) name.now found) }
{
    if let Some(status) = dentry_refusal(may_change(caller, directory), directory, name) {
        return Ok(Err(status));
    }
    Ok(Ok(named_file(files, directory, name)?))
}
