//! GETATTR (RFC 1813, section 3.3.1).
ghost use Rattle.std.specs.Prelude.{◌≢◌, Err, IfErr, IfOk};
ghost use Rattle.nfs_types.specs.declared.status.Status.TheVariants as status;
ghost use Rattle.nfs_spec.specs.Model.Find.{number_in};
ghost use Rattle.nfs_spec.specs.Model.GetAttr.{GetAttrStep};
ghost use Rattle.nfs_spec.specs.Model.Tree.{Tree};

use nfs_types::{Attributes, Handle, Status};
use procs_files::{Files, find};

/// The attributes of a file.
pub fn get_attributes<F: Files>(
    files: &F,
    object: &Handle,
) -> Result<Result<Attributes, Status>, F::Suspend>
    ensures err { IfErr result (λ suspend. F.may_suspend (F.source files.now) suspend) }
    ensures resumable { IfErr result (λ suspend. (world : F.World) (tree : Tree) → F.stands files.now world tree
        → F.is_resumable suspend) }
    ensures read { IfOk result (λ outcome. outcome ≢ Err status.BadHandle
        → F.was_read (F.source files.now) (number_in object.now.bytes)) }
    ensures ok { IfOk result (λ outcome. (world : F.World) (tree : Tree) → F.stands files.now world tree
        → GetAttrStep tree object.now.bytes outcome tree) }
{
    match find(files, object)? {
        Err(status) => Ok(Err(status)),
        Ok(inode_attributes) => Ok(Ok(inode_attributes.attributes())),
    }
}
