//! The file that a handle names.
ghost use Rattle.std.specs.Prelude.{◌≡◌, ◌≢◌, Err, IfErr, IfOk};
ghost use Rattle.nfs_types.specs.declared.status.Status.TheVariants as status;
ghost use Rattle.nfs_spec.specs.Model.Find.{find_file, number_in};
ghost use Rattle.nfs_spec.specs.Model.Tree.{Tree};
ghost use Rattle.procs_files.specs.Heads.{IsNamed};

use crate::{Files, InodeAttributes};
use nfs_types::{Handle, Status};

/// The file that a handle names, or why there is none: BADHANDLE for what can't be a handle of this server,
/// STALE for a file that is no more (RFC 1813, section 2.6).
pub fn find<F: Files>(
    files: &F,
    handle: &Handle,
) -> Result<Result<InodeAttributes, Status>, F::Suspend>
    ensures err { IfErr result (λ suspend. F.may_suspend (F.source files.now) suspend) }
    ensures resumable { IfErr result (λ suspend. (world : F.World) (tree : Tree) → F.stands files.now world tree
        → F.is_resumable suspend) }
    ensures read { IfOk result (λ found. found ≢ Err status.BadHandle
        → F.was_read (F.source files.now) (number_in handle.now.bytes)) }
    ensures ok { IfOk result (λ found. (world : F.World) (tree : Tree) → F.stands files.now world tree
        → IsNamed tree (find_file tree handle.now.bytes) found) }
{
    let Some((number, stamp)) = handle.parts() else {
        return Ok(Err(Status::BadHandle));
    };
    if number == 0 || number >= files.inodes() {
        return Ok(Err(Status::BadHandle));
    }
    let Some(inode_attributes) = files.file(number)? else {
        return Ok(Err(Status::Stale));
    };
    if inode_attributes.stamp != stamp {
        return Ok(Err(Status::Stale));
    }
    Ok(Ok(inode_attributes))
}
