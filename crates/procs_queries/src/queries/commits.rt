//! COMMIT (RFC 1813, section 3.3.21).
ghost use Rattle.std.specs.Prelude.{◌≡◌, IfErr, IfOk};
ghost use Rattle.nfs_spec.specs.Model.Attributes.{change_of};
ghost use Rattle.nfs_spec.specs.Model.Node.{Body};
ghost use Rattle.nfs_spec.specs.Model.Tree.{Tree};
ghost use Rattle.nfs_spec.specs.Procedures.Commit.{CommitStep, commit_refusal};
ghost use Rattle.procs_files.specs.Heads.{IsBodyOf, bare, node_of};

use nfs_types::{Credential, Ctx, FileKind, Handle, Status, Verifier, WeakCacheData};
use procs_files::{Changed, Files, InodeAttributes, find, may_write_file, untold};

fn commit_refusal(caller: &Credential, inode_attributes: &InodeAttributes) -> Option<Status>
    ensures { result ≡ commit_refusal caller.now (bare inode_attributes.now) }
{
    if !matches!(inode_attributes.kind, FileKind::Regular) {
        Some(Status::Inval)
    } else if !may_write_file(caller, inode_attributes) {
        Some(Status::Acces)
    } else {
        None
    }
}

/// What is told of a file that the call leaves as it is.
pub(crate) fn left_unchanged(inode_attributes: &InodeAttributes) -> WeakCacheData
    ensures { (body : Body) → IsBodyOf inode_attributes.now body
        → result ≡ change_of inode_attributes.now.number (node_of inode_attributes.now body) (node_of inode_attributes.now body) }
{
    WeakCacheData {
        before: Some(inode_attributes.before_change()),
        after: Some(inode_attributes.attributes()),
    }
}

/// The verifier of this boot, where the caller may write the file.
pub fn commit<F: Files>(
    files: &F,
    ctx: &Ctx,
    file: &Handle,
) -> Result<Changed<Verifier>, F::Suspend>
    ensures err { IfErr result (λ suspend. F.may_suspend (F.source files.now) suspend) }
    ensures resumable { IfErr result (λ suspend. (world : F.World) (tree : Tree) → F.stands files.now world tree
        → F.is_resumable suspend) }
    ensures ok { IfOk result (λ query_reply. (world : F.World) (tree : Tree) → F.stands files.now world tree → CommitStep
        tree ctx.now file.now.bytes query_reply.outcome query_reply.file tree) }
{
    match find(files, file)? {
        Err(status) => Ok(Changed {
            outcome: Err(status),
            file: untold(),
        }),
        Ok(inode_attributes) => Ok(Changed {
            outcome: match commit_refusal(&ctx.credential, &inode_attributes) {
                Some(status) => Err(status),
                None => Ok(Verifier::of_boot(ctx.boot)),
            },
            file: left_unchanged(&inode_attributes),
        }),
    }
}
