//! READLINK (RFC 1813, section 3.3.5).
ghost use Rattle.std.specs.Prelude.{◌≡◌, IfErr, IfOk};
ghost use Rattle.nfs_spec.specs.Model.Node.{Body};
ghost use Rattle.nfs_spec.specs.Model.Tree.{Tree};
ghost use Rattle.nfs_spec.specs.Procedures.ReadLink.{ReadLinkStep, target_of};
ghost use Rattle.procs_files.specs.Heads.{IsFileIn};

use nfs_types::{FileKind, Handle, Octets, Status};
use procs_files::{Files, InodeAttributes, QueryReply, find};
use std::alloc::Global;

fn target_of<F: Files>(
    alloc: Global,
    files: &F,
    inode_attributes: &InodeAttributes,
) -> Result<Result<Octets, Status>, F::Suspend>
    ensures err { IfErr result (λ suspend. F.may_suspend (F.source files.now) suspend) }
    ensures resumable { IfErr result (λ suspend. (world : F.World) (tree : Tree) → F.stands files.now world tree
        → F.is_resumable suspend) }
    ensures ok { IfOk result (λ r. (world : F.World) (tree : Tree) (body : Body) → F.stands files.now world tree
        → IsFileIn tree inode_attributes.now body → r ≡ target_of body) }
{
    if matches!(inode_attributes.kind, FileKind::Link) {
        Ok(Ok(files.target(alloc, inode_attributes)?))
    } else {
        Ok(Err(Status::Inval))
    }
}

/// The target of a link.
pub fn read_link<F: Files>(
    alloc: Global,
    files: &F,
    link: &Handle,
) -> Result<QueryReply<Octets>, F::Suspend>
    ensures err { IfErr result (λ suspend. F.may_suspend (F.source files.now) suspend) }
    ensures resumable { IfErr result (λ suspend. (world : F.World) (tree : Tree) → F.stands files.now world tree
        → F.is_resumable suspend) }
    ensures ok { IfOk result (λ query_reply. (world : F.World) (tree : Tree) → F.stands files.now world tree
        → ReadLinkStep tree link.now.bytes query_reply.outcome query_reply.object tree) }
{
    match find(files, link)? {
        Err(status) => Ok(QueryReply {
            outcome: Err(status),
            object: None,
        }),
        Ok(inode_attributes) => Ok(QueryReply {
            outcome: target_of(alloc, files, &inode_attributes)?,
            object: Some(inode_attributes.attributes()),
        }),
    }
}
