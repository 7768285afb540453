//! LOOKUP (RFC 1813, section 3.3.3).
ghost use Rattle.std.specs.Prelude.{◌≡◌, IfErr, IfOk};
ghost use Rattle.nfs_spec.specs.Model.Node.{Body};
ghost use Rattle.nfs_spec.specs.Model.Tree.{Tree};
ghost use Rattle.nfs_spec.specs.Procedures.Lookup.{LookupStep, found_under, lookup_name, lookup_result};
ghost use Rattle.procs_files.specs.Heads.{IsBodyOf, IsFileIn, IsFound, node_of};

use nfs_types::{Ctx, DirectoryName, Handle, LookupResult, Status};
use procs_files::{
    Files, InodeAttributes, QueryReply, dentry_refusal, find, is_dots, may_search, named_file,
};
use std::alloc::{AllocError, Global};

// The file that a name leads to: `.` to the directory, `..` to its parent.
fn found_under<F: Files>(
    files: &F,
    directory: &InodeAttributes,
    name: &[u8],
) -> Result<Option<InodeAttributes>, F::Suspend>
    ensures err { IfErr result (λ suspend. F.may_suspend (F.source files.now) suspend) }
    ensures resumable { IfErr result (λ suspend. (world : F.World) (tree : Tree) → F.stands files.now world tree
        → F.is_resumable suspend) }
    ensures ok { IfOk result (λ found. (world : F.World) (tree : Tree) (body : Body)
        → F.stands files.now world tree → IsFileIn tree directory.now body
        → IsFound tree (found_under tree directory.now.number (node_of directory.now body) name.now) found) }
{
    if is_dots(1, name) {
        Ok(Some(*directory))
    } else if is_dots(2, name) {
        files.file(directory.parent)
    } else {
        named_file(files, directory, name)
    }
}

fn lookup_result(
    alloc: Global,
    inode_attributes: &InodeAttributes,
) -> Result<LookupResult, AllocError>
    ensures { IfOk result (λ r. (body : Body) → IsBodyOf inode_attributes.now body
        → r ≡ lookup_result (inode_attributes.now.number, node_of inode_attributes.now body)) }
{
    Ok(LookupResult {
        object: Handle::of(alloc, inode_attributes.number, inode_attributes.stamp)?,
        attributes: Some(inode_attributes.attributes()),
    })
}

fn lookup_in<F: Files>(
    alloc: Global,
    files: &F,
    ctx: &Ctx,
    directory: &InodeAttributes,
    name: &[u8],
) -> Result<Result<LookupResult, Status>, F::Suspend>
    ensures err { IfErr result (λ suspend. F.may_suspend (F.source files.now) suspend) }
    ensures resumable { IfErr result (λ suspend. (world : F.World) (tree : Tree) → F.stands files.now world tree
        → F.is_resumable suspend) }
    ensures ok { IfOk result (λ r. (world : F.World) (tree : Tree) (body : Body) → F.stands files.now world tree
        → IsFileIn tree directory.now body
        → r ≡ lookup_name tree ctx.now.credential name.now directory.now.number (node_of directory.now body)) }
{
    let allowed = may_search(&ctx.credential, directory);
    if let Some(status) = dentry_refusal(allowed, directory, name) {
        return Ok(Err(status));
    }
    match found_under(files, directory, name)? {
        Some(inode_attributes) => Ok(Ok(lookup_result(alloc, &inode_attributes)?)),
        None => Ok(Err(Status::NoEnt)),
    }
}

/// The file that a name in a directory leads to.
pub fn lookup_name<F: Files>(
    alloc: Global,
    files: &F,
    ctx: &Ctx,
    name: &DirectoryName,
) -> Result<QueryReply<LookupResult>, F::Suspend>
    ensures err { IfErr result (λ suspend. F.may_suspend (F.source files.now) suspend) }
    ensures resumable { IfErr result (λ suspend. (world : F.World) (tree : Tree) → F.stands files.now world tree
        → F.is_resumable suspend) }
    ensures ok { IfOk result (λ query_reply. (world : F.World) (tree : Tree) → F.stands files.now world tree → LookupStep
        tree ctx.now name.now.directory.bytes name.now.name query_reply.outcome query_reply.object tree) }
{
    match find(files, &name.directory)? {
        Err(status) => Ok(QueryReply {
            outcome: Err(status),
            object: None,
        }),
        Ok(directory) => Ok(QueryReply {
            outcome: lookup_in(alloc, files, ctx, &directory, name.name.as_slice())?,
            object: Some(directory.attributes()),
        }),
    }
}
