//! READDIR (RFC 1813, section 3.3.16).
ghost use Rattle.std.specs.Prelude.{◌≡◌, IfErr, IfOk};
ghost use Rattle.nfs_spec.specs.Model.Node.{Body};
ghost use Rattle.nfs_spec.specs.Model.Tree.{Tree};
ghost use Rattle.nfs_spec.specs.Procedures.ReadDir.{ReadDirStep, list};
ghost use Rattle.procs_files.specs.Heads.{IsFileIn, node_of};
ghost use Rattle.procs_queries.specs.Listings.Tests.{listed_of};

use crate::listings::gathered::Gathering;
use crate::listings::listed_names::gathered;
use crate::listings::refusals::{early_refusal, listing_budget, listing_verifier};
use base::LISTED_ITEM_BYTES;
use nfs_types::{Credential, Ctx, Handle, Listed, ListedEntries, Status, Verifier};
use procs_files::{Files, InodeAttributes, QueryReply, find};
use std::alloc::Global;

fn listed(gathering: Gathering) -> Result<Listed, Status>
    ensures { result ≡ listed_of gathering }
{
    if gathering.has_no_first() {
        return Err(Status::TooSmall);
    }
    let eof = !gathering.is_full();
    Ok(Listed {
        verifier: listing_verifier(),
        entries: ListedEntries::new(gathering.into_entries()),
        eof,
    })
}

fn list<F: Files>(
    alloc: Global,
    files: &F,
    caller: &Credential,
    cookie: u64,
    verifier: &Verifier,
    count: u32,
    directory: &InodeAttributes,
) -> Result<Result<Listed, Status>, F::Suspend>
    ensures err { IfErr result (λ suspend. F.may_suspend (F.source files.now) suspend) }
    ensures resumable { IfErr result (λ suspend. (world : F.World) (tree : Tree) → F.stands files.now world tree
        → F.is_resumable suspend) }
    ensures ok { IfOk result (λ r. (world : F.World) (tree : Tree) (body : Body) → F.stands files.now world tree
        → IsFileIn tree directory.now body
        → r ≡ list caller.now cookie verifier.now count directory.now.number (node_of directory.now body)) }
{
    if let Some(status) = early_refusal(caller, cookie, verifier, count, directory) {
        return Ok(Err(status));
    }
    let budget = listing_budget(count);
    let gathering = gathered(
        alloc,
        files,
        directory,
        LISTED_ITEM_BYTES,
        budget,
        budget,
        cookie,
    )?;
    Ok(listed(gathering))
}

/// The names of a directory behind a cookie, as many as fit.
pub fn read_directory<F: Files>(
    alloc: Global,
    files: &F,
    ctx: &Ctx,
    directory: &Handle,
    cookie: u64,
    verifier: &Verifier,
    count: u32,
) -> Result<QueryReply<Listed>, F::Suspend>
    ensures err { IfErr result (λ suspend. F.may_suspend (F.source files.now) suspend) }
    ensures resumable { IfErr result (λ suspend. (world : F.World) (tree : Tree) → F.stands files.now world tree
        → F.is_resumable suspend) }
    ensures ok { IfOk result (λ query_reply. (world : F.World) (tree : Tree) → F.stands files.now world tree → ReadDirStep
        tree ctx.now directory.now.bytes cookie verifier.now count query_reply.outcome query_reply.object tree) }
{
    match find(files, directory)? {
        Err(status) => Ok(QueryReply {
            outcome: Err(status),
            object: None,
        }),
        Ok(inode_attributes) => Ok(QueryReply {
            outcome: list(
                alloc,
                files,
                &ctx.credential,
                cookie,
                verifier,
                count,
                &inode_attributes,
            )?,
            object: Some(inode_attributes.attributes()),
        }),
    }
}
