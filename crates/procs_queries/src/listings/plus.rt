//! READDIRPLUS (RFC 1813, section 3.3.17).
ghost use Rattle.std.specs.Prelude.{◌≡◌, ◌<◌, ◌^◌, ◌++◌, ◌∷◌, [], IfErr, IfOk, OnOk, All, map, None, Some};
ghost use Rattle.nfs_spec.specs.Model.Node.{Body};
ghost use Rattle.nfs_spec.specs.Model.Tree.{Tree};
ghost use Rattle.nfs_spec.specs.Procedures.ReadDirPlus.{ReadDirPlusStep, list_plus, plus};
ghost use Rattle.procs_files.specs.Heads.{IsBodyOf, IsFileIn, node_of};
ghost use Rattle.procs_queries.specs.Listings.Plus.{listed_plus_of, listed_with_attributes};

use crate::listings::gathered::Gathering;
use crate::listings::listed_names::gathered;
use crate::listings::refusals::{early_refusal, listing_budget, listing_verifier};
use base::LISTED_ITEM_PLUS_BYTES;
use nfs_types::{
    Credential, Ctx, Handle, ListedEntriesPlus, ListedItem, ListedItemPlus, ListedPlus, Status,
    Verifier,
};
use procs_files::{Files, InodeAttributes, QueryReply, find};
use std::alloc::{AllocError, Global};

// An entry with what is told of the file that it names.
fn with_inode_attributes(
    alloc: Global,
    listed_item: &ListedItem,
    inode_attributes: &InodeAttributes,
) -> Result<ListedItemPlus, AllocError>
    ensures { IfOk result (λ r. (body : Body) → IsBodyOf inode_attributes.now body → inode_attributes.now.number ≡ listed_item.now.number
        → r ≡ listed_with_attributes listed_item.now (Some (node_of inode_attributes.now body))) }
{
    Ok(ListedItemPlus {
        number: listed_item.number,
        name: listed_item.name.clone()?,
        cookie: listed_item.cookie,
        attributes: Some(inode_attributes.attributes()),
        handle: Some(Handle::of(alloc, inode_attributes.number, inode_attributes.stamp)?),
    })
}

// An entry that names no file.
fn name_only(listed_item: &ListedItem) -> Result<ListedItemPlus, AllocError>
    ensures { IfOk result (λ r. r ≡ listed_with_attributes listed_item.now None) }
{
    Ok(ListedItemPlus {
        number: listed_item.number,
        name: listed_item.name.clone()?,
        cookie: listed_item.cookie,
        attributes: None,
        handle: None,
    })
}

fn plus<F: Files>(
    alloc: Global,
    files: &F,
    listed_item: &ListedItem,
) -> Result<ListedItemPlus, F::Suspend>
    requires { listed_item.now.number < 2 ^ 32 }
    ensures err { IfErr result (λ suspend. F.may_suspend (F.source files.now) suspend) }
    ensures resumable { IfErr result (λ suspend. (world : F.World) (tree : Tree) → F.stands files.now world tree
        → F.is_resumable suspend) }
    ensures ok { IfOk result (λ r. (world : F.World) (tree : Tree) → F.stands files.now world tree
        → r ≡ plus tree listed_item.now) }
{
    match files.file(listed_item.number as u32)? {
        Some(inode_attributes) => Ok(with_inode_attributes(alloc, listed_item, &inode_attributes)?),
        None => Ok(name_only(listed_item)?),
    }
}

fn push(all: &mut Vec<ListedItemPlus>, listed_item: ListedItemPlus) -> Result<(), AllocError>
    ensures { OnOk result (all.new.items ≡ all.old.items ++ listed_item ∷ []) }
{
    all.push(listed_item)?;
    Ok(())
}

fn with_files<F: Files>(
    alloc: Global,
    files: &F,
    entries: &[ListedItem],
) -> Result<Vec<ListedItemPlus>, F::Suspend>
    requires { All (λ listed_item. listed_item.number < 2 ^ 32) entries.now }
    ensures err { IfErr result (λ suspend. F.may_suspend (F.source files.now) suspend) }
    ensures resumable { IfErr result (λ suspend. (world : F.World) (tree : Tree) → F.stands files.now world tree
        → F.is_resumable suspend) }
    ensures ok { IfOk result (λ all. (world : F.World) (tree : Tree) → F.stands files.now world tree
        → all.items ≡ map (plus tree) entries.now) }
{
    let mut all = Vec::new(alloc);
    'entries: for listed_item in entries {
        let query_reply = plus(alloc, files, listed_item)?;
        push(&mut all, query_reply)?;
    }
    Ok(all)
}

fn listed_plus<F: Files>(
    alloc: Global,
    files: &F,
    gathering: &Gathering,
) -> Result<Result<ListedPlus, Status>, F::Suspend>
    ensures err { IfErr result (λ suspend. F.may_suspend (F.source files.now) suspend) }
    ensures resumable { IfErr result (λ suspend. (world : F.World) (tree : Tree) → F.stands files.now world tree
        → F.is_resumable suspend) }
    ensures ok { IfOk result (λ r. (world : F.World) (tree : Tree) → F.stands files.now world tree
        → r ≡ listed_plus_of tree gathering.now) }
{
    if gathering.has_no_first() {
        return Ok(Err(Status::TooSmall));
    }
    let all = with_files(alloc, files, gathering.entries())?;
    Ok(Ok(ListedPlus {
        verifier: listing_verifier(),
        entries: ListedEntriesPlus::new(all),
        eof: !gathering.is_full(),
    }))
}

fn list_plus<F: Files>(
    alloc: Global,
    files: &F,
    caller: &Credential,
    cookie: u64,
    verifier: &Verifier,
    names_count: u32,
    count: u32,
    directory: &InodeAttributes,
) -> Result<Result<ListedPlus, Status>, F::Suspend>
    ensures err { IfErr result (λ suspend. F.may_suspend (F.source files.now) suspend) }
    ensures resumable { IfErr result (λ suspend. (world : F.World) (tree : Tree) → F.stands files.now world tree
        → F.is_resumable suspend) }
    ensures ok { IfOk result (λ r. (world : F.World) (tree : Tree) (body : Body) → F.stands files.now world tree
        → IsFileIn tree directory.now body → r ≡ list_plus tree caller.now cookie verifier.now names_count count
        directory.now.number (node_of directory.now body)) }
{
    if let Some(status) = early_refusal(caller, cookie, verifier, count, directory) {
        return Ok(Err(status));
    }
    let budget = listing_budget(count);
    let gathering = gathered(
        alloc,
        files,
        directory,
        LISTED_ITEM_PLUS_BYTES,
        names_count,
        budget,
        cookie,
    )?;
    listed_plus(alloc, files, &gathering)
}

/// The names of a directory behind a cookie, as many as fit, with attributes and handles.
pub fn read_directory_plus<F: Files>(
    alloc: Global,
    files: &F,
    ctx: &Ctx,
    directory: &Handle,
    cookie: u64,
    verifier: &Verifier,
    names_count: u32,
    count: u32,
) -> Result<QueryReply<ListedPlus>, F::Suspend>
    ensures err { IfErr result (λ suspend. F.may_suspend (F.source files.now) suspend) }
    ensures resumable { IfErr result (λ suspend. (world : F.World) (tree : Tree) → F.stands files.now world tree
        → F.is_resumable suspend) }
    ensures ok { IfOk result (λ query_reply. (world : F.World) (tree : Tree) → F.stands files.now world tree
        → ReadDirPlusStep tree ctx.now directory.now.bytes cookie verifier.now names_count count query_reply.outcome
        query_reply.object tree) }
{
    match find(files, directory)? {
        Err(status) => Ok(QueryReply {
            outcome: Err(status),
            object: None,
        }),
        Ok(inode_attributes) => Ok(QueryReply {
            outcome: list_plus(
                alloc,
                files,
                &ctx.credential,
                cookie,
                verifier,
                names_count,
                count,
                &inode_attributes,
            )?,
            object: Some(inode_attributes.attributes()),
        }),
    }
}
