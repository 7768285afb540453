//! READ (RFC 1813, section 3.3.6).
ghost use Rattle.std.specs.Prelude.{◌≡◌, ◌≤◌, IfErr, IfOk, length};
ghost use Rattle.base.specs.declared.TheConstants.{TRANSFER_BYTES};
ghost use Rattle.nfs_spec.specs.Model.Node.{Body};
ghost use Rattle.nfs_spec.specs.Model.Tree.{Tree};
ghost use Rattle.nfs_spec.specs.Procedures.Read.{ReadStep, may_read_file, read, read_refusal};
ghost use Rattle.procs_files.specs.Heads.{IsFileIn, bare, node_of};
ghost use Rattle.procs_queries.specs.Queries.Given.{bytes_given};

use base::{EXECUTE_RIGHT, READ_RIGHT, TRANSFER_BYTES};
use nfs_types::{Credential, Ctx, FileKind, Handle, Pieces, ReadBytes, Status};
use procs_files::{Files, InodeAttributes, QueryReply, find, has_right};
use std::alloc::Global;

fn may_read_file(caller: &Credential, inode_attributes: &InodeAttributes) -> bool
    ensures { result ≡ may_read_file caller.now (bare inode_attributes.now) }
{
    has_right(READ_RIGHT, caller, inode_attributes)
        || has_right(EXECUTE_RIGHT, caller, inode_attributes)
        || caller.uid == inode_attributes.uid
}

fn read_refusal(caller: &Credential, inode_attributes: &InodeAttributes) -> Option<Status>
    ensures { result ≡ read_refusal caller.now (bare inode_attributes.now) }
{
    if !matches!(inode_attributes.kind, FileKind::Regular) {
        Some(Status::Inval)
    } else if !may_read_file(caller, inode_attributes) {
        Some(Status::Acces)
    } else {
        None
    }
}

// The bytes that are given, no more than one call moves, and whether a file of this size ends with them.
fn read_bytes(size: u64, offset: u64, given: Pieces) -> ReadBytes
    ensures { length given ≤ TRANSFER_BYTES → result ≡ bytes_given size offset given }
{
    let count = given.len().min(TRANSFER_BYTES as usize) as u32;
    ReadBytes {
        count,
        eof: size as u128 <= offset as u128 + count as u128,
        bytes: given,
    }
}

fn read_file<F: Files>(
    alloc: Global,
    files: &F,
    caller: &Credential,
    inode_attributes: &InodeAttributes,
    offset: u64,
    count: u32,
) -> Result<Result<ReadBytes, Status>, F::Suspend>
    ensures err { IfErr result (λ suspend. F.may_suspend (F.source files.now) suspend) }
    ensures resumable { IfErr result (λ suspend. (world : F.World) (tree : Tree) → F.stands files.now world tree
        → F.is_resumable suspend) }
    ensures ok { IfOk result (λ r. (world : F.World) (tree : Tree) (body : Body) → F.stands files.now world tree
        → IsFileIn tree inode_attributes.now body
        → r ≡ read caller.now offset count inode_attributes.now.number (node_of inode_attributes.now body)) }
{
    match read_refusal(caller, inode_attributes) {
        Some(status) => Ok(Err(status)),
        None => {
            let given = files.bytes(alloc, inode_attributes, offset, count)?;
            Ok(Ok(read_bytes(inode_attributes.size, offset, given)))
        }
    }
}

/// A piece of a regular file.
pub fn read<F: Files>(
    alloc: Global,
    files: &F,
    ctx: &Ctx,
    file: &Handle,
    offset: u64,
    count: u32,
) -> Result<QueryReply<ReadBytes>, F::Suspend>
    ensures err { IfErr result (λ suspend. F.may_suspend (F.source files.now) suspend) }
    ensures resumable { IfErr result (λ suspend. (world : F.World) (tree : Tree) → F.stands files.now world tree
        → F.is_resumable suspend) }
    ensures ok { IfOk result (λ query_reply. (world : F.World) (tree : Tree) → F.stands files.now world tree → ReadStep
        tree ctx.now file.now.bytes offset count query_reply.outcome query_reply.object tree) }
{
    match find(files, file)? {
        Err(status) => Ok(QueryReply {
            outcome: Err(status),
            object: None,
        }),
        Ok(inode_attributes) => Ok(QueryReply {
            outcome: read_file(
                alloc,
                files,
                &ctx.credential,
                &inode_attributes,
                offset,
                count,
            )?,
            object: Some(inode_attributes.attributes()),
        }),
    }
}
