//! ACCESS (RFC 1813, section 3.3.4).
ghost use Rattle.std.specs.Prelude.{◌≡◌, ◌≤◌, IfErr, IfOk};
ghost use Rattle.nfs_spec.specs.Model.Tree.{Tree};
ghost use Rattle.nfs_spec.specs.Procedures.Access.{AccessStep, bit_where, rights_on};
ghost use Rattle.procs_files.specs.Heads.{bare};

use base::{EXECUTE_RIGHT, READ_RIGHT, WRITE_RIGHT};
use nfs_spec::{
    ACCESS_DELETE, ACCESS_EXECUTE, ACCESS_EXTEND, ACCESS_LOOKUP, ACCESS_MODIFY, ACCESS_READ,
};
use nfs_types::{Credential, Ctx, FileKind, Handle};
use procs_files::{Files, InodeAttributes, QueryReply, find, has_right};

fn bit_where(may: bool, bit: u32) -> u32
    ensures is { result ≡ bit_where may bit }
    ensures small { result ≤ bit }
{
    if may { bit } else { 0 }
}

fn rights_on(caller: &Credential, inode_attributes: &InodeAttributes) -> u32
    ensures { result ≡ rights_on caller.now (bare inode_attributes.now) }
{
    let is_directory = matches!(inode_attributes.kind, FileKind::Directory);
    let reads = has_right(READ_RIGHT, caller, inode_attributes);
    let writes = has_right(WRITE_RIGHT, caller, inode_attributes);
    let executes = has_right(EXECUTE_RIGHT, caller, inode_attributes);
    bit_where(reads, ACCESS_READ)
        + bit_where(executes && is_directory, ACCESS_LOOKUP)
        + bit_where(writes, ACCESS_MODIFY)
        + bit_where(writes, ACCESS_EXTEND)
        + bit_where(writes && is_directory, ACCESS_DELETE)
        + bit_where(executes && !is_directory, ACCESS_EXECUTE)
}

/// What of the bits that are asked for the caller may do.
pub fn access<F: Files>(
    files: &F,
    ctx: &Ctx,
    object: &Handle,
    bits: u32,
) -> Result<QueryReply<u32>, F::Suspend>
    ensures err { IfErr result (λ suspend. F.may_suspend (F.source files.now) suspend) }
    ensures resumable { IfErr result (λ suspend. (world : F.World) (tree : Tree) → F.stands files.now world tree
        → F.is_resumable suspend) }
    ensures ok { IfOk result (λ query_reply. (world : F.World) (tree : Tree) → F.stands files.now world tree → AccessStep
        tree ctx.now object.now.bytes bits query_reply.outcome query_reply.object tree) }
{
    match find(files, object)? {
        Err(status) => Ok(QueryReply {
            outcome: Err(status),
            object: None,
        }),
        Ok(inode_attributes) => Ok(QueryReply {
            outcome: Ok(bits & rights_on(&ctx.credential, &inode_attributes)),
            object: Some(inode_attributes.attributes()),
        }),
    }
}
