//! Replies that have no result (RFC 5531, section 9).
ghost use Rattle.std.specs.Prelude.{◌++◌, false};
ghost use Rattle.xdr.specs.Items.{word};
ghost use Rattle.rpc.specs.Refused.{accepted, denied, refused};
ghost use Rattle.xdr.specs.Writing.{WritesBytes};

use crate::{NFS_VERSION, REPLY, RPC_VERSION};
use xdr::{Writer, XdrFault};

/// Why a call isn't handed to its procedure, or has no result.
#[derive(Clone, Copy, Debug, PartialEq, Eq)]
pub enum Refusal {
    RpcMismatch,
    BadCredential,
    RejectedCredential,
    ProgramUnavailable,
    ProgramMismatch,
    ProcedureUnavailable,
    GarbageArguments,
    SystemError,
}

/// Writes the beginning of an accepted reply, up to its status.
pub fn put_accepted(out: &mut Writer, xid: u32, status: u32) -> Result<(), XdrFault>
    ensures { WritesBytes result out.old out.new (accepted xid status) false }
{
    out.unsigned(xid)?;
    out.unsigned(REPLY)?;
    put_acceptance(out, status)
}

// That it is accepted, a verifier of nobody, and its status.
fn put_acceptance(out: &mut Writer, status: u32) -> Result<(), XdrFault>
    ensures { WritesBytes result out.old out.new (word 0 ++ word 0 ++ word 0 ++ word status) false }
{
    out.unsigned(0)?;
    out.unsigned(0)?;
    out.unsigned(0)?;
    out.unsigned(status)
}

// Writes the beginning of a denied reply, up to what it was denied for.
fn put_denied(out: &mut Writer, xid: u32, reason: u32) -> Result<(), XdrFault>
    ensures { WritesBytes result out.old out.new (denied xid reason) false }
{
    out.unsigned(xid)?;
    out.unsigned(REPLY)?;
    out.unsigned(1)?;
    out.unsigned(reason)
}

/// Writes a reply that refuses.
pub fn put_refusal(out: &mut Writer, xid: u32, refusal: Refusal) -> Result<(), XdrFault>
    ensures { WritesBytes result out.old out.new (refused xid refusal) false }
{
    match refusal {
        Refusal::RpcMismatch => {
            put_denied(out, xid, 0)?;
            out.unsigned(RPC_VERSION)?;
            out.unsigned(RPC_VERSION)
        }
        Refusal::BadCredential => {
            put_denied(out, xid, 1)?;
            out.unsigned(1)
        }
        Refusal::RejectedCredential => {
            put_denied(out, xid, 1)?;
            out.unsigned(2)
        }
        Refusal::ProgramUnavailable => put_accepted(out, xid, 1),
        Refusal::ProgramMismatch => {
            put_accepted(out, xid, 2)?;
            out.unsigned(NFS_VERSION)?;
            out.unsigned(NFS_VERSION)
        }
        Refusal::ProcedureUnavailable => put_accepted(out, xid, 3),
        Refusal::GarbageArguments => put_accepted(out, xid, 4),
        Refusal::SystemError => put_accepted(out, xid, 5),
    }
}
