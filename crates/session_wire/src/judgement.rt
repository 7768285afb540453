//! What a record of bytes is taken for: the tests of its header in their order, then its arguments.
ghost use Rattle.std.specs.Prelude.{◌≡◌, ◌<◌, ◌≤◌, ℕ, Ok, drop, get_or, length};
ghost use Rattle.rpc.specs.Credentials.{named};
ghost use Rattle.rpc.specs.Headers.{header_at, heading};
ghost use Rattle.session_wire.specs.Judging.{AreLast, Judges, judged, on_header, requested};

use crate::message::{Judged, Lacking};
use crate::programs::program_of;
use bytes::Bytes;
use nfs_codec::{decode_call, procedure_of};
use nfs_types::ProgramCall;
use rpc::{
    CALL, Header, NFS_VERSION, NamedCaller, RPC_VERSION, Refusal, read_credential, read_header,
    read_opening,
};
use std::alloc::Global;
use xdr::{Reader, XdrFault};

/// What a record is taken for. Its header is read without memory. For a call it may be refused: for the arguments, or for
/// the caller's groups.
pub fn judge(alloc: Global, message: &Bytes) -> Result<Judged, Lacking>
    ensures { Judges result (judged message.now) }
{
    each_fits(message);
    let mut reader = Reader::new(message.as_slice());
    let Ok(opening) = read_opening(&mut reader) else {
        return Ok(Judged::Closed);
    };
    if opening.kind != CALL {
        return Ok(Judged::Closed);
    }
    let xid = opening.xid;
    if opening.rpc_version != RPC_VERSION {
        return refused(xid, Refusal::RpcMismatch);
    }
    judge_header(alloc, xid, message, &mut reader)
}

fn refused(xid: u32, refusal: Refusal) -> Result<Judged, Lacking>
    ensures { result ≡ Ok (Judged.Refused xid refusal) }
{
    Ok(Judged::Refused { xid, refusal })
}

// What a call is taken for by the rest of its header and its arguments.
fn judge_header(
    alloc: Global,
    xid: u32,
    message: &Bytes,
    reader: &mut Reader,
) -> Result<Judged, Lacking>
    requires { AreLast message.now reader.old }
    ensures { Judges result (on_header xid (header_at reader.old)) }
{
    each_fits(message);
    let Ok(header) = read_header(reader) else {
        return Ok(Judged::Closed);
    };
    match read_credential(header.flavor, header.body) {
        Err(refusal) => refused(xid, refusal),
        Ok(caller) => {
            let from = begin(message, reader);
            judge_request(alloc, xid, &caller, header, message, from)
        }
    }
}

// Each byte of a message is below 256.
fn each_fits(message: &Bytes)
    ensures { (index : ℕ) → get_or message.now index 0 < 256 }
{
    are_bytes(message.as_slice());
}

fn are_bytes(message: &[u8])
    ensures { (index : ℕ) → get_or message.now index 0 < 256 }
{}

// Where the bytes that are left of a message begin.
fn begin(message: &Bytes, reader: &Reader) -> usize
    requires { AreLast message.now reader.now }
    ensures within { result ≤ length message.now }
    ensures is { drop result message.now ≡ reader.now }
{
    message.len() - reader.rest().len()
}

// What a call with a lawful credential is taken for, whose arguments begin there in the message.
#[tactic(auto, using(nfs_codec::proofs::CallLaws::never_memory))]
fn judge_request(
    alloc: Global,
    xid: u32,
    caller: &NamedCaller,
    header: Header,
    message: &Bytes,
    from: usize,
) -> Result<Judged, Lacking>
    requires { from ≤ length message.now }
    ensures { Judges result (requested xid (named caller.now) (heading header.entry) (drop from message.now)) }
{
    let Some(program) = program_of(header.program) else {
        return refused(xid, Refusal::ProgramUnavailable);
    };
    if header.version != NFS_VERSION {
        return refused(xid, Refusal::ProgramMismatch);
    }
    let Some(procedure) = procedure_of(program, header.procedure) else {
        return refused(xid, Refusal::ProcedureUnavailable);
    };
    match decode_call(alloc, procedure, message, from) {
        Ok(call) => called(alloc, xid, caller, call),
        Err(XdrFault::NoMemory(error)) => Err(Lacking { xid, error }),
        Err(_) => refused(xid, Refusal::GarbageArguments),
    }
}

// A call for its caller, whose groups take memory.
fn called(
    alloc: Global,
    xid: u32,
    caller: &NamedCaller,
    call: ProgramCall,
) -> Result<Judged, Lacking>
    ensures { Judges result (Judged.Call xid (named caller.now) call) }
{
    match caller.credential(alloc) {
        Ok(credential) => Ok(Judged::Call {
            xid,
            credential,
            call,
        }),
        Err(error) => Err(Lacking { xid, error }),
    }
}
