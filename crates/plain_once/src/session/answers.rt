//! Answering one record.
ghost use Rattle.std.specs.Prelude.{◌≡◌, ◌<◌, ◌^◌, ℕ, List, Ok, None, false, IfOk, IfSome, OnErr, get_or};
ghost use Rattle.nfs_types.specs.Fits.{CallFits, ProgramCallFits};
ghost use Rattle.plain_once.specs.Session.Answering.{Closes, IsMessageAnswered, IsCallAnswered, IsNfsReply, IsReply};
ghost use Rattle.plain_once.specs.Session.Answering.{IsStep, IsReplyRecord, IsUndone, files_of, next_files};
ghost use Rattle.plain_once.specs.Session.Answering.{at_second, refusal_record, risen};
ghost use Rattle.plain_steps.specs.Computed.{is_null as is_null_call};
ghost use Rattle.session_wire.specs.Replies.{body_of};
ghost use Rattle.session_wire.specs.declared.message.ReplyBody.TheVariants as body;

use crate::session::mounted::mount;
use bytes::Bytes;
use nfs_types::{Call, Credential, Ctx, Moment, ProgramCall, ProgramReply, Reply};
use plain_steps::answer;
use plain_tree::PlainTree;
use rpc::Refusal;
use session_wire::{Judged, RpcReply, judge, reply_bytes};
use std::alloc::{AllocError, Global};
use xdr::XdrFault;

/// When calls come: at which second the first one that takes a number, and by how many seconds each is later
/// than the one before.
#[derive(Clone, Copy, Debug, PartialEq, Eq)]
pub struct FakeClock {
    pub second: u32,
    pub rise: u32,
}

impl FakeClock {
    /// The moment of the next call.
    fn moment(&self) -> Moment
        ensures { result ≡ at_second self.now.second }
    {
        Moment {
            seconds: self.second,
            nanoseconds: 0,
        }
    }

    /// The pace behind the next call. It stays at the last second that can be told.
    fn risen(&self) -> FakeClock
        ensures { result ≡ risen self.now }
    {
        FakeClock {
            second: self.second.saturating_add(self.rise),
            rise: self.rise,
        }
    }
}

/// The files, when calls come, and how many of them took a number.
#[derive(Drop)]
pub struct PlainFiles {
    pub tree: PlainTree,
    pub fake_clock: FakeClock,
    pub transactions: u64,
}

/// The record of the reply to the message of a record, or None where the connection closes. An error is an
/// allocation that failed: the message has its answer, which is lost.
pub fn answer_record(
    alloc: Global,
    files: &mut PlainFiles,
    message: &Bytes,
) -> Result<Option<Vec<u8>>, AllocError>
    ensures closes { Closes message.now → result ≡ Ok None }
    ensures closed { result ≡ Ok None → Closes message.now × (files_of files.new ≡ files_of files.old) }
    ensures answered { IfOk result (λ response. IfSome response (λ reply. IsMessageAnswered (files_of files.old) message.now
        reply.items (files_of files.new))) }
    ensures lost { OnErr result ((bytes : List ℕ) × IsMessageAnswered (files_of files.old) message.now bytes
        (files_of files.new)) }
{
    are_bytes(message.as_slice());
    match judge(alloc, message) {
        Err(lacking) => Ok(Some(refused(alloc, lacking.xid, Refusal::SystemError)?)),
        Ok(Judged::Closed) => Ok(None),
        Ok(Judged::Refused { xid, refusal }) => Ok(Some(refused(alloc, xid, refusal)?)),
        Ok(
            Judged::Call {
                xid,
                credential,
                call,
            },
        ) => Ok(Some(answer_call(alloc, files, xid, credential, &call)?)),
    }
}

// Each byte of a message is below 256.
fn are_bytes(message: &[u8])
    ensures { (index : ℕ) → get_or message.now index 0 < 256 }
{}

// The record of the reply to a call. Where memory fails before it is done, that is told.
fn answer_call(
    alloc: Global,
    files: &mut PlainFiles,
    xid: u32,
    credential: Credential,
    call: &ProgramCall,
) -> Result<Vec<u8>, AllocError>
    requires uid { credential.uid < 2 ^ 32 }
    requires gid { credential.gid < 2 ^ 32 }
    requires fits { ProgramCallFits call.now }
    ensures ok { IfOk result (λ whole. IsCallAnswered (files_of files.old) xid credential call.now
        whole.items (files_of files.new)) }
    ensures lost { OnErr result ((bytes : List ℕ) × IsCallAnswered (files_of files.old) xid credential
        call.now bytes (files_of files.new)) }
{
    match reply_to(alloc, files, credential, call) {
        Ok(reply) => tell(alloc, xid, &reply),
        Err(_) => refused(alloc, xid, Refusal::SystemError),
    }
}

// The record that tells a result. Where it is too long for one, that the system failed is told. The call is done
// by now, so where memory fails nothing is told.
fn tell(alloc: Global, xid: u32, reply: &ProgramReply) -> Result<Vec<u8>, AllocError>
    ensures { IfOk result (λ whole. IsReplyRecord xid reply.now whole.items) }
{
    match reply_bytes(alloc, xid, response(reply)) {
        Ok(record) => Ok(record),
        Err(XdrFault::Length) => refused(alloc, xid, Refusal::SystemError),
        Err(XdrFault::NoMemory(error)) => Err(error),
        Err(_) => unreachable!(),
    }
}

// A result as what a call is answered.
fn response(reply: &ProgramReply) -> RpcReply<'_>
    ensures { body_of result ≡ body.Done reply.now }
{
    match reply {
        ProgramReply::Nfs(reply) => RpcReply::Nfs(reply),
        ProgramReply::Mount(reply) => RpcReply::Mount(reply),
    }
}

// The record that refuses a call. It is short, so what fails is an allocation.
#[tactic(auto, using(session_wire::proofs::ShortRefusals::not_long_refusal))]
fn refused(alloc: Global, xid: u32, refusal: Refusal) -> Result<Vec<u8>, AllocError>
    ensures { IfOk result (λ whole. whole.items ≡ refusal_record xid refusal) }
{
    match reply_bytes(alloc, xid, RpcReply::Refused(refusal)) {
        Ok(record) => Ok(record),
        Err(XdrFault::NoMemory(error)) => Err(error),
        Err(_) => unreachable!(),
    }
}

// The reply to a call.
fn reply_to(
    alloc: Global,
    files: &mut PlainFiles,
    credential: Credential,
    call: &ProgramCall,
) -> Result<ProgramReply, AllocError>
    requires uid { credential.uid < 2 ^ 32 }
    requires gid { credential.gid < 2 ^ 32 }
    requires fits { ProgramCallFits call.now }
    ensures ok { IfOk result (λ reply. IsReply (files_of files.old) credential call.now reply
        (files_of files.new)) }
    ensures err { OnErr result (IsUndone (files_of files.old) call.now (files_of files.new)) }
{
    match call {
        ProgramCall::Mount(call) => Ok(ProgramReply::Mount(mount(alloc, call)?)),
        ProgramCall::Nfs(call) => Ok(ProgramReply::Nfs(nfs_reply(alloc, files, credential, call)?)),
    }
}

// The reply to a call of NFS.
fn nfs_reply(
    alloc: Global,
    files: &mut PlainFiles,
    credential: Credential,
    call: &Call,
) -> Result<Reply, AllocError>
    requires uid { credential.uid < 2 ^ 32 }
    requires gid { credential.gid < 2 ^ 32 }
    requires fits { CallFits call.now }
    ensures ok { IfOk result (λ reply. IsNfsReply (files_of files.old) credential call.now reply
        (files_of files.new)) }
    ensures err { OnErr result ((is_null_call call.now ≡ false)
        × (files_of files.new ≡ next_files (files_of files.old) (files_of files.old).tree)) }
{
    if is_null(call) {
        Ok(Reply::Null)
    } else {
        step(alloc, files, credential, call)
    }
}

fn is_null(call: &Call) -> bool
    ensures { result ≡ is_null_call call.now }
{
    matches!(call, Call::Null)
}

// One step of the plain server, with the next number, in the first boot.
fn step(
    alloc: Global,
    files: &mut PlainFiles,
    credential: Credential,
    call: &Call,
) -> Result<Reply, AllocError>
    requires asks { is_null_call call.now ≡ false }
    requires uid { credential.uid < 2 ^ 32 }
    requires gid { credential.gid < 2 ^ 32 }
    requires fits { CallFits call.now }
    ensures ok { IfOk result (λ reply. IsStep (files_of files.old) credential call.now reply
        (files_of files.new)) }
    ensures err { OnErr result (files_of files.new
        ≡ next_files (files_of files.old) (files_of files.old).tree) }
{
    files.transactions = files.transactions.saturating_add(1);
    let ctx = Ctx {
        credential,
        moment: files.fake_clock.moment(),
        boot: 1,
        transaction: files.transactions,
    };
    files.fake_clock = files.fake_clock.risen();
    match answer(alloc, &mut files.tree, &ctx, call)? {
        Some(reply) => Ok(reply),
        None => unreachable!(),
    }
}
