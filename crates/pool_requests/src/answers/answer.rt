//! An answer, with what shows that it may be given.
ghost use Rattle.std.specs.Prelude.{◌≡◌};
ghost use Rattle.session_wire.specs.Replies.{body_of};

use crate::answers::Evidence;
use crate::jobs::{Immediate, ReplyAddress};
use nfs_types::{ProgramReply, Reply};
use procs::CommitWitness;
use rpc::Refusal;
use session_wire::{ReplyBody, RpcReply, append_reply};
use std::alloc::{AllocError, Global};
use std::marker::{Model, PhantomData};
use std::snapshot::Snapshot;
use std::sync::ledger::{Ledger, Share};
use txn::Stable;
use xdr::XdrFault;

/// An answer to a record of a connection. Its type keeps that it bears the key and the numbers of what it answers, and
/// that this may be answered so: with the reply to a record that begins no transaction; with the reply of the job's own
/// procedure, which was committed, and whose place was settled where the reply has to be stable; with IO or SERVERFAULT
/// in its place; or with a system error, made of a refusal of memory. It is made of evidence alone, each piece of which is
/// used up for it. Its type names the ledger of the commits that it may rest on: that of one core.
#[derive(Drop)]
pub struct Answer<L: Ledger> {
    key: usize,
    number: u64,
    xid: u32,
    body: ReplyBody,
    evidence: Evidence,
    of: PhantomData<L>,
}

impl<L: Ledger> Model for Answer<L> {
    ghost use Rattle.pool_requests.specs.Answers.Evident.{Answered, IsEvident};

    ghost Value = { Answered };

    ghost view = { λ a. record {
      key = a.key;
      number = a.number;
      xid = a.xid;
      body = a.body;
      evidence = a.evidence;
    } };

    ghost invariant = { λ a. IsEvident (record {
      key = a.key;
      number = a.number;
      xid = a.xid;
      body = a.body;
      evidence = a.evidence;
    }) };
}

impl<L: Ledger> Answer<L> {
    ghost use Rattle.std.specs.Prelude.{◌≡◌, ◌⊎◌, ◌++◌, false, true, Option, IfErr, OnErr, OnOk, alloc_error};
    ghost use Rattle.nfs_spec.specs.Model.Calls.{begins_transaction};
    ghost use Rattle.nfs_types.specs.declared.reply.Reply.TheVariants.{Null};
    ghost use Rattle.pool_requests.specs.Answers.Evident.{IsEvident, IsSubstitute, IsOwn, IsShownStable, answer_to};
    ghost use Rattle.pool_requests.specs.Answers.Evident.{with_reply};
    ghost use Rattle.pool_requests.specs.Answers.Written.{spelled};
    ghost use Rattle.pool_requests.specs.declared.answers.evidence.Evidence.TheVariants as evidence;
    ghost use Rattle.rpc.specs.declared.refusal.Refusal.TheVariants.{SystemError};
    ghost use Rattle.session_wire.specs.Replies.{IsTooLong};
    ghost use Rattle.session_wire.specs.declared.message.ReplyBody.TheVariants as body;
    ghost use Rattle.xdr.specs.declared.fault.XdrFault.TheVariants.{Length, NoMemory};

    /// The reply to a record that begins no transaction.
    pub fn immediate(replied: Immediate) -> Answer<L>
        ensures bears { (result.key ≡ replied.key) × (result.number ≡ replied.number) × (result.xid ≡ replied.xid) }
        ensures body { result.body ≡ replied.body }
    {
        replied.replies();
        let evidence = Evidence::Immediate(Snapshot::of(&replied));
        let (key, number) = replied.goes_to();
        let xid = replied.xid();
        Answer {
            key,
            number,
            xid,
            body: replied.into_body(),
            evidence,
            of: PhantomData,
        }
    }

    /// The reply of a job's own procedure, which was committed. Who makes it has a share of the ledger of commits, which is
    /// at hand only where a seat of its core steps.
    pub fn of_change(
        reply_address: ReplyAddress,
        witness: CommitWitness,
        stable: Option<Stable>,
        reply: Reply,
        share: &Share<L>,
    ) -> Answer<L>
        requires own { IsOwn reply_address witness.change }
        requires reply { reply ≡ witness.change.reply }
        requires stable { IsShownStable reply_address witness stable }
        ensures { result ≡ answer_to reply_address.job (with_reply reply) (evidence.Committed reply_address witness stable) }
    {
        let _ = share;
        witness.finished();
        let (key, number) = reply_address.goes_to();
        Answer {
            key,
            number,
            xid: reply_address.xid(),
            body: ReplyBody::Done(ProgramReply::Nfs(reply)),
            evidence: Evidence::Committed(reply_address, witness, stable),
            of: PhantomData,
        }
    }

    /// IO or SERVERFAULT in the place of a reply. Who makes it has a share of the ledger of commits, as above.
    pub fn substitute(reply_address: ReplyAddress, body: ReplyBody, share: &Share<L>) -> Answer<L>
        requires { IsSubstitute reply_address.job.call body }
        ensures { result ≡ answer_to reply_address.job body (evidence.Substitute reply_address) }
    {
        let _ = share;
        let (key, number) = reply_address.goes_to();
        Answer {
            key,
            number,
            xid: reply_address.xid(),
            body,
            evidence: Evidence::Substitute(reply_address),
            of: PhantomData,
        }
    }

    /// A system error, as memory was refused to the job. Who makes it has a share of the ledger of commits, as above.
    pub fn lacking(reply_address: ReplyAddress, error: AllocError, share: &Share<L>) -> Answer<L>
        ensures { result ≡ answer_to reply_address.job (body.Refused SystemError) (evidence.Lacking reply_address error) }
    {
        let _ = share;
        let (key, number) = reply_address.goes_to();
        Answer {
            key,
            number,
            xid: reply_address.xid(),
            body: ReplyBody::Refused(Refusal::SystemError),
            evidence: Evidence::Lacking(reply_address, error),
            of: PhantomData,
        }
    }

    /// To a job whose call begins no transaction. Who makes it has a share of the ledger of commits, as above.
    pub fn of_nothing(reply_address: ReplyAddress, share: &Share<L>) -> Answer<L>
        requires { begins_transaction reply_address.job.call ≡ false }
        ensures { result ≡ answer_to reply_address.job (with_reply Null) (evidence.Nothing reply_address) }
    {
        let _ = share;
        let (key, number) = reply_address.goes_to();
        Answer {
            key,
            number,
            xid: reply_address.xid(),
            body: ReplyBody::Done(ProgramReply::Nfs(Reply::Null)),
            evidence: Evidence::Nothing(reply_address),
            of: PhantomData,
        }
    }

    /// It may be given.
    pub fn evident(&self)
        ensures { IsEvident self.now }
    {
        let _ = &self.evidence;
    }

    /// The key and the number of the connection that it is for.
    pub fn goes_to(&self) -> (usize, u64)
        ensures { result ≡ (self.now.key, self.now.number) }
    {
        (self.key, self.number)
    }

    /// Puts the answer behind other bytes, as a record of one fragment. One that has a length of 2^32 or more in it, or
    /// 2^31 bytes in all, is `Length`; where memory is refused it is `NoMemory`. Where it fails nothing changes.
    pub(crate) fn append_to(&self, alloc: Global, out: &mut Vec<u8>) -> Result<(), XdrFault>
        ensures ok { OnOk result (out.new.items ≡ out.old.items ++ spelled self.now) }
        ensures err { IfErr result (λ e. ((e ≡ Length) × IsTooLong self.now.xid self.now.body) ⊎ (e ≡ NoMemory alloc_error)) }
        ensures refused { OnErr result (out.new.items ≡ out.old.items) }
    {
        append_reply(alloc, out, self.xid, reply_of(&self.body))
    }
}

// A body as a reply.
fn reply_of(body: &ReplyBody) -> RpcReply<'_>
    ensures { body_of result ≡ body.now }
{
    match body {
        ReplyBody::Done(ProgramReply::Nfs(reply)) => RpcReply::Nfs(reply),
        ReplyBody::Done(ProgramReply::Mount(reply)) => RpcReply::Mount(reply),
        ReplyBody::Refused(refusal) => RpcReply::Refused(*refusal),
    }
}
