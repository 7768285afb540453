//! The replies of a run, in their order.
ghost use Rattle.std.specs.Prelude.{◌≡◌, OnOk, option_map};
ghost use Rattle.std.specs.Io.KnownBytes.{Appends};
ghost use Rattle.sim.specs.Replies.{answer_line, is_before, is_called, number_of, reply_lines};

use crate::fault::SimFault;
use crate::handed::Handed;
use crate::lines::print_reply;
use rpc::Refusal;
use session_wire::{RpcReply, reply_bytes};
use std::alloc::Global;
use std::io::Write;
use store::{Answer, Run, Step, Verdict};

// The bytes of the mark before a message.
const MARK_BYTES: usize = 4;

/// Prints the replies of a run, each to the message that its worker was handed last before.
#[tactic(auto, using(crate::proofs::Replied::lines_begin, crate::proofs::Replied::lines_more, crate::proofs::Replied::lines_end))]
pub fn print_replies<W: Write>(
    alloc: Global,
    out: &mut W,
    run: &Run,
    handed: &[Handed],
) -> Result<(), SimFault>
    ensures { OnOk result (Appends (W.contents out.old) (W.contents out.new)
        (reply_lines handed.now run.now.steps.items run.now.answers.items)) }
{
    'answers: for answer in &run.answers {
        let xid = number_of(run, handed, answer);
        print_answer(alloc, out, xid, answer)?;
    }
    Ok(())
}

// The number of the message that an answer is to: the last before it that its worker took, each other having been
// handed to it while it was busy.
fn number_of(run: &Run, handed: &[Handed], answer: &Answer) -> u32
    ensures { result ≡ number_of handed.now run.now.steps.items answer.now }
{
    let mut xid = 0;
    'handed: for message in handed {
        if is_before(run, answer, message) {
            xid = message.xid;
        }
    }
    xid
}

// Whether a message was taken by the worker of an answer, before that.
fn is_before(run: &Run, answer: &Answer, message: &Handed) -> bool
    ensures { result ≡ is_before run.now.steps.items answer.now message.now }
{
    message.worker == answer.worker
        && message.event < answer.event
        && is_called(run.steps.get(message.event))
}

// Whether an event handed a call to a worker, who was idle.
fn is_called(made: Option<&Option<Step>>) -> bool
    ensures { result ≡ is_called (option_map (λ step. step.now) made.entry) }
{
    matches!(made, Some(Some(Step::Called)))
}

// Prints an answer to a message of a number.
#[tactic(auto, using(crate::proofs::Marks::mark_there, crate::proofs::Marks::behind_mark))]
fn print_answer<W: Write>(
    alloc: Global,
    out: &mut W,
    xid: u32,
    answer: &Answer,
) -> Result<(), SimFault>
    ensures { OnOk result (Appends (W.contents out.old) (W.contents out.new) (answer_line xid answer.now)) }
{
    let reply = match &answer.verdict {
        Verdict::Reply(reply) => RpcReply::Nfs(reply),
        Verdict::NoMemory(_) => RpcReply::Refused(Refusal::SystemError),
    };
    match reply_bytes(alloc, xid, reply) {
        Ok(record) => print_reply(alloc, out, answer.worker, &record[MARK_BYTES..]),
        Err(_) => Err(SimFault::NoMemory),
    }
}
