//! A message that a script hands to a worker.
ghost use Rattle.sim_words.specs.Messages.{message_of, message_with};
ghost use Rattle.sim_words.specs.Reading.{Gives};

use crate::fault::LineFault;
use base::RECORD_BYTES;
use bytes::Bytes;
use nfs_types::{Call, Credential, ProgramCall};
use session_wire::{Judged, judge};
use std::alloc::Global;

/// A call of a procedure of NFS.
#[derive(Drop)]
pub struct Message {
    pub xid: u32,
    pub credential: Credential,
    pub call: Call,
}

/// The call that these bytes spell.
#[tactic(auto, using(crate::proofs::Messages::refused, crate::proofs::Messages::closed))]
pub fn message_of(alloc: Global, bytes: &Bytes) -> Result<Message, LineFault>
    ensures { Gives (λ message. message) result (message_of bytes.now) }
{
    if bytes.len() > RECORD_BYTES {
        return Err(LineFault::Bad);
    }
    match judge(alloc, bytes) {
        Err(_) => Err(LineFault::NoMemory),
        Ok(Judged::Closed) => Err(LineFault::Bad),
        Ok(Judged::Refused { .. }) => Err(LineFault::Bad),
        Ok(
            Judged::Call {
                xid,
                credential,
                call,
            },
        ) => message_with(xid, credential, call),
    }
}

// A call of NFS as a message; one of MOUNT is bad.
fn message_with(xid: u32, credential: Credential, call: ProgramCall) -> Result<Message, LineFault>
    ensures { Gives (λ message. message) result (message_with xid credential call) }
{
    match call {
        ProgramCall::Nfs(call) => Ok(Message {
            xid,
            credential,
            call,
        }),
        ProgramCall::Mount(_) => Err(LineFault::Bad),
    }
}
