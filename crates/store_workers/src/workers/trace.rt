//! The note that is taken of a procedure with the step that commits it, and what shows that it was committed.
ghost use Rattle.std.specs.Prelude.{◌≡◌, IfOk, None, Some, false, option_map, true};
ghost use Rattle.store_workers.specs.Traces.{copied};

use super::parts::Job;
use nfs_types::Reply;
use procs::CommitWitness;
use std::alloc::AllocError;
use store_promise::Entry;

// A note of the procedure that a step commits, for a history, and what shows that it was committed. Where no note is
// wanted no copy of a reply is made.
#[derive(Drop)]
pub(crate) struct Trace {
    wanted: bool,
    pub(super) entry: Option<Entry>,
    pub(super) witness: Option<CommitWitness>,
}

impl Trace {
    // No note is wanted.
    pub(super) fn unwanted() -> Trace
        ensures { result ≡ record { wanted = false; entry = None; witness = None } }
    {
        Trace {
            wanted: false,
            entry: None,
            witness: None,
        }
    }

    // One is wanted.
    pub(super) fn wanted() -> Trace
        ensures { result ≡ record { wanted = true; entry = None; witness = None } }
    {
        Trace {
            wanted: true,
            entry: None,
            witness: None,
        }
    }

    // The copy of a reply that a note needs.
    pub(super) fn copy_of(&self, reply: &Reply) -> Result<Option<Reply>, AllocError>
        ensures { IfOk result (λ copy. copy ≡ copied self.now.wanted reply.now) }
    {
        if self.wanted {
            Ok(Some(reply.clone()?))
        } else {
            Ok(None)
        }
    }

    // The procedure of this call was committed, as the witness shows; this is the copy of its reply.
    pub(super) fn take(&mut self, job: Job, copy: Option<Reply>, witness: CommitWitness)
        ensures { self.new ≡ record self.old {
          entry = option_map (λ reply. record {
            ctx = job.ctx;
            call = job.call;
            reply = reply;
          }) copy;
          witness = Some witness;
        } }
    {
        self.entry = entry_of(job, copy);
        self.witness = Some(witness);
    }
}

// The entry of a call, with this reply.
fn entry_of(job: Job, copy: Option<Reply>) -> Option<Entry>
    ensures { result ≡ option_map (λ reply. record { ctx = job.ctx; call = job.call; reply = reply }) copy }
{
    let Job { ctx, call } = job;
    match copy {
        Some(reply) => Some(Entry { ctx, call, reply }),
        None => None,
    }
}
