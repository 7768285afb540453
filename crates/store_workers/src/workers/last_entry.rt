//! The procedure that a worker's last step committed. With it, what was committed can be told from a worker's
//! state.
ghost use Rattle.std.specs.Prelude.{◌≡◌, Some, None};

use super::parts::Job;
use nfs_types::Reply;
use std::marker::Model;
use std::snapshot::Snapshot;

// The call that was committed, if one was, and its reply. They serve proofs alone, and take no memory.
#[derive(Drop)]
pub(crate) struct LastEntry {
    committed: Option<(Snapshot<Job>, Snapshot<Reply>)>,
}

impl Model for LastEntry {
    ghost use Rattle.std.specs.Prelude.{Option, option_map};
    ghost use Rattle.store_promise.specs.declared.answers.Entry.{Entry};

    ghost Value = { Option Entry };

    ghost view = { λ last. option_map (λ committed. record {
      ctx = committed.0.value.ctx;
      call = committed.0.value.call;
      reply = committed.1.value;
    }) last.committed };
}

impl LastEntry {
    // No procedure was committed.
    pub(super) fn none() -> LastEntry
        ensures { result ≡ None }
    {
        LastEntry { committed: None }
    }

    // That of this call was committed, with this reply.
    pub(super) fn of(job: &Job, reply: &Reply) -> LastEntry
        ensures { result ≡ Some (record { ctx = job.now.ctx; call = job.now.call; reply = reply.now }) }
    {
        LastEntry {
            committed: Some((Snapshot::of(job), Snapshot::of(reply))),
        }
    }
}
