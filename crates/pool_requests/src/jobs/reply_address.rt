//! Where the answer to a job goes.

use crate::jobs::Job;
use nfs_types::Moment;
use std::marker::Model;
use std::snapshot::Snapshot;

/// Where the answer to a job goes: there is one of a job, which its answer uses up. The job and the moment at which it
/// was taken up are kept for proofs alone.
#[derive(Drop)]
pub struct ReplyAddress {
    pub(crate) key: usize,
    pub(crate) number: u64,
    pub(crate) xid: u32,
    pub(crate) job: Snapshot<Job>,
    pub(crate) moment: Snapshot<Moment>,
}

impl Model for ReplyAddress {
    ghost use Rattle.pool_requests.specs.Jobs.Sent.{Sent, IsAddressed};

    ghost Value = { Sent };

    ghost view = { λ t. record { job = t.job.value; moment = t.moment.value } };

    ghost invariant = { λ t. IsAddressed t.job.value t.key t.number t.xid };
}

impl ReplyAddress {
    ghost use Rattle.std.specs.Prelude.{◌≡◌};

    /// The key and the number of the job's connection.
    pub fn goes_to(&self) -> (usize, u64)
        ensures { result ≡ (self.now.job.key, self.now.job.number) }
    {
        (self.key, self.number)
    }

    /// The number of its call.
    pub fn xid(&self) -> u32
        ensures { result ≡ self.now.job.xid }
    {
        self.xid
    }
}
