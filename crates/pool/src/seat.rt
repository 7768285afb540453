//! Where a worker sits.
ghost use Rattle.std.specs.Prelude.{◌≡◌, ◌<◌};

use crate::StepResult;
use crate::work::Work;
use nfs_types::Moment;
use pool_requests::{Answer, Job};
use std::alloc::Global;
use std::sync::ledger::{Ledger, Share};
use txn::Seq;

/// A worker with its job; its share of the ledger of commits, which grows by one at each of its commits; and the source
/// that it reads by, and no other. A seat has to be ended: one that is lost doesn't compile, as its worker may have a
/// transaction.
pub struct Seat<L: Ledger, S> {
    pub(crate) work: Work<L>,
    pub(crate) share: Share<L>,
    pub(crate) source: S,
    pub ghost backed: { 0 < share.parts },
}

impl<L: Ledger, S> Seat<L, S> {
    ghost use Rattle.std.specs.Prelude.{◌≡◌, ◌<◌, ◌↔◌, IsTrue, IsErr, IfErr, IfSome, OnOk, None};
    ghost use Rattle.nfs_spec.specs.Model.Sound.{SoundTime};
    ghost use Rattle.pool_requests.specs.Answers.Evident.{IsEvident};
    ghost use Rattle.pool.specs.Stepping.{IsFree, Plans, seated, with_job};
    ghost use Rattle.store_workers.specs.Prepared.{plans_long};
    ghost use Rattle.store_workers.specs.SourceReads.{place_awaited};
    ghost use Rattle.store_workers.specs.declared.workers.parts.Phase.TheVariants.{Reading};

    /// A seat that has made no commit, and reads by this source.
    pub fn new(alloc: Global, share: Share<L>, source: S) -> Seat<L, S>
        requires { 0 < share.parts }
        ensures work { result.work ≡ seated }
        ensures share { result.share ≡ share }
        ensures source { result.source ≡ source }
    {
        Seat {
            work: Work::new(alloc),
            share,
            source,
        }
    }

    /// Whether it has no job, and no answer lies ready.
    pub fn is_free(&self) -> bool
        ensures { IsTrue result ↔ IsFree self.now.work }
    {
        self.work.is_free()
    }

    /// Hands it a job at this moment, of less than a second of nanoseconds. A seat that isn't free gives the job
    /// back.
    pub fn hand(&mut self, job: Job, moment: Moment) -> Result<(), Job>
        requires { SoundTime moment }
        ensures took { OnOk result (self.new.work ≡ with_job job moment self.old.work) }
        ensures busy { IfErr result (λ back. (back ≡ job) × (self.new.work ≡ self.old.work)) }
        ensures cause { IsErr result ↔ (IsFree self.old.work → ⊥) }
        ensures rest { (self.new.share ≡ self.old.share) × (self.new.source ≡ self.old.source) }
    {
        self.work.hand(job, moment)
    }

    /// The place that its committed procedure waits for, if it does. Such a seat needs no thread.
    pub fn waits(&self) -> Option<Seq>
        ensures { result ≡ place_awaited self.now.work.worker.phase }
    {
        self.work.waits()
    }

    /// Whether a read is due.
    pub fn is_due(&self) -> bool
        ensures { IsTrue result ↔ (self.now.work.worker.phase ≡ Reading) }
    {
        self.work.is_due()
    }

    /// Whether its next step is one of a plan that may take long.
    pub fn plans_long(&self) -> bool
        ensures { result ≡ plans_long self.now.work.worker }
    {
        self.work.plans_long()
    }

    /// Makes the plan of its next step, where that is one of a plan, without the lock: so the step only goes by it.
    pub fn plan(&mut self, alloc: Global)
        ensures work { Plans self.old.work self.new.work }
        ensures rest { (self.new.share ≡ self.old.share) × (self.new.source ≡ self.old.source) }
    {
        self.work.plan(alloc);
    }

    /// What its last step was told.
    pub fn step_result(&self) -> StepResult
        ensures { result ≡ self.now.work.step_result }
    {
        self.work.step_result()
    }

    /// Takes the answer that lies ready, which shows that it may be given: the reply of the job's own change, which
    /// was committed, and is settled where it has to be; or one of the three in its place, or the reply to a call that
    /// begins no transaction.
    pub fn take_answer(&mut self) -> Option<Answer<L>>
        ensures answer { result ≡ self.old.work.in_flight.answer }
        ensures taken { self.new.work ≡ record self.old.work {
          in_flight = record self.old.work.in_flight { answer = None };
        } }
        ensures evident { IfSome result IsEvident }
        ensures rest { (self.new.share ≡ self.old.share) × (self.new.source ≡ self.old.source) }
    {
        self.work.take_answer()
    }
}
