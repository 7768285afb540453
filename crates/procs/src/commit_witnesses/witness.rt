//! What is left of a receipt whose reply was moved out.
ghost use Rattle.std.specs.Prelude.{◌≡◌};
ghost use Rattle.procs.specs.Finished.{IsFinished};

use crate::Done;
use nfs_types::Reply;
use std::marker::Model;
use std::snapshot::Snapshot;
use txn::{Receipt, Seq};

/// Shows that a procedure was committed, and at which place: what is left of the receipt of its commit once the reply
/// was moved out. Only a receipt makes one, and is used up for it. What was committed is kept for proofs alone.
#[derive(Drop)]
pub struct CommitWitness {
    place: Seq,
    change: Snapshot<Done>,
}

impl Model for CommitWitness {
    ghost use Rattle.procs.specs.Finished.{IsFinished};
    ghost use Rattle.procs.specs.Outcome.{Outcome};
    ghost use Rattle.txn.specs.Receipts.{Given};

    ghost Value = { Given Outcome };

    ghost view = { λ v. record { place = v.place; change = v.change.value } };

    ghost invariant = { λ v. IsFinished v.change.value };
}

impl CommitWitness {
    /// Moves the reply out of a receipt.
    pub fn of(receipt: Receipt<Done>) -> (CommitWitness, Reply)
        ensures witness { result.0 ≡ receipt }
        ensures reply { result.1 ≡ receipt.change.reply }
    {
        let place = receipt.place();
        let done = receipt.into_change();
        done.finished();
        let change = Snapshot::of(&done);
        (CommitWitness { place, change }, done.into_reply())
    }

    /// The place that the procedure took.
    pub fn place(&self) -> Seq
        ensures { result ≡ self.now.place }
    {
        self.place
    }

    /// What was committed is what the plan of its call ended in.
    pub fn finished(&self)
        ensures { IsFinished self.now.change }
    {
        let _ = &self.place;
    }
}
