//! How far the core is.

use crate::locked::Locked;
use std::sync::ledger::Ledger;
use txn::Seq;
use wal_calls::Whole;

/// What threads go by that wait: how far the core is.
#[derive(Clone, Copy, Debug, PartialEq, Eq)]
pub struct CoreSummary {
    /// The greatest place such that each change at or before it is settled.
    pub settled: Seq,
    /// Whether every commit is settled.
    pub is_settled: bool,
    /// How many commits are kept: those that aren't home.
    pub kept: usize,
    /// How many blocks are pinned, for what calls in flight have taken and for what kept commits read.
    pub pinned: usize,
    /// How many blocks the open tail of the log holds.
    pub tail: usize,
    /// Whether a write or a barrier has failed.
    pub broken: bool,
}

impl<L: Ledger, G: Whole, I: Whole> Locked<L, G, I> {
    ghost use Rattle.pool.specs.Locking.{IsLawful, LooksAt};

    /// How far the core is.
    pub(crate) fn summary(&self) -> CoreSummary
        ensures looks { LooksAt self.now.core result }
        ensures lawful { IsLawful self.now.core }
    {
        self.core.lawful();
        CoreSummary {
            settled: self.core.settled(),
            is_settled: self.core.is_settled(),
            kept: self.core.kept(),
            pinned: self.core.pinned(),
            tail: self.core.tail(),
            broken: self.core.broken(),
        }
    }
}
