//! Calls of one connection that are driven one after another.
use base::BATCH_CALLS;
use pool::{Answer, Job};
use server_sync::{SeatAwaitingLog, SeatKey};
use std::alloc::{AllocError, Global};
use std::collections::VecDeque;
use std::sync::ledger::Ledger;

/// Calls of one connection, in their order; and of those that were driven the answers, the seats whose changes wait to
/// be settled, and the seat that has to wait for something else. It is the last that was driven, since it may have
/// taken what a later one would wait for.
#[derive(Drop)]
pub struct Batch<L: Ledger> {
    pub jobs: VecDeque<Job>,
    pub answers: VecDeque<Answer<L>>,
    pub waiting: VecDeque<SeatAwaitingLog>,
    pub held_up: Option<SeatKey>,
}

impl<L: Ledger> Batch<L> {
    /// No call, with room for as many as are driven in one batch.
    pub fn new(alloc: Global) -> Result<Batch<L>, AllocError> {
        Ok(Batch {
            jobs: VecDeque::with_capacity(alloc, BATCH_CALLS)?,
            answers: VecDeque::with_capacity(alloc, BATCH_CALLS)?,
            waiting: VecDeque::with_capacity(alloc, BATCH_CALLS)?,
            held_up: None,
        })
    }

    /// Whether it has as many calls as are driven in one batch.
    pub fn is_full(&self) -> bool {
        self.jobs.len() >= BATCH_CALLS
    }

    /// Whether what was driven is one call, which waits to be settled, and none is left.
    pub fn is_one_that_waits(&self) -> bool {
        let is_single = self.jobs.is_empty() && self.answers.is_empty() && self.held_up.is_none();
        is_single && self.waiting.len() == 1
    }
}
