//! Seats whose changes wait to be settled, shared by the threads that park, settle and answer them. They cost no
//! thread.
use crate::{Next, SeatAwaitingLog, SeatKey, Waiting};
use std::alloc::{AllocError, Global};
use std::sync::{Condvar, Mutex, Wait};

/// The seats whose changes wait to be settled, and the thread that waits to answer them.
#[derive(Drop)]
pub struct LogWaits {
    waiting: Mutex<Waiting>,
    changed: Condvar,
}

impl LogWaits {
    /// No seat waits, and there is room for so many.
    pub fn new(alloc: Global, settled: u64, seats: usize) -> Result<LogWaits, AllocError> {
        Ok(LogWaits {
            waiting: Mutex::new(Waiting::new(alloc, settled, seats)?),
            changed: Condvar::new(),
        })
    }

    /// Parks a seat. Its key comes back where the seat goes on at once: where its place is settled, or there is no
    /// memory for it.
    pub fn await_log<R: Wait>(&self, rt: &R, awaiting_log: SeatAwaitingLog) -> Result<(), SeatKey> {
        self.waiting.lock(rt).await_log(awaiting_log)
    }

    /// Tells up to which place all is settled.
    pub fn advance_settled<R: Wait>(&self, rt: &R, settled: u64) {
        let mut waiting = self.waiting.lock(rt);
        waiting.advance_settled(settled);
        let is_empty = waiting.is_empty();
        drop(waiting);
        if !is_empty {
            self.changed.notify_one();
        }
    }

    /// Tells that no seat will wait for the log any more.
    pub fn end<R: Wait>(&self, rt: &R) {
        self.waiting.lock(rt).end();
        self.changed.notify_one();
    }

    /// Waits for a seat whose place is settled, and takes it out. None once the end is told and no such seat
    /// waits. One thread waits so.
    pub fn take<R: Wait>(&self, rt: &R) -> Option<SeatKey> {
        let mut waiting = self.waiting.lock(rt);
        for _ in rt.forever() {
            match waiting.next() {
                Next::Answer(key) => return Some(key),
                Next::End => return None,
                Next::Wait => waiting = self.changed.wait(rt, waiting),
            }
        }
        None
    }
}
