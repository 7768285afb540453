//! What a thread waits for that has work now and then.
use crate::{Notice, Pending};
use std::sync::{Condvar, Mutex, Wait};
use std::time::{Clock, Duration};

/// Wakes the one thread that waits for it. What it is told of while nobody waits is taken at the next wait.
#[derive(Drop)]
pub struct Notifier {
    pending: Mutex<Pending>,
    changed: Condvar,
}

impl Notifier {
    pub fn new() -> Notifier {
        Notifier {
            pending: Mutex::new(Pending::new()),
            changed: Condvar::new(),
        }
    }

    /// Tells of work.
    pub fn notify<R: Wait>(&self, rt: &R) {
        let is_news = self.pending.lock(rt).notify();
        if is_news {
            self.changed.notify_one();
        }
    }

    /// Tells of work that can't wait.
    pub fn notify_now<R: Wait>(&self, rt: &R) {
        let is_news = self.pending.lock(rt).notify_now();
        if is_news {
            self.changed.notify_one();
        }
    }

    /// Tells that no work will come any more.
    pub fn end<R: Wait>(&self, rt: &R) {
        self.pending.lock(rt).end();
        self.changed.notify_one();
    }

    /// Waits until there is something to take. The end is taken only where no work is, and from then on always.
    pub fn wait<R: Wait>(&self, rt: &R) -> Notice {
        self.changed
            .wait_while(rt, self.pending.lock(rt), |u| u.is_empty())
            .take()
    }

    /// Waits until there is work that can't wait, or the end, or the time is up: tells which of them it is.
    pub fn wait_until_now<R: Wait + Clock>(&self, rt: &R, patience: Duration) -> Notice {
        let (mut pending, _) = self
            .changed
            .wait_timeout_while(rt, self.pending.lock(rt), patience, |u| u.can_wait());
        pending.take()
    }
}
