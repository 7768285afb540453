//! What those wait for that found no room in the log.
use std::sync::atomic::{AtomicU64, Ordering};
use std::sync::{Condvar, Mutex, Wait};
use std::time::{Clock, Duration};

/// Counts how often there was room again.
#[derive(Drop)]
pub struct Rounds {
    count: AtomicU64,
    waiting: AtomicU64,
    lock: Mutex<()>,
    changed: Condvar,
}

impl Rounds {
    /// There was none yet.
    pub fn new() -> Rounds {
        Rounds {
            count: AtomicU64::new(0),
            waiting: AtomicU64::new(0),
            lock: Mutex::new(()),
            changed: Condvar::new(),
        }
    }

    /// How many there were, wrapping.
    pub fn count(&self) -> u64 {
        self.count.load(Ordering::SeqCst)
    }

    /// Tells of another.
    pub fn next<R: Wait>(&self, rt: &R) {
        self.count.fetch_add(1, Ordering::SeqCst);
        if self.waiting.load(Ordering::SeqCst) == 0 {
            return;
        }
        // Who has read the count and waits doesn't have the lock.
        drop(self.lock.lock(rt));
        self.changed.notify_all();
    }

    /// Waits until there are others than were seen, but no longer than this.
    pub fn wait_for_next<R: Wait + Clock>(&self, rt: &R, seen: u64, patience: Duration) {
        self.waiting.fetch_add(1, Ordering::SeqCst);
        let guard = self.lock.lock(rt);
        let _guard = self
            .changed
            .wait_timeout_while(rt, guard, patience, |_| self.count() == seen);
        self.waiting.fetch_sub(1, Ordering::SeqCst);
    }
}
