//! The seats that have no call, shared by the threads that take and free them.
use crate::{FreeKeys, SeatKey};
use std::alloc::{AllocError, Global};
use std::sync::{Condvar, Mutex, Wait};

/// The seats that have no call, and the threads that wait for one.
#[derive(Drop)]
pub struct FreeSeats {
    free_keys: Mutex<FreeKeys>,
    changed: Condvar,
}

impl FreeSeats {
    /// All of so many seats are free.
    pub fn new(alloc: Global, count: usize) -> Result<FreeSeats, AllocError> {
        Ok(FreeSeats {
            free_keys: Mutex::new(FreeKeys::new(alloc, count)?),
            changed: Condvar::new(),
        })
    }

    /// Takes a seat, where one is free that no other thread waits for.
    pub fn try_take<R: Wait>(&self, rt: &R) -> Option<SeatKey> {
        self.free_keys.lock(rt).try_take()
    }

    /// Waits for a seat, and takes it.
    pub fn take<R: Wait>(&self, rt: &R) -> SeatKey {
        let mut free_keys = self.free_keys.lock(rt);
        free_keys.wait();
        for _ in rt.forever() {
            if let Some(key) = free_keys.take() {
                return key;
            }
            free_keys = self.changed.wait(rt, free_keys);
        }
        unreachable!()
    }

    /// Gives a seat back.
    pub fn put<R: Wait>(&self, rt: &R, key: SeatKey) {
        self.free_keys.lock(rt).give(key);
        self.changed.notify_one();
    }

    /// Whether all are free but one.
    pub fn is_one_out<R: Wait>(&self, rt: &R) -> bool {
        self.free_keys.lock(rt).is_one_out()
    }

    /// Waits until all are free.
    pub fn wait_for_all<R: Wait>(&self, rt: &R) {
        let _free_keys = self
            .changed
            .wait_while(rt, self.free_keys.lock(rt), |r| !r.is_whole());
    }
}
