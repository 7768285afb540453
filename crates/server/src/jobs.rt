//! The queue of calls that found no seat free.
use base::MOST_JOBS;
use crossbeam_channel::{Receiver, Sender, bounded};
use pool::Job;
use std::alloc::{AllocError, Global};
use std::sync::Wait;

/// Calls that wait for a job thread. Who puts one where the queue is full waits.
#[derive(Drop)]
pub struct Jobs {
    // None tells one job thread to end.
    to_work: Sender<Option<Job>>,
    queued: Receiver<Option<Job>>,
}

impl Jobs {
    /// None waits.
    pub fn new(alloc: Global) -> Result<Jobs, AllocError> {
        let (to_work, queued) = bounded::<Option<Job>, Global>(alloc, MOST_JOBS)?;
        Ok(Jobs { to_work, queued })
    }

    /// Puts a call behind those that wait. False where nobody will take it.
    pub fn put<R: Wait>(&self, rt: &R, job: Job) -> bool {
        self.to_work.send(rt, Some(job)).is_ok()
    }

    /// Tells so many threads to end, behind the calls that wait.
    pub fn end<R: Wait>(&self, rt: &R, threads: usize) {
        for _ in 0..threads {
            let _ = self.to_work.send(rt, None);
        }
    }

    /// Waits for a call, and takes it. None where the thread is to end.
    pub fn take<R: Wait>(&self, rt: &R) -> Option<Job> {
        self.queued.recv(rt).ok()?
    }
}
