//! Lines that tell how far a long command is.
use crate::streams::Streams;
use std::io::Eprint;
use std::time::{Clock, Duration};
use store::Progress;

// How many seconds a command takes before it is told how far it is, and from each such line to the next.
const QUIET: u64 = 2;

const BETWEEN: u64 = 1;

/// Tells on standard error how far a command is, where that is a terminal: once it has taken two seconds, and then each
/// second.
#[derive(Drop)]
pub struct ProgressLines<'a, R> {
    rt: &'a R,
    // What is counted.
    what: &'static str,
    // When the next line is due, by the clock that never goes back. None: no line is told.
    due: Option<Duration>,
}

impl<'a, R: Clock + Streams> ProgressLines<'a, R> {
    /// The command begins now.
    pub fn new(rt: &'a R, what: &'static str) -> ProgressLines<'a, R> {
        if !rt.tells_a_terminal() {
            return ProgressLines {
                rt,
                what,
                due: None,
            };
        }
        ProgressLines {
            rt,
            what,
            due: due_after(rt, QUIET),
        }
    }
}

impl<R: Clock + Eprint> Progress for ProgressLines<'_, R> {
    fn reached(&mut self, done: u32, all: u32) {
        let Some(due) = self.due else {
            return;
        };
        let Ok(now) = self.rt.monotonic() else {
            return;
        };
        if now < due {
            return;
        }
        // A line that standard error doesn't take is lost.
        let what = self.what;
        let _ = eprintln!(self.rt; "nfsd: {done} of {all} {what}");
        self.due = due_after(self.rt, BETWEEN);
    }
}

// So many seconds from now, where the clock can be read.
fn due_after<R: Clock>(rt: &R, seconds: u64) -> Option<Duration> {
    match rt.monotonic() {
        Ok(now) => now.checked_add(Duration::from_secs(seconds)),
        Err(_) => None,
    }
}
