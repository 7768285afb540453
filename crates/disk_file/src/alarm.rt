//! Telling of a file that fails.
ghost use Rattle.std.specs.Prelude.{◌≡◌};
ghost use Rattle.disk_file.specs.Asked.{asked_text};

use httpdate::HttpDate;
use std::io;
use std::io::Eprint;
use std::sync::atomic::{AtomicBool, Ordering};
use std::time::Clock;

/// What a file was asked for.
#[derive(Clone, Copy, Debug, PartialEq, Eq)]
pub enum Asked {
    Write,
    Sync,
}

impl Asked {
    /// What is told of it.
    pub fn text(self) -> &'static str
        ensures { result.now ≡ asked_text self }
    {
        match self {
            Asked::Write => "a write of the image failed",
            Asked::Sync => "a sync of the image failed",
        }
    }
}

/// Tells, on standard error, of the first write or sync of an image that fails: in one line, with the time and the
/// system's cause. Later ones aren't told of.
#[derive(Drop)]
pub struct Alarm<'a, R> {
    rt: &'a R,
    has_fired: AtomicBool,
}

impl<'a, R: Clock + Eprint> Alarm<'a, R> {
    /// Nothing was told yet.
    pub fn new(rt: &'a R) -> Alarm<'a, R> {
        Alarm {
            rt,
            has_fired: AtomicBool::new(false),
        }
    }

    /// Tells that this failed, unless something was told before. Where standard error is closed or full, only this
    /// line is lost.
    pub fn tell(&self, asked: Asked, error: &io::Error) {
        if self.has_fired.swap(true, Ordering::SeqCst) {
            return;
        }
        let what = asked.text();
        let _ = match date(self.rt) {
            Some(date) => eprintln!(self.rt; "nfsd: {date}: {what}: {error}"),
            None => eprintln!(self.rt; "nfsd: {what}: {error}"),
        };
    }
}

// The date, where the clock can be read and it is one of four digits of a year.
fn date<R: Clock>(rt: &R) -> Option<HttpDate> {
    let now = rt.since_1970().ok()?;
    HttpDate::from_unix_secs(now.as_secs()).ok()
}
