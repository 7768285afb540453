//! The calls of a device in memory, with what it held before each. They are kept in `http_server`'s `Log`, a
//! list for proofs alone that takes no memory: nothing else of that crate is used.
ghost use Rattle.std.specs.Prelude.{◌≡◌, ◌-◌, ◌^◌, [], ◌∷◌, ◌++◌, min, length};

use crate::call_record::CallRecord;
use crate::contents::Contents;
use http_server::Log;
use std::snapshot::Snapshot;

/// The calls so far. It keeps their count, and the calls for proofs alone.
#[derive(Drop)]
pub struct History {
    calls: u64,
    past: Log<Snapshot<Vec<Contents>>, CallRecord>,
    ghost counted: { calls ≡ min (length past.items) (2 ^ 64 - 1) },
}

impl History {
    /// No call.
    pub fn new() -> History
        ensures { result.past.items ≡ [] }
    {
        History {
            calls: 0,
            past: Log::new(),
        }
    }

    /// The calls and one more, before which the blocks held this.
    pub fn and(&self, before: &Snapshot<Vec<Contents>>, traced: &CallRecord) -> History
        ensures { result.past.items ≡ self.now.past.items ++ (before.now, traced.now) ∷ [] }
    {
        History {
            calls: self.calls.saturating_add(1),
            past: self.past.and(before, traced),
        }
    }

    /// How many there are, up to the greatest number.
    pub fn calls(&self) -> u64
        ensures { result ≡ min (length self.now.past.items) (2 ^ 64 - 1) }
    {
        self.calls
    }
}
