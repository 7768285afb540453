//! A device call on a whole device, which may lie beyond its end.
ghost use Rattle.std.specs.Prelude.{◌≡◌, ◌↔◌, IsTrue};
ghost use Rattle.wal_calls.specs.Callers.Making.{answered_ok};
ghost use Rattle.circ.specs.Log.Io.{IsCallWithin};

use wal::IoCall;

// Whether a call goes to a block of a device of so many.
pub(crate) fn is_within(call: IoCall, blocks: u32) -> bool
    ensures { IsTrue result ↔ IsCallWithin blocks call }
{
    match call {
        IoCall::Write(block) => block.0 < blocks,
        IoCall::Barrier(_) => true,
    }
}

// Whether a call was made and answered Ok.
pub(crate) fn was_ok(made: Option<bool>) -> bool
    ensures { result ≡ answered_ok made }
{
    match made {
        Some(ok) => ok,
        None => false,
    }
}
