//! The device call that a seat has to make, shown.
ghost use Rattle.std.specs.Prelude.{◌≡◌};
ghost use Rattle.wal_calls.specs.Seats.Numbers.{IsShown};

use crate::callers::Caller;
use crate::seats::Point;
use disk::{Block, Side};
use std::snapshot::Snapshot;
use wal::IoCall;

/// A device call with what a write writes, for proofs alone.
#[derive(Drop)]
pub struct Shown {
    pub(crate) call: IoCall,
    pub(crate) content: Snapshot<Block>,
}

// The call that is out, where it wasn't made.
pub(crate) fn due_of(caller: &Caller) -> Option<Shown>
    ensures { IsShown caller.now.io caller.now.made result }
{
    caller.due()?;
    let io = caller.out()?;
    Some(Shown {
        call: io.call(),
        content: Snapshot::of(io.content()),
    })
}

// Where a thread stands that is about to make this call of a side.
pub(crate) fn point(side: Side, call: IoCall) -> Point {
    match (side, call) {
        (Side::Log, IoCall::Write(_)) => Point::Log,
        (Side::Log, IoCall::Barrier(_)) => Point::LogBarrier,
        (Side::Home, IoCall::Write(_)) => Point::Home,
        (Side::Home, IoCall::Barrier(_)) => Point::HomeBarrier,
    }
}
