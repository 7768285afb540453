//! The steps of the logger and the installer on a core, and their device calls apart from it.
ghost use Rattle.std.specs.Prelude.{◌≡◌, ◌+◌, ◌<◌, ◌∷◌, ◌++◌, [], length, None, Some, IsSome, IsTrue, ◌↔◌};
ghost use Rattle.wal_calls.specs.Callers.Steps.{comes_back, goes_out, HasEnded};
ghost use Rattle.wal_calls.specs.Seats.Numbers.{IsTied, MakesCall, due, number_of, numbers, upto};
ghost use Rattle.wal_calls.specs.Seats.Sides.{HandsOutNone, HasTurned, gone};
ghost use Rattle.wal.specs.Sides.{may_call};

use crate::callers::Stepped;
use crate::seats::due::{due_of, point};
use crate::seats::{Gate, HandedOut, IoSeat, Shown, Turn, Whole};
use disk::{Failed, Port, Side};
use http_server::Log;
use std::snapshot::Snapshot;
use std::sync::ledger::{Book, Share};
use txn::{Change, Core};

/// One step of the logger or of the installer: one call of the core at most. A call that is handed out gets the next
/// number, and is written into the book.
#[tactic(auto, using(crate::proofs::SeatsLemmas::Gone::gone_next, crate::proofs::SeatsLemmas::Gone::gone_done, crate::proofs::SeatsLemmas::Gone::gone_idle, crate::proofs::SeatsLemmas::Gone::gone_still, crate::proofs::SeatsLemmas::Places::stepped))]
pub fn step_calls<C: Change, G: Whole, P: Port>(
    side: Side,
    core: &mut Core<C>,
    book: &mut Book<G>,
    seat: &mut IoSeat<G, P>,
) -> Turn
    ensures step { HasTurned (may_call side) (goes_out side) (comes_back side) core.old seat.old.caller.io seat.old.caller.made result
        core.new seat.new.caller.io seat.new.caller.made }
    ensures numbered { seat.old.caller.io ≡ None → IsSome seat.new.caller.io
        → length seat.new.number.items ≡ seat.old.calls.amount + 1 }
    ensures counted { G.all ≡ G.parts → (book.old.total ≡ seat.old.calls.amount)
        × (book.new.total ≡ seat.new.calls.amount) }
    ensures gone { book.new.total ≡ book.old.total + gone seat.old.caller.io seat.new.caller.io }
    ensures places { core.new.log.places ≡ core.old.log.places }
    ensures port { (seat.new.taken ≡ seat.old.taken) × (seat.new.port ≡ seat.old.port) }
{
    let IoSeat {
        caller,
        calls,
        taken: _,
        number,
        port: _,
    } = seat;
    book.audit(calls);
    if caller.out().is_none() && core.broken() {
        return Turn::Broken;
    }
    match caller.step(side, core) {
        None => Turn::Idle,
        Some(Stepped::Next(_)) => {
            book.add(calls, 1);
            *number = number.and(&(), &());
            Turn::Moved
        }
        Some(Stepped::Done(_)) => Turn::Moved,
    }
}

/// Ends a seat: a call that is out is given back with its port's answer, or as failed where it wasn't made. What is left
/// is the seat's share of the ledger of its calls.
#[tactic(auto, using(crate::proofs::SeatsLemmas::Places::ended))]
pub fn give_up<C: Change, G: Whole, P: Port + Drop>(
    side: Side,
    core: &mut Core<C>,
    seat: IoSeat<G, P>,
) -> Share<G>
    ensures back { HasEnded (comes_back side) core.old seat.caller.io seat.caller.made core.new }
    ensures places { core.new.log.places ≡ core.old.log.places }
    ensures calls { HandsOutNone core.old core.new }
    ensures share { result ≡ seat.calls }
{
    let IoSeat {
        caller,
        calls,
        taken: _,
        number: _,
        port: _,
    } = seat;
    caller.end(side, core);
    calls
}

/// Makes the device call that is out, where it wasn't made, on the seat's own port, and leaves the port's answer in the
/// seat. It answers whether there was one.
pub fn make_call<G: Whole, P: Port, T: Gate>(side: Side, seat: &mut IoSeat<G, P>, gate: &T) -> bool
    ensures made { MakesCall seat.old.caller.io seat.old.caller.made seat.new.caller.made
        (P.calls seat.old.port) (P.calls seat.new.port) }
    ensures was_due { IsTrue result ↔ (due seat.old.caller.io seat.old.caller.made ≡ 1) }
    ensures out { seat.new.caller.io ≡ seat.old.caller.io }
{
    let IoSeat {
        caller,
        calls: _,
        taken,
        number,
        port,
    } = seat;
    let Some(shown) = due_of(caller) else {
        return false;
    };
    gate.pass(point(side, shown.call));
    let Some(made) = caller.make_on(port) else {
        unreachable!();
    };
    let Shown { call, content } = shown;
    let handed = HandedOut {
        call,
        content,
        number: Snapshot::of(number),
    };
    *taken = traced(taken, &handed, &made);
    true
}

// The values so far, and the next one with its answer.
#[tactic(auto, using(crate::proofs::SeatsLemmas::Numbered::one_more, crate::proofs::SeatsLemmas::Numbered::length_snoc))]
fn traced(
    taken: &Log<HandedOut, Result<(), Failed>>,
    handed: &HandedOut,
    answer: &Result<(), Failed>,
) -> Log<HandedOut, Result<(), Failed>>
    requires numbered { numbers taken.now.items ≡ upto (length taken.now.items) }
    requires next { number_of handed.now ≡ length taken.now.items + 1 }
    ensures items { result.items ≡ taken.now.items ++ (handed.now, answer.now) ∷ [] }
    ensures numbered { numbers result.items ≡ upto (length result.items) }
    ensures length { length result.items ≡ length taken.now.items + 1 }
{
    taken.and(handed, answer)
}
