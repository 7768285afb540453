//! The device calls of workers, logger and installer, apart from the lock.
ghost use Rattle.std.specs.Prelude.{◌≡◌, ◌↔◌, IsTrue};
ghost use Rattle.pool.specs.Stepping.{ReadsFrom};
ghost use Rattle.wal_calls.specs.Seats.Numbers.{MakesCall, due};
ghost use Rattle.store_workers.specs.declared.workers.parts.Phase.TheVariants.{Reading};

use crate::Seat;
use disk::{Port, Side, Source};
use std::sync::ledger::Ledger;
use wal_calls::{Gate, IoSeat, Point, Whole, make_call};

/// Makes the read that a worker has due, if one is, by the seat's own source. It answers whether there was one.
pub fn worker_io<L: Ledger, S: Source, T: Gate>(
    seat: &mut Seat<L, S>,
    worker: usize,
    gate: &T,
) -> bool
    ensures read { ReadsFrom result (S.calls seat.old.source) seat.old.work (S.calls seat.new.source) seat.new.work }
    ensures was_due { IsTrue result ↔ (seat.old.work.worker.phase ≡ Reading) }
    ensures share { seat.new.share ≡ seat.old.share }
{
    if seat.is_due() {
        gate.pass(Point::Read(worker));
    }
    let Seat {
        work,
        share: _,
        source,
    } = seat;
    work.read_from(source)
}

/// Makes the logger's device call that is out, where it wasn't made, on its port, and leaves the port's answer in
/// the seat. It answers whether there was one.
pub fn logger_io<G: Whole, P: Port, T: Gate>(seat: &mut IoSeat<G, P>, gate: &T) -> bool
    ensures made { MakesCall seat.old.caller.io seat.old.caller.made seat.new.caller.made (P.calls seat.old.port)
        (P.calls seat.new.port) }
    ensures was_due { IsTrue result ↔ (due seat.old.caller.io seat.old.caller.made ≡ 1) }
    ensures io { seat.new.caller.io ≡ seat.old.caller.io }
{
    make_call(Side::Log, seat, gate)
}

/// Makes the installer's device call that is out, where it wasn't made, on its port, and leaves the port's answer
/// in the seat. It answers whether there was one.
pub fn installer_io<G: Whole, P: Port, T: Gate>(seat: &mut IoSeat<G, P>, gate: &T) -> bool
    ensures made { MakesCall seat.old.caller.io seat.old.caller.made seat.new.caller.made (P.calls seat.old.port)
        (P.calls seat.new.port) }
    ensures was_due { IsTrue result ↔ (due seat.old.caller.io seat.old.caller.made ≡ 1) }
    ensures io { seat.new.caller.io ≡ seat.old.caller.io }
{
    make_call(Side::Home, seat, gate)
}
