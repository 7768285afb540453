//! The steps of workers, logger and installer on what lies behind the lock.
ghost use Rattle.std.specs.Prelude.{◌≡◌, ◌+◌, ◌≤◌, length, None, IsSome};
ghost use Rattle.wal_calls.specs.Callers.Steps.{InstComesBack, InstGoesOut, LogComesBack, LogGoesOut};
ghost use Rattle.pool.specs.Locking.{IsLawful};
ghost use Rattle.pool.specs.Stepping.{HasStepped, grown};
ghost use Rattle.wal_calls.specs.Seats.Sides.{HasTurned};
ghost use Rattle.circ.specs.Log.Installer.{may_install};
ghost use Rattle.circ.specs.Log.Logger.{may_log};

use crate::locked::Locked;
use crate::{Seat, StepResult};
use disk::{Port, Side};
use std::alloc::Global;
use std::sync::ledger::Ledger;
use wal_calls::{IoSeat, Turn, Whole, step_calls};

/// One step of a worker: one call of the core, or none where it has no job or a read is due, and at the answer of
/// a call that begins no transaction.
pub fn worker_step<L: Ledger, G: Whole, I: Whole, S>(
    alloc: Global,
    locked: &mut Locked<L, G, I>,
    seat: &mut Seat<L, S>,
) -> Turn
    ensures bound { seat.old.share.amount ≤ locked.old.core.log.places }
    ensures step { HasStepped seat.old.work locked.old.core result seat.new.work locked.new.core }
    ensures share { seat.new.share.amount ≡ seat.old.share.amount + grown seat.new.work.step_result }
    ensures parts { seat.new.share.parts ≡ seat.old.share.parts }
    ensures source { seat.new.source ≡ seat.old.source }
    ensures lawful { IsLawful locked.old.core × IsLawful locked.new.core }
{
    let Seat {
        work,
        share,
        source: _,
    } = seat;
    let Locked {
        core,
        commits,
        logged: _,
        installed: _,
    } = locked;
    core.lawful();
    commits.audit(share);
    let turn = work.step(alloc, core, share);
    if work.step_result() == StepResult::Committed {
        commits.add(share, 1);
    }
    core.lawful();
    turn
}

/// One step of the logger: one call of the core at most. A call that is handed out gets the next number.
#[tactic(auto, using(crate::proofs::Calls::log_turned))]
pub fn logger_step<L: Ledger, G: Whole, I: Whole, P: Port>(
    locked: &mut Locked<L, G, I>,
    seat: &mut IoSeat<G, P>,
) -> Turn
    ensures step { HasTurned may_log LogGoesOut LogComesBack locked.old.core seat.old.caller.io seat.old.caller.made
        result locked.new.core seat.new.caller.io seat.new.caller.made }
    ensures numbered { seat.old.caller.io ≡ None → IsSome seat.new.caller.io
        → length seat.new.number.items ≡ seat.old.calls.amount + 1 }
    ensures counted { G.all ≡ G.parts → (locked.old.core.log_calls ≡ seat.old.calls.amount + G.first)
        × (locked.new.core.log_calls ≡ seat.new.calls.amount + G.first) }
    ensures port { (seat.new.taken ≡ seat.old.taken) × (seat.new.port ≡ seat.old.port) }
    ensures lawful { IsLawful locked.old.core × IsLawful locked.new.core }
{
    let Locked {
        core,
        commits: _,
        logged,
        installed: _,
    } = locked;
    core.lawful();
    let turn = step_calls(Side::Log, core, logged, seat);
    core.lawful();
    turn
}

/// One step of the installer: one call of the core at most. A call that is handed out gets the next number.
#[tactic(auto, using(crate::proofs::Calls::inst_turned))]
pub fn installer_step<L: Ledger, G: Whole, I: Whole, P: Port>(
    locked: &mut Locked<L, G, I>,
    seat: &mut IoSeat<I, P>,
) -> Turn
    ensures step { HasTurned may_install InstGoesOut InstComesBack locked.old.core seat.old.caller.io seat.old.caller.made
        result locked.new.core seat.new.caller.io seat.new.caller.made }
    ensures numbered { seat.old.caller.io ≡ None → IsSome seat.new.caller.io
        → length seat.new.number.items ≡ seat.old.calls.amount + 1 }
    ensures counted { I.all ≡ I.parts → (locked.old.core.inst_calls ≡ seat.old.calls.amount + I.first)
        × (locked.new.core.inst_calls ≡ seat.new.calls.amount + I.first) }
    ensures port { (seat.new.taken ≡ seat.old.taken) × (seat.new.port ≡ seat.old.port) }
    ensures lawful { IsLawful locked.old.core × IsLawful locked.new.core }
{
    let Locked {
        core,
        commits: _,
        logged: _,
        installed,
    } = locked;
    core.lawful();
    let turn = step_calls(Side::Home, core, installed, seat);
    core.lawful();
    turn
}
