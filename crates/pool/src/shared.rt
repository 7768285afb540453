//! The lock.
ghost use Rattle.std.specs.Prelude.{◌≡◌, ◌+◌, ◌≤◌, length, None, IsSome};
ghost use Rattle.wal_calls.specs.Callers.Steps.{HasEnded, InstComesBack, InstGoesOut, LogComesBack, LogGoesOut};
ghost use Rattle.pool.specs.Locking.{IsLawful, LooksAt};
ghost use Rattle.pool.specs.Stepping.{HasStepped, grown};
ghost use Rattle.wal_calls.specs.Seats.Sides.{HasTurned};
ghost use Rattle.store_workers.specs.Ended.{GivesAllBack};
ghost use Rattle.txn.specs.Core.{CoreState};
ghost use Rattle.circ.specs.Log.Installer.{may_install};
ghost use Rattle.circ.specs.Log.Logger.{may_log};

use crate::{CoreSummary, Locked, Seat, installer_step, logger_step, worker_step};
use disk::{Port, Side};
use procs::Done;
use std::alloc::Global;
use std::sync::ledger::{Ledger, Share};
use std::sync::{Mutex, Wait};
use txn::Core;
use wal_calls::{IoSeat, Turn, Whole};

/// The lock round the one core. Each call takes it for one step, and may wait for it.
#[derive(Drop)]
pub struct Shared<L: Ledger, G: Whole, I: Whole> {
    lock: Mutex<Locked<L, G, I>>,
}

impl<L: Ledger, G: Whole, I: Whole> Shared<L, G, I> {
    /// A lock round this.
    pub fn new(locked: Locked<L, G, I>) -> Shared<L, G, I> {
        Shared {
            lock: Mutex::new(locked),
        }
    }

    /// One step of a worker, under the lock: the answer and the seat are the step's, from some value that the
    /// lock held.
    pub fn work<R: Wait, S>(&self, rt: &R, alloc: Global, seat: &mut Seat<L, S>) -> Turn
        ensures step { (before : CoreState) × (after : CoreState) × IsLawful before × IsLawful after
            × (seat.old.share.amount ≤ before.log.places)
            × HasStepped seat.old.work before result seat.new.work after }
        ensures share { seat.new.share.amount ≡ seat.old.share.amount + grown seat.new.work.step_result }
        ensures parts { seat.new.share.parts ≡ seat.old.share.parts }
        ensures source { seat.new.source ≡ seat.old.source }
    {
        let mut guard = self.lock.lock(rt);
        worker_step(alloc, &mut *guard, seat)
    }

    /// One step of the logger, under the lock.
    pub fn log<R: Wait, P: Port>(&self, rt: &R, seat: &mut IoSeat<G, P>) -> Turn
        ensures step { (before : CoreState) × (after : CoreState) × IsLawful before × IsLawful after
            × HasTurned may_log LogGoesOut LogComesBack before seat.old.caller.io seat.old.caller.made result after
            seat.new.caller.io seat.new.caller.made }
        ensures numbered { seat.old.caller.io ≡ None → IsSome seat.new.caller.io
            → length seat.new.number.items ≡ seat.old.calls.amount + 1 }
        ensures port { (seat.new.taken ≡ seat.old.taken) × (seat.new.port ≡ seat.old.port) }
    {
        let mut guard = self.lock.lock(rt);
        logger_step(&mut *guard, seat)
    }

    /// One step of the installer, under the lock.
    pub fn install<R: Wait, P: Port>(&self, rt: &R, seat: &mut IoSeat<I, P>) -> Turn
        ensures step { (before : CoreState) × (after : CoreState) × IsLawful before × IsLawful after
            × HasTurned may_install InstGoesOut InstComesBack before seat.old.caller.io seat.old.caller.made result after
            seat.new.caller.io seat.new.caller.made }
        ensures numbered { seat.old.caller.io ≡ None → IsSome seat.new.caller.io
            → length seat.new.number.items ≡ seat.old.calls.amount + 1 }
        ensures port { (seat.new.taken ≡ seat.old.taken) × (seat.new.port ≡ seat.old.port) }
    {
        let mut guard = self.lock.lock(rt);
        installer_step(&mut *guard, seat)
    }

    /// How far the core is, which it leaves as it is.
    pub fn summary<R: Wait>(&self, rt: &R) -> CoreSummary
        ensures { (at : CoreState) × IsLawful at × LooksAt at result }
    {
        self.lock.lock(rt).summary()
    }

    /// Ends a seat: what its worker has begun is given back, and what it was to answer is lost.
    pub fn leave<R: Wait, S: Drop>(&self, rt: &R, seat: Seat<L, S>)
        ensures { (before : CoreState) × (after : CoreState) × GivesAllBack seat.work.worker.begun before after }
    {
        self.lock.lock(rt).end_seat(seat);
    }

    /// Ends the logger's seat: a call that is out is given back with its port's answer, or as failed. What is left is
    /// its share of the ledger of calls.
    pub fn leave_log<R: Wait, P: Port + Drop>(&self, rt: &R, seat: IoSeat<G, P>) -> Share<G>
        ensures back { (before : CoreState) × (after : CoreState)
            × HasEnded LogComesBack before seat.caller.io seat.caller.made after }
        ensures share { result ≡ seat.calls }
    {
        self.lock.lock(rt).end_calls(Side::Log, seat)
    }

    /// Ends the installer's seat: a call that is out is given back with its port's answer, or as failed. What is left is
    /// its share of the ledger of calls.
    pub fn leave_install<R: Wait, P: Port + Drop>(&self, rt: &R, seat: IoSeat<I, P>) -> Share<I>
        ensures back { (before : CoreState) × (after : CoreState)
            × HasEnded InstComesBack before seat.caller.io seat.caller.made after }
        ensures share { result ≡ seat.calls }
    {
        self.lock.lock(rt).end_calls(Side::Home, seat)
    }

    /// The core, out of the lock: it has handed out just the calls that the shares of their ledgers tell, where these are
    /// whole.
    pub fn into_core(self, logged: Share<G>, installed: Share<I>) -> Core<Done>
        ensures boot { result.boot ≡ G.boot }
        ensures log_calls { logged.parts ≡ G.parts → result.log_calls ≡ logged.amount + G.first }
        ensures inst_calls { installed.parts ≡ I.parts → result.inst_calls ≡ installed.amount + I.first }
    {
        self.lock.into_inner().into_core(logged, installed)
    }
}
