//! The end of seats, and of what lies behind the lock.

use crate::Seat;
use crate::locked::Locked;
use disk::{Port, Side};
use procs::Done;
use std::sync::ledger::{Ledger, Share};
use txn::Core;
use wal_calls::{IoSeat, Whole, give_up};

impl<L: Ledger, G: Whole, I: Whole> Locked<L, G, I> {
    ghost use Rattle.std.specs.Prelude.{◌≡◌, ◌+◌};
    ghost use Rattle.wal_calls.specs.Callers.Steps.{HasEnded, comes_back};
    ghost use Rattle.wal_calls.specs.Seats.Sides.{HandsOutNone};
    ghost use Rattle.store_workers.specs.Ended.{GivesAllBack};

    /// Ends a seat: what its worker has begun is given back, and what it was to answer is lost.
    pub(crate) fn end_seat<S: Drop>(&mut self, seat: Seat<L, S>)
        ensures back { GivesAllBack seat.work.worker.begun self.old.core self.new.core }
        ensures log { self.new.core.log ≡ self.old.core.log }
        ensures calls { HandsOutNone self.old.core self.new.core }
    {
        let Seat {
            work,
            share: _,
            source: _,
        } = seat;
        work.end(&mut self.core);
    }

    /// Ends a seat of device calls of a side: a call that is out is given back with its port's answer, or as failed.
    pub(crate) fn end_calls<N: Whole, P: Port + Drop>(
        &mut self,
        side: Side,
        seat: IoSeat<N, P>,
    ) -> Share<N>
        ensures back { HasEnded (comes_back side) self.old.core seat.caller.io seat.caller.made self.new.core }
        ensures places { self.new.core.log.places ≡ self.old.core.log.places }
        ensures calls { HandsOutNone self.old.core self.new.core }
        ensures share { result ≡ seat.calls }
    {
        give_up(side, &mut self.core, seat)
    }

    /// The core, which has handed out just the calls that the shares of their ledgers tell, where these are whole.
    pub(crate) fn into_core(self, logged: Share<G>, installed: Share<I>) -> Core<Done>
        ensures boot { result.boot ≡ G.boot }
        ensures log_calls { logged.parts ≡ G.parts → result.log_calls ≡ logged.amount + G.first }
        ensures inst_calls { installed.parts ≡ I.parts → result.inst_calls ≡ installed.amount + I.first }
    {
        let mut locked = self;
        let mut logged = logged;
        let mut installed = installed;
        locked.logged.audit(&mut logged);
        locked.installed.audit(&mut installed);
        let Locked {
            core,
            commits: _,
            logged: _,
            installed: _,
        } = locked;
        core
    }
}
