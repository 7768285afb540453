//! How the threads of a store end.
ghost use Rattle.std.specs.Prelude.{◌≡◌, ◌+◌, ◌⊎◌, false, true, IfErr, IfOk};
ghost use Rattle.circ.specs.Log.Log.{settled_place};

use crate::Pool;
use disk::Port;
use procs::Done;
use std::sync::Wait;
use std::sync::ledger::Ledger;
use txn::Core;
use wal_calls::Whole;

/// A core that came out of its lock with each of its commits settled, and that isn't broken. Only `end` makes one.
#[derive(Drop)]
pub struct Ended {
    core: Core<Done>,
    pub ghost settled: { settled_place core.log ≡ core.log.places },
    pub ghost sound: { core.log.broken ≡ false },
}

impl Ended {
    /// The core.
    pub fn core(&self) -> &Core<Done>
        ensures { result.now ≡ self.now.core }
    {
        &self.core
    }
}

/// A commit isn't settled, or a write or a barrier has failed.
#[derive(Clone, Copy, Debug)]
pub struct Unsettled;

/// Gives back what the seats have begun, and takes the core out of its lock: it has handed out just the calls that the
/// seats of logger and installer have taken, where these have the whole ledgers.
pub fn end<L: Ledger, G: Whole, I: Whole, P: Port + Drop, S: Drop, R: Wait>(
    rt: &R,
    pool: Pool<L, G, I, P, S>,
) -> Result<Ended, Unsettled>
    ensures boot { IfOk result (λ ended. ended.core.boot ≡ G.boot) }
    ensures log_calls { G.all ≡ G.parts → IfOk result (λ ended. ended.core.log_calls
        ≡ pool.logger.calls.amount + G.first) }
    ensures inst_calls { I.all ≡ I.parts → IfOk result (λ ended. ended.core.inst_calls
        ≡ pool.installer.calls.amount + I.first) }
{
    let Pool {
        shared,
        seats,
        logger,
        installer,
    } = pool;
    let mut seats = seats;
    while let Some(seat) = seats.pop() {
        shared.leave(rt, seat.into_inner());
    }
    seats.destroy_empty();
    let logged = shared.leave_log(rt, logger);
    let installed = shared.leave_install(rt, installer);
    settled(shared.into_core(logged, installed))
}

// The core, if each of its commits is settled and it isn't broken.
fn settled(core: Core<Done>) -> Result<Ended, Unsettled>
    ensures core { IfOk result (λ ended. ended.core ≡ core) }
    ensures refused { IfErr result (λ _. (settled_place core.log ≡ core.log.places → ⊥) ⊎ (core.log.broken ≡ true)) }
{
    if core.is_settled() && !core.broken() {
        Ok(Ended { core })
    } else {
        Err(Unsettled)
    }
}
