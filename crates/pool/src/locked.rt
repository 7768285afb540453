//! What lies behind the lock. Nothing but what stands here gets at it.
ghost use Rattle.std.specs.Prelude.{◌≡◌, ◌+◌};
ghost use Rattle.disk.specs.declared.block.Side.TheVariants.{Home, Log};

mod shutdown;
mod startup;
mod steps;
mod summary;

use procs::Done;
pub(crate) use startup::Begun;
use std::sync::ledger::{Book, Ledger};
pub use steps::{installer_step, logger_step, worker_step};
pub use summary::CoreSummary;
use txn::Core;
use wal_calls::Whole;

/// The core, the book of its commits, and those of the device calls that it has handed out. Its type keeps that the
/// core's counts of commits and of device calls are the books' totals, with the calls that were handed out before the
/// books began; that these are of the log side and of the home side; and that the core has the boot number that the
/// ledgers name.
#[derive(Drop)]
pub struct Locked<L: Ledger, G: Whole, I: Whole> {
    core: Core<Done>,
    commits: Book<L>,
    logged: Book<G>,
    installed: Book<I>,
    pub ghost counted: { commits.total ≡ core.log.places },
    pub ghost log_calls: { logged.total + G.first ≡ core.log_calls },
    pub ghost inst_calls: { installed.total + I.first ≡ core.inst_calls },
    pub ghost log_side: { G.side ≡ Log },
    pub ghost home_side: { I.side ≡ Home },
    pub ghost booted: { core.boot ≡ G.boot },
}
