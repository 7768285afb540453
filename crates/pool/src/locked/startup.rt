//! How what lies behind the lock begins.

use crate::Ledgers;
use crate::locked::Locked;
use std::sync::ledger::{Ledger, Share};
use store_images::TakenApart;
use wal_calls::Whole;

/// What lies behind the lock when it begins; and the device, and the whole shares of the ledgers, for the seats.
pub(crate) struct Begun<L: Ledger, G: Whole, I: Whole, D> {
    pub(crate) locked: Locked<L, G, I>,
    pub(crate) disk: D,
    pub(crate) commits: Share<L>,
    pub(crate) logged: Share<G>,
    pub(crate) installed: Share<I>,
}

impl<L: Ledger, G: Whole, I: Whole> Locked<L, G, I> {
    ghost use Rattle.std.specs.Prelude.{◌≡◌, ◌<◌};
    ghost use Rattle.disk.specs.declared.block.Side.TheVariants.{Home, Log};

    /// Puts the core of a store there, as it is, with books of its commits so far and of no device call.
    pub(crate) fn begin<D: Drop>(store: TakenApart<D>, ledgers: Ledgers) -> Begun<L, G, I, D>
        requires commits { (ledgers.commits.name ≡ L.name) × (ledgers.commits.parts ≡ L.parts)
            × (0 < ledgers.commits.parts) }
        requires logged { (ledgers.logged.name ≡ G.name) × (ledgers.logged.parts ≡ G.parts)
            × (G.first ≡ store.core.log_calls) }
        requires installed { (ledgers.installed.name ≡ I.name) × (ledgers.installed.parts ≡ I.parts)
            × (I.first ≡ store.core.inst_calls) }
        requires sides { (G.side ≡ Log) × (I.side ≡ Home) }
        requires boot { store.core.boot ≡ G.boot }
        ensures core { result.locked.core ≡ store.core }
        ensures disk { result.disk ≡ store.disk }
        ensures commits { result.commits.parts ≡ L.parts }
        ensures logged { (result.logged.parts ≡ G.parts) × (result.logged.amount ≡ 0) }
        ensures installed { (result.installed.parts ≡ I.parts) × (result.installed.amount ≡ 0) }
    {
        let Ledgers {
            commits,
            logged,
            installed,
        } = ledgers;
        let (core, disk) = store.into_both();
        let (mut commits, mut rest) = commits.open::<L>();
        commits.add(&mut rest, core.places().0);
        let (logged, logs) = logged.open::<G>();
        let (installed, installs) = installed.open::<I>();
        Begun {
            locked: Locked {
                core,
                commits,
                logged,
                installed,
            },
            disk,
            commits: rest,
            logged: logs,
            installed: installs,
        }
    }
}
