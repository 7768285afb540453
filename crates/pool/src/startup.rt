//! How the threads of a store begin.
ghost use Rattle.std.specs.Prelude.{◌≡◌, ◌+◌, ◌<◌, length, IfOk};
ghost use Rattle.disk.specs.declared.block.Side.TheVariants.{Home, Log};

use crate::locked::Begun;
use crate::{Locked, Seat, Shared};
use disk::{Port, Source, Splits};
use std::alloc::{AllocError, Global};
use std::sync::Mutex;
use std::sync::ledger::{Blank, Ledger, Share};
use store_images::TakenApart;
use wal_calls::{IoSeat, Whole};

/// What the threads of a store share, and where each sits, with its own part of the device.
pub struct Pool<L: Ledger, G: Whole, I: Whole, P: Port, S> {
    pub shared: Shared<L, G, I>,
    pub seats: Vec<Mutex<Seat<L, S>>>,
    pub logger: IoSeat<G, P>,
    pub installer: IoSeat<I, P>,
}

/// The ledgers of commits, of the logger's calls, and of the installer's, which no type stands for yet.
#[derive(Drop)]
pub struct Ledgers {
    pub commits: Blank,
    pub logged: Blank,
    pub installed: Blank,
}

impl Ledgers {
    ghost use Rattle.std.specs.Prelude.{◌≡◌, ◌+◌};

    /// For so many workers.
    pub fn new(workers: u32) -> Ledgers
        ensures commits { result.commits.parts ≡ workers + 1 }
        ensures calls { (result.logged.parts ≡ 1) × (result.installed.parts ≡ 1) }
    {
        Ledgers {
            commits: Blank::new(u64::from(workers) + 1),
            logged: Blank::new(1),
            installed: Blank::new(1),
        }
    }
}

/// Puts the core of a store behind the lock, and cuts its device up for the logger, the installer and so many workers.
/// What they do bears the core's boot number. The ledgers are those that the types stand for.
pub fn begin<L: Ledger, G: Whole, I: Whole, D: Splits<P, S>, P: Port + Drop, S: Source + Drop>(
    alloc: Global,
    store: TakenApart<D>,
    workers: u32,
    ledgers: Ledgers,
) -> Result<Pool<L, G, I, P, S>, AllocError>
    requires commits { (ledgers.commits.name ≡ L.name) × (ledgers.commits.parts ≡ L.parts)
        × (ledgers.commits.parts ≡ workers + 1) }
    requires logged { (ledgers.logged.name ≡ G.name) × (ledgers.logged.parts ≡ G.parts)
        × (G.all ≡ G.parts) × (ledgers.logged.parts ≡ 1) × (G.first ≡ store.core.log_calls) }
    requires installed { (ledgers.installed.name ≡ I.name) × (ledgers.installed.parts ≡ I.parts)
        × (I.all ≡ I.parts) × (ledgers.installed.parts ≡ 1) × (I.first ≡ store.core.inst_calls) }
    requires sides { (G.side ≡ Log) × (I.side ≡ Home) }
    requires boot { store.core.boot ≡ G.boot }
    ensures seats { IfOk result (λ pool. length pool.seats.items ≡ workers) }
{
    let Begun {
        locked,
        disk,
        commits,
        logged,
        installed,
    } = Locked::begin(store, ledgers);
    let mut rest = commits;
    let (log, home, sources) = disk.split(alloc, workers as usize)?;
    let seats = seats(alloc, workers, &mut rest, sources)?;
    Ok(Pool {
        shared: Shared::new(locked),
        seats,
        logger: IoSeat::new(logged, log),
        installer: IoSeat::new(installed, home),
    })
}

// So many seats, each with a part of the ledger of commits and a source.
fn seats<L: Ledger, S: Drop>(
    alloc: Global,
    workers: u32,
    rest: &mut Share<L>,
    sources: Vec<S>,
) -> Result<Vec<Mutex<Seat<L, S>>>, AllocError>
    requires parts { workers < rest.old.parts }
    requires sources { length sources.items ≡ workers }
    ensures { IfOk result (λ seats. length seats.items ≡ workers) }
{
    let mut sources = sources;
    let mut seats = Vec::with_capacity(alloc, workers as usize)?;
    for _made in 0..workers {
        let Some(source) = sources.pop() else {
            unreachable!();
        };
        let seat = Seat::new(alloc, rest.split_off(1, 0), source);
        match seats.push(Mutex::new(seat)) {
            Ok(()) => {}
            Err(_) => unreachable!(),
        }
    }
    Ok(seats)
}
