//! From an open store over a file to a server.
ghost use Rattle.std.specs.Prelude.{◌≡◌, ◌+◌, IfOk};
ghost use Rattle.disk.specs.declared.block.Side.TheVariants.{Home, Log};
ghost use Rattle.server.specs.Announcing.{Announces};

use crate::announcer::Announcer;
use crate::threads::{ServeFault, serve};
use disk_file::{BlockFile, FilePort, FileSource, ThreadedDisk};
use pool::{Ended, Ledgers, Whole, begin};
use std::alloc::Global;
use std::marker::Brand;
use std::net::TcpListener;
use std::sync::Wait;
use std::sync::ledger::Ledger;
use std::thread::Threads;
use std::time::Clock;
use store_images::{Store, TakenApart, parts};

/// Serves from an open store: so many workers, and so many connections, or without end where that is 0. Then
/// all is settled, and the core is given back. It is announced once memory and threads are there; where that fails no client is served.
pub fn serve_store<F, R, A>(
    rt: &R,
    alloc: Global,
    store: Store<ThreadedDisk<F>>,
    listener: &TcpListener,
    workers: u32,
    connections: u32,
    announcer: A,
) -> (A, Result<Ended, ServeFault>)
where
    F: BlockFile + Send + Sync,
    R: Threads + Wait + Clock + Sync,
    A: Announcer + Drop,
    ensures announces_result { Announces A.tells announcer result.1 result.0 }
    ensures boot { IfOk result.1 (λ ended. ended.core.boot ≡ store.core.boot) }
{
    let opened = Opened {
        parts: parts(store),
        workers,
    };
    let ledgers = Ledgers::new(workers);
    serve_opened::<Brand, Brand, Brand, F, R, A>(
        rt,
        alloc,
        opened,
        ledgers,
        listener,
        connections,
        announcer,
    )
}

// What was opened, and how many workers are to use it.
#[derive(Drop)]
struct Opened<F: BlockFile> {
    parts: TakenApart<ThreadedDisk<F>>,
    workers: u32,
}

// Serves by the ledgers that the types stand for.
fn serve_opened<L, G, I, F, R, A>(
    rt: &R,
    alloc: Global,
    opened: Opened<F>,
    ledgers: Ledgers,
    listener: &TcpListener,
    connections: u32,
    announcer: A,
) -> (A, Result<Ended, ServeFault>)
where
    L: Ledger + Send + Sync,
    G: Whole + Send + Sync,
    I: Whole + Send + Sync,
    F: BlockFile + Send + Sync,
    R: Threads + Wait + Clock + Sync,
    A: Announcer + Drop,
    requires commits { (ledgers.commits.name ≡ L.name) × (ledgers.commits.parts ≡ L.parts)
        × (ledgers.commits.parts ≡ opened.workers + 1) }
    requires logged { (ledgers.logged.name ≡ G.name) × (ledgers.logged.parts ≡ G.parts)
        × (G.all ≡ G.parts) × (ledgers.logged.parts ≡ 1) × (G.first ≡ opened.parts.core.log_calls) }
    requires installed { (ledgers.installed.name ≡ I.name) × (ledgers.installed.parts ≡ I.parts)
        × (I.all ≡ I.parts) × (ledgers.installed.parts ≡ 1) × (I.first ≡ opened.parts.core.inst_calls) }
    requires sides { (G.side ≡ Log) × (I.side ≡ Home) }
    requires boot { opened.parts.core.boot ≡ G.boot }
    ensures announces_result { Announces A.tells announcer result.1 result.0 }
    ensures boot { IfOk result.1 (λ ended. ended.core.boot ≡ opened.parts.core.boot) }
{
    let Opened { parts, workers } = opened;
    match begin::<L, G, I, ThreadedDisk<F>, FilePort<F>, FileSource<F>>(
        alloc, parts, workers, ledgers,
    ) {
        Ok(pool) => serve(rt, alloc, pool, listener, connections, announcer),
        Err(_) => (announcer, Err(ServeFault::Memory)),
    }
}
