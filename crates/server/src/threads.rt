//! The server: how it begins and ends.
ghost use Rattle.std.specs.Prelude.{◌≡◌, IfErr, IfOk, Ok};
ghost use Rattle.std.specs.Thread.{IsSend, IsSync};
ghost use Rattle.server.specs.Announcing.{Announces};

use crate::acceptor::accept_all;
use crate::announcer::Announcer;
use crate::installer::install_all;
use crate::logger::log_all;
use crate::state::{ServerState, Synchronization};
use crate::workers::{finish_all, work_all};
use base::MOST_JOB_THREADS;
use disk::{Port, Source};
use pool::{Ended, Pool, Unsettled, Whole, end};
use std::alloc::Global;
use std::net::TcpListener;
use std::sync::Wait;
use std::sync::ledger::Ledger;
use std::thread;
use std::thread::{JoinHandle, Threads};
use std::time::Clock;

/// Why a server ended otherwise than with all settled.
#[derive(Clone, Copy, Debug, PartialEq, Eq)]
pub enum ServeFault {
    /// No memory, or no thread, was left to begin with.
    Memory,
    /// That it can serve couldn't be told.
    Output,
    /// A write or a barrier of the device failed, so not all is settled.
    Device,
}

/// Serves so many connections, or without end where that is 0, and then settles all, and gives the core back. It is
/// announced once memory and threads are there; where that fails no client is served.
pub fn serve<L, G, I, P, S, R, A>(
    rt: &R,
    alloc: Global,
    pool: Pool<L, G, I, P, S>,
    listener: &TcpListener,
    connections: u32,
    announcer: A,
) -> (A, Result<Ended, ServeFault>)
where
    L: Ledger + Send + Sync,
    G: Whole + Send + Sync,
    I: Whole + Send + Sync,
    P: Port + Send + Drop,
    S: Source + Send + Drop,
    R: Threads + Wait + Clock + Sync,
    A: Announcer + Drop,
    ensures announces_result { Announces A.tells announcer result.1 result.0 }
    ensures boot { IfOk result.1 (λ ended. ended.core.boot ≡ G.boot) }
{
    let settled = pool.shared.summary(rt).settled.0;
    let Ok(sync) = Synchronization::new(alloc, pool.seats.len(), settled) else {
        drop(end(rt, pool));
        return (announcer, Err(ServeFault::Memory));
    };
    let server = ServerState::new(alloc, pool, sync);
    let (announcer, ran) = run(rt, &server, listener, connections, announcer);
    let ended = all_settled(end(rt, server.into_pool()));
    match ran {
        Ok(()) => (announcer, ended),
        Err(fault) => (announcer, Err(fault)),
    }
}

// The core with all settled, or that the device failed.
fn all_settled(ended: Result<Ended, Unsettled>) -> Result<Ended, ServeFault>
    ensures same { IfOk result (λ core. ended ≡ Ok core) }
    ensures fault { IfErr result (λ fault. fault ≡ ServeFault.Device) }
{
    match ended {
        Ok(core) => Ok(core),
        Err(Unsettled) => Err(ServeFault::Device),
    }
}

// Runs the threads, until so many connections have ended and all is settled. No connection is accepted before that it
// can serve was told: then each thread is there, and the memory to begin with.
fn run<L, G, I, P, S, R, A>(
    rt: &R,
    server: &ServerState<L, G, I, P, S>,
    listener: &TcpListener,
    connections: u32,
    announcer: A,
) -> (A, Result<(), ServeFault>)
where
    L: Ledger + Send + Sync,
    G: Whole + Send + Sync,
    I: Whole + Send + Sync,
    P: Port + Send + Drop,
    S: Source + Send + Drop,
    R: Threads + Wait + Clock + Sync,
    A: Announcer + Drop,
    ensures { Announces A.tells announcer result.1 result.0 }
{
    let threads = server.seats.len().min(MOST_JOB_THREADS);
    let Ok(mut working) = Vec::with_capacity(server.alloc, threads) else {
        return (announcer, Err(ServeFault::Memory));
    };
    thread::scope(
        thread::scope_env(),
        rt,
        move |scope| -> (A, Result<(), ServeFault>)
            requires { IsSend L.row × IsSync L.row × IsSend G.row × IsSync G.row × IsSend I.row × IsSync I.row
                × IsSend P.row × IsSend S.row × IsSync R.row }
            ensures { Announces A.tells announcer result.1 result.0 }
        {
            let logger = scope.spawn(move || log_all(rt, server)).ok();
            let installer = scope.spawn(move || install_all(rt, server)).ok();
            let finisher = scope.spawn(move || finish_all(rt, server)).ok();
            let mut all = logger.is_some() && installer.is_some() && finisher.is_some();
            for _ in 0..threads {
                match scope.spawn(move || work_all(rt, server)) {
                    // There is room for each.
                    Ok(thread) => drop(working.push(thread)),
                    Err(_) => all = false,
                }
            }
            let (announcer, begun) = announce(announcer, all);
            if begun.is_ok() {
                accept_all(rt, server, listener, connections);
            }
            // No job comes any more. Those that wait are done first, and then each seat is freed by who has it.
            server.sync.jobs.end(rt, threads);
            join_all(rt, working);
            server.sync.free.wait_for_all(rt);
            server.sync.to_log.end(rt);
            join(rt, logger);
            server.sync.log_waits.end(rt);
            join(rt, finisher);
            server.sync.to_install.end(rt);
            join(rt, installer);
            (announcer, begun)
        },
    )
}

// Tells that the server can serve, where all of its threads are there.
fn announce<A: Announcer>(announcer: A, all: bool) -> (A, Result<(), ServeFault>)
    ensures { Announces A.tells announcer result.1 result.0 }
{
    if !all {
        return (announcer, Err(ServeFault::Memory));
    }
    match announcer.announce() {
        (announcer, true) => (announcer, Ok(())),
        (announcer, false) => (announcer, Err(ServeFault::Output)),
    }
}

// Waits for threads to end.
fn join_all<R: Threads>(rt: &R, threads: Vec<JoinHandle<()>>) {
    for thread in threads {
        thread.join(rt);
    }
}

// Waits for a thread to end, if it was made.
fn join<R: Threads>(rt: &R, thread: Option<JoinHandle<()>>) {
    match thread {
        Some(thread) => thread.join(rt),
        None => {}
    }
}
