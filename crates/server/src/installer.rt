//! The thread that brings settled changes home.
use crate::state::ServerState;
use base::INSTALL_MILLISECONDS;
use disk::Port;
use pool::{Gate, Point, Turn, Whole, installer_io};
use server_sync::Notice;
use std::sync::Wait;
use std::sync::atomic::{AtomicU64, Ordering};
use std::sync::ledger::Ledger;
use std::time::{Clock, Duration};

// Counts the barriers of the home side: a batch ends with the second.
#[derive(Drop)]
struct Barriers {
    count: AtomicU64,
}

impl Barriers {
    fn count(&self) -> u64 {
        self.count.load(Ordering::SeqCst)
    }
}

impl Gate for Barriers {
    fn pass(&self, point: Point) {
        if point == Point::HomeBarrier {
            self.count.fetch_add(1, Ordering::SeqCst);
        }
    }
}

// The barriers of a batch: behind its blocks, and behind the start that is raised over them.
const BARRIERS_OF_BATCH: u64 = 2;

/// Brings what is settled home, seldom and in large batches, until the end is told and nothing is left, or the
/// store is broken.
pub fn install_all<L: Ledger, G: Whole, I: Whole, P: Port, S, R: Wait + Clock>(
    rt: &R,
    server: &ServerState<L, G, I, P, S>,
) {
    for _ in rt.forever() {
        let notice = wait(rt, server);
        let goes_on = match notice {
            Notice::End => install(rt, server, u64::MAX),
            _ => install(rt, server, BARRIERS_OF_BATCH),
        };
        // There is room in the log, and fewer commits are kept, or the store is broken.
        server.sync.to_log.notify(rt);
        server.sync.rounds.next(rt);
        if !goes_on || notice == Notice::End {
            return;
        }
    }
}

// Waits for work, and a while longer for more of it, where that isn't urgent.
fn wait<L: Ledger, G: Whole, I: Whole, P: Port, S, R: Wait + Clock>(
    rt: &R,
    server: &ServerState<L, G, I, P, S>,
) -> Notice {
    match server.sync.to_install.wait(rt) {
        Notice::Work => server
            .sync
            .to_install
            .wait_until_now(rt, Duration::from_millis(INSTALL_MILLISECONDS)),
        notice => notice,
    }
}

// Brings home what is settled, up to so many barriers. False where the store is broken.
fn install<L: Ledger, G: Whole, I: Whole, P: Port, S, R: Wait>(
    rt: &R,
    server: &ServerState<L, G, I, P, S>,
    most: u64,
) -> bool {
    let mut seat = server.installer.lock(rt);
    let barriers = Barriers {
        count: AtomicU64::new(0),
    };
    for _ in rt.forever() {
        match server.shared.install(rt, &mut *seat) {
            Turn::Broken => return false,
            Turn::Moved => {
                let made = installer_io(&mut *seat, &barriers);
                if !made && barriers.count() >= most {
                    // More may be settled since: it stays for the next batch.
                    server.sync.to_install.notify(rt);
                    return true;
                }
            }
            Turn::Idle => {
                if !installer_io(&mut *seat, &barriers) {
                    return true;
                }
            }
        }
    }
    true
}
