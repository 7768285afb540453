//! The thread that settles changes.
use crate::state::ServerState;
use base::{CHANGED_BLOCKS, LOG_SLOTS};
use disk::Port;
use pool::{Gate, IoSeat, Point, Turn, Whole, logger_io};
use server_sync::Notice;
use std::sync::Wait;
use std::sync::atomic::{AtomicU64, Ordering};
use std::sync::ledger::Ledger;
use std::thread;
use std::time::{Clock, Duration};

// Beside a tail of so many blocks there is room for each change.
const ROOMY_BLOCKS: usize = LOG_SLOTS as usize - CHANGED_BLOCKS;

// Where so many blocks were logged since, the installer doesn't wait for more.
const HALF_OF_LOG: u64 = LOG_SLOTS / 2;

// Counts the blocks that were logged since the installer was last told not to wait.
#[derive(Drop)]
struct Logged<'a> {
    blocks: &'a AtomicU64,
}

impl Gate for Logged<'_> {
    fn pass(&self, point: Point) {
        if point == Point::Log {
            self.blocks.fetch_add(1, Ordering::SeqCst);
        }
    }
}

/// Settles what is committed, and tells the seats that wait for it, until the end is told and all is settled,
/// or the store is broken. While it waits, others may have its seat.
pub fn log_all<L: Ledger, G: Whole, I: Whole, P: Port, S, R: Wait + Clock>(
    rt: &R,
    server: &ServerState<L, G, I, P, S>,
) {
    let mut settled_seen = 0;
    for _ in rt.forever() {
        let turn = {
            let mut seat = server.logger.lock(rt);
            log_up_to(rt, server, &mut *seat, &mut settled_seen, u64::MAX)
        };
        if turn == Turn::Broken || !wait(rt, server) {
            break;
        }
    }
    // A store that is broken settles no more: what waits is answered so.
    server.sync.log_waits.advance_settled(rt, u64::MAX);
}

/// Settles what is committed up to a place, by the logger's seat, where the logger doesn't have it; and wakes the
/// logger where more is to be settled.
pub fn log_single<L: Ledger, G: Whole, I: Whole, P: Port, S, R: Wait>(
    rt: &R,
    server: &ServerState<L, G, I, P, S>,
    place: u64,
) {
    if let Some(mut seat) = server.logger.try_lock() {
        let mut settled_seen = place.saturating_sub(1);
        let _ = log_up_to(rt, server, &mut *seat, &mut settled_seen, place);
    }
    if !server.shared.summary(rt).is_settled {
        server.sync.to_log.notify(rt);
    }
}

// Makes the log's calls by the logger's seat, until what was told as settled comes to a place, nothing can be logged,
// or the store is broken.
fn log_up_to<L: Ledger, G: Whole, I: Whole, P: Port, S, R: Wait>(
    rt: &R,
    server: &ServerState<L, G, I, P, S>,
    seat: &mut IoSeat<G, P>,
    settled_seen: &mut u64,
    place: u64,
) -> Turn {
    let logged = Logged {
        blocks: &server.sync.logged,
    };
    for _ in rt.forever() {
        match server.shared.log(rt, seat) {
            Turn::Broken => return Turn::Broken,
            Turn::Moved => {
                logger_io(seat, &logged);
                if tell(rt, server, settled_seen) {
                    wake_installer(rt, server);
                }
                if *settled_seen >= place {
                    return Turn::Moved;
                }
            }
            Turn::Idle => {
                if !logger_io(seat, &logged) {
                    return Turn::Idle;
                }
            }
        }
    }
    Turn::Idle
}

// Tells that there is room, and what is settled. True where that is more than was told.
fn tell<L: Ledger, G: Whole, I: Whole, P: Port, S, R: Wait>(
    rt: &R,
    server: &ServerState<L, G, I, P, S>,
    settled_seen: &mut u64,
) -> bool {
    let summary = server.shared.summary(rt);
    if summary.tail <= ROOMY_BLOCKS {
        server.sync.rounds.next(rt);
    }
    let place = summary.settled.0;
    if place <= *settled_seen {
        return false;
    }
    *settled_seen = place;
    server.sync.log_waits.advance_settled(rt, place);
    true
}

// Tells the installer of a group that is settled.
fn wake_installer<L: Ledger, G: Whole, I: Whole, P: Port, S, R: Wait>(
    rt: &R,
    server: &ServerState<L, G, I, P, S>,
) {
    if server.sync.logged.load(Ordering::SeqCst) < HALF_OF_LOG {
        server.sync.to_install.notify(rt);
        return;
    }
    server.sync.logged.store(0, Ordering::SeqCst);
    server.sync.to_install.notify_now(rt);
}

// Waits for commits. False where none will come and all is settled.
fn wait<L: Ledger, G: Whole, I: Whole, P: Port, S, R: Wait + Clock>(
    rt: &R,
    server: &ServerState<L, G, I, P, S>,
) -> bool {
    let summary = server.shared.summary(rt);
    if summary.broken {
        return true;
    }
    if !summary.is_settled {
        // The log has no room.
        server.sync.to_install.notify_now(rt);
    }
    if server.sync.to_log.wait(rt) != Notice::End {
        return true;
    }
    if summary.is_settled {
        return false;
    }
    thread::sleep(rt, Duration::from_millis(1));
    true
}
