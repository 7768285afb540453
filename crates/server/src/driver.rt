//! Driving a seat: locked steps and reads by turns.
use crate::batch::Batch;
use crate::state::{ServerState, is_crowded};
use base::{
    BATCH_CALLS, FIRST_SLEEP_MICROSECONDS, FULL_MILLISECONDS, LONGEST_SLEEP_MICROSECONDS,
    STEPS_IN_A_ROW, YIELDS,
};
use disk::{Port, Source};
use pool::{Answer, CoreSummary, Job, NoGate, Seat, StepResult, Turn, Whole, worker_io};
use server_sync::{SeatAwaitingLog, SeatKey};
use std::sync::Wait;
use std::sync::ledger::Ledger;
use std::thread;
use std::time::{Clock, Duration};

// How driving a seat ends.
#[derive(Drop)]
enum Driven<L: Ledger> {
    Answered(Answer<L>),
    // Its change waits for this place to be settled.
    Waits(u64),
    // It has no call.
    Empty,
}

/// What came of driving a seat to its answer.
#[derive(Drop)]
pub enum Seen<L: Ledger> {
    Answered(Answer<L>),
    /// Its change waits to be settled: it waits for the log, and the finisher answers it.
    SeatAwaitingLog,
    /// It had no call, so none is answered.
    Nothing,
}

/// What came of the calls of a batch that were driven.
#[derive(Clone, Copy)]
pub struct BatchOutcome {
    /// No memory was refused for an answer.
    pub is_well: bool,
    /// A seat was free for the first of them.
    pub is_begun: bool,
    /// Something was committed, and so much is kept that it waits until some commits are home.
    pub is_crowded: bool,
    /// Its one call waits to be settled, and no other has a seat. The logger wasn't told of it.
    pub is_single: bool,
}

/// Hands a free seat a job, and drives it to its answer, or leaves it to wait for the log.
pub fn answer_in<L: Ledger, G: Whole, I: Whole, P: Port, S: Source, R: Wait + Clock>(
    rt: &R,
    server: &ServerState<L, G, I, P, S>,
    key: SeatKey,
    job: Job,
) -> Seen<L> {
    hand(rt, server, &key, job);
    see_through(rt, server, key)
}

// Hands a seat a job, at the moment of the call.
fn hand<L: Ledger, G: Whole, I: Whole, P: Port, S, R: Wait + Clock>(
    rt: &R,
    server: &ServerState<L, G, I, P, S>,
    key: &SeatKey,
    job: Job,
) {
    let moment = server.sync.moment(rt);
    let Some(seat) = server.seats.at(key) else {
        return;
    };
    let _ = seat.lock(rt).hand(job, moment);
}

/// Drives the calls of a batch in a row, one after another in a free seat, up to the first that has to wait for
/// something but to be settled, that makes more steps than one may in a row, or whose plan may take long. The jobs that are left come behind it, or found no seat free. Who `logs` settles
/// the change of one that is alone.
pub fn drive_batch<L: Ledger, G: Whole, I: Whole, P: Port, S, R: Wait + Clock>(
    rt: &R,
    server: &ServerState<L, G, I, P, S>,
    batch: &mut Batch<L>,
    logs: bool,
) -> BatchOutcome {
    let jobs = batch.jobs.len();
    let (is_well, summary) = drive_under_lock(rt, server, batch);
    let is_single = logs && batch.is_one_that_waits() && server.sync.free.is_one_out(rt);
    let is_crowded = match summary {
        Some(summary) => server.tell_of_commit(rt, summary, is_single),
        None => false,
    };
    BatchOutcome {
        is_well,
        is_begun: batch.jobs.len() < jobs,
        is_crowded,
        is_single,
    }
}

// The same under the scheduler lock: with how far the core is where something was committed.
fn drive_under_lock<L: Ledger, G: Whole, I: Whole, P: Port, S, R: Wait + Clock>(
    rt: &R,
    server: &ServerState<L, G, I, P, S>,
    batch: &mut Batch<L>,
) -> (bool, Option<CoreSummary>) {
    let _steps = server.sync.scheduler.lock(rt);
    let mut is_well = true;
    let mut committed = false;
    let mut free = None;
    for _ in 0..BATCH_CALLS {
        if batch.jobs.is_empty() {
            break;
        }
        let Some(key) = seat_for_next(rt, server, free.take()) else {
            break;
        };
        let Some(job) = batch.jobs.pop_front() else {
            free = Some(key);
            break;
        };
        hand(rt, server, &key, job);
        let (first, made) = first_steps(rt, server, &key);
        committed = committed || made;
        match first {
            First::Answered(answer) => {
                free = Some(key);
                is_well = batch.answers.push_back(answer).is_ok() && is_well;
            }
            First::Waits(place) => {
                let awaiting_log = SeatAwaitingLog { place, seat: key };
                is_well = batch.waiting.push_back(awaiting_log).is_ok() && is_well;
            }
            First::HeldUp => {
                batch.held_up = Some(key);
                break;
            }
        }
    }
    if let Some(key) = free {
        server.sync.free.put(rt, key);
    }
    let summary = if committed {
        Some(server.shared.summary(rt))
    } else {
        None
    };
    (is_well, summary)
}

// The seat that has just answered, or another that is free.
fn seat_for_next<L: Ledger, G: Whole, I: Whole, P: Port, S, R: Wait>(
    rt: &R,
    server: &ServerState<L, G, I, P, S>,
    free: Option<SeatKey>,
) -> Option<SeatKey> {
    match free {
        Some(key) => Some(key),
        None => server.sync.free.try_take(rt),
    }
}

/// Drives a seat to its answer, and frees it; or leaves it to wait for the log, where its change waits to be settled.
pub fn see_through<L: Ledger, G: Whole, I: Whole, P: Port, S: Source, R: Wait + Clock>(
    rt: &R,
    server: &ServerState<L, G, I, P, S>,
    key: SeatKey,
) -> Seen<L> {
    let mut key = key;
    for _ in rt.forever() {
        match go_on(rt, server, &key) {
            Driven::Answered(answer) => {
                server.sync.free.put(rt, key);
                return Seen::Answered(answer);
            }
            Driven::Waits(place) => {
                let awaiting_log = SeatAwaitingLog { place, seat: key };
                match server.sync.log_waits.await_log(rt, awaiting_log) {
                    Ok(()) => return Seen::SeatAwaitingLog,
                    Err(back) => key = back,
                }
            }
            Driven::Empty => {
                server.sync.free.put(rt, key);
                return Seen::Nothing;
            }
        }
    }
    Seen::Nothing
}

// Drives a seat until it answers or waits to be settled.
fn go_on<L: Ledger, G: Whole, I: Whole, P: Port, S: Source, R: Wait + Clock>(
    rt: &R,
    server: &ServerState<L, G, I, P, S>,
    key: &SeatKey,
) -> Driven<L> {
    let Some(seat) = server.seats.at(key) else {
        return Driven::Empty;
    };
    let mut seat = seat.lock(rt);
    let mut deferred = 0;
    for _ in rt.forever() {
        if seat.is_due() {
            worker_io(&mut *seat, key.number(), &NoGate);
        }
        if seat.plans_long() {
            seat.plan(server.alloc);
        }
        let rounds = server.sync.rounds.count();
        let (made, summary) = steps(rt, server, &mut *seat);
        if let Some(summary) = summary {
            if server.tell_of_commit(rt, summary, false) {
                wait_while_crowded(rt, server);
            }
        }
        if let Some(answer) = seat.take_answer() {
            return Driven::Answered(answer);
        }
        match seat.step_result() {
            StepResult::LockDeferred => back_off(rt, &mut deferred),
            StepResult::Full => wait_for_log_space(rt, server, rounds),
            StepResult::Nothing | StepResult::Committed => deferred = 0,
        }
        if let Some(place) = seat.waits() {
            return Driven::Waits(place.0);
        }
        if made.turn == Turn::Idle && !seat.is_due() {
            return Driven::Empty;
        }
    }
    Driven::Empty
}

// What steps in a row came to.
#[derive(Clone, Copy)]
struct Made {
    turn: Turn,
    committed: bool,
}

// What the first steps of a call came to.
#[derive(Drop)]
enum First<L: Ledger> {
    Answered(Answer<L>),
    // Its change waits for this place to be settled.
    Waits(u64),
    // It has to wait for something else, has made many steps in a row, or is to make a plan that may take long.
    HeldUp,
}

// The steps in a row of a seat that was just handed a job, under the scheduler lock, and whether one was a commit.
fn first_steps<L: Ledger, G: Whole, I: Whole, P: Port, S, R: Wait>(
    rt: &R,
    server: &ServerState<L, G, I, P, S>,
    key: &SeatKey,
) -> (First<L>, bool) {
    let Some(seat) = server.seats.at(key) else {
        return (First::HeldUp, false);
    };
    let mut seat = seat.lock(rt);
    let made = steps_in_a_row(rt, server, &mut *seat);
    let first = match (seat.take_answer(), seat.waits()) {
        (Some(answer), _) => First::Answered(answer),
        (None, Some(place)) => First::Waits(place.0),
        (None, None) => First::HeldUp,
    };
    (first, made.committed)
}

// Steps of a seat in a row, as far as none has to wait for something, and how far the core is where one of them was
// a commit. Of those who drive seats one at a time makes them, so that the lock round the core, which each step
// takes, is seldom taken by another.
fn steps<L: Ledger, G: Whole, I: Whole, P: Port, S, R: Wait>(
    rt: &R,
    server: &ServerState<L, G, I, P, S>,
    seat: &mut Seat<L, S>,
) -> (Made, Option<CoreSummary>) {
    let _steps = server.sync.scheduler.lock(rt);
    let made = steps_in_a_row(rt, server, seat);
    let summary = if made.committed {
        Some(server.shared.summary(rt))
    } else {
        None
    };
    (made, summary)
}

// The steps, under the scheduler lock. It is let go before a plan that may take long, which is made without it, and after
// so many steps in a row, so that others come to theirs.
fn steps_in_a_row<L: Ledger, G: Whole, I: Whole, P: Port, S, R: Wait>(
    rt: &R,
    server: &ServerState<L, G, I, P, S>,
    seat: &mut Seat<L, S>,
) -> Made {
    let mut committed = false;
    let mut has_polled = false;
    for _ in 0..STEPS_IN_A_ROW {
        let turn = server.shared.work(rt, server.alloc, seat);
        let step_result = seat.step_result();
        committed = committed || step_result == StepResult::Committed;
        let is_held_up = step_result == StepResult::LockDeferred
            || step_result == StepResult::Full
            || seat.is_due();
        let waits = seat.waits().is_some();
        if turn != Turn::Moved || is_held_up || (waits && has_polled) || seat.plans_long() {
            return Made { turn, committed };
        }
        has_polled = waits;
    }
    Made {
        turn: Turn::Moved,
        committed,
    }
}

// Waits until there may be room in the log.
fn wait_for_log_space<L: Ledger, G: Whole, I: Whole, P: Port, S, R: Wait + Clock>(
    rt: &R,
    server: &ServerState<L, G, I, P, S>,
    rounds: u64,
) {
    server.sync.to_log.notify(rt);
    server.sync.to_install.notify_now(rt);
    let patience = Duration::from_millis(FULL_MILLISECONDS);
    server.sync.rounds.wait_for_next(rt, rounds, patience);
}

/// Waits while too many commits are kept, which pin too many blocks, as bringing them home is slow.
pub fn wait_while_crowded<L: Ledger, G: Whole, I: Whole, P: Port, S, R: Wait + Clock>(
    rt: &R,
    server: &ServerState<L, G, I, P, S>,
) {
    for _ in rt.forever() {
        let rounds = server.sync.rounds.count();
        if !is_crowded(server.shared.summary(rt)) {
            return;
        }
        let patience = Duration::from_millis(FULL_MILLISECONDS);
        server.sync.rounds.wait_for_next(rt, rounds, patience);
    }
}

// Lets others go on: yields at first, and then sleeps longer and longer.
fn back_off<R: Clock>(rt: &R, deferred: &mut u32) {
    *deferred = deferred.saturating_add(1);
    if *deferred <= YIELDS {
        thread::yield_now();
        return;
    }
    let times = u64::from(*deferred - YIELDS);
    let wanted = FIRST_SLEEP_MICROSECONDS.saturating_mul(times);
    let microseconds = wanted.min(LONGEST_SLEEP_MICROSECONDS);
    thread::sleep(rt, Duration::from_micros(microseconds));
}
