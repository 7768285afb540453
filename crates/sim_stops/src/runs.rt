//! Runs of a script's beginnings, and their stops.
ghost use Rattle.std.specs.Prelude.{◌≡◌, IfOk};
ghost use Rattle.sim_stops.specs.Promised.{place_of, promised_by, promised_of};
ghost use Rattle.sim_stops.specs.Runs.{IsRunOf};

use crate::fault::StopsFault;
use crate::script::{Asked, script_of};
use disk::MemDisk;
use procs::is_answered_stable;
use sim_words::WORKERS;
use std::alloc::{AllocError, Global};
use store::{Answer, Committed, Run, Step, run};

/// Runs the first events of a script on a new image: all of them where there are no more.
pub fn run_first(
    alloc: Global,
    text: &[u8],
    asked: Asked,
    count: usize,
) -> Result<(MemDisk, Run), StopsFault>
    ensures { IfOk result (λ it. IsRunOf asked it.0 it.1) }
{
    let mut events = script_of(alloc, text)?.events;
    events.truncate(count);
    let count = events.len();
    let (disk, ran) = run(alloc, asked.make(alloc)?, WORKERS as usize, events);
    let run_record = ran?;
    if run_record.steps.len() != count || run_record.steps.iter().any(has_failed) {
        return Err(StopsFault::NoMemory);
    }
    Ok((disk, run_record))
}

// Whether an event's device call has failed: in memory none does but for want of memory.
fn has_failed(step: &Option<Step>) -> bool {
    matches!(
        step,
        Some(Step::LogIo(false) | Step::InstIo(false) | Step::Read(_, false))
    )
}

/// Before how many events each stop of a run lies: before each device call of log and installer, which writes or settles,
/// and at the end.
pub fn stops_in(alloc: Global, run: &Run) -> Result<Vec<usize>, AllocError> {
    let mut stops = Vec::new(alloc);
    for index in 0..run.steps.len() {
        if is_call(&run.steps[index]) {
            stops.push(index)?;
        }
    }
    stops.push(run.steps.len())?;
    Ok(stops)
}

// Whether an event made a device call that writes or settles.
fn is_call(step: &Option<Step>) -> bool {
    matches!(step, Some(Step::LogIo(_) | Step::InstIo(_)))
}

/// How many entries of its history a stop behind a run leaves at least: up to the last place that was answered as stable.
#[tactic(auto, using(crate::proofs::Counted::promised_more, crate::proofs::Counted::promised_end))]
pub fn promised(run: &Run) -> usize
    ensures { result ≡ promised_of run.now.history.items run.now.answers.items }
{
    let mut least = 0;
    'answers: for answer in &run.answers {
        least = least.max(promised_by(run, answer));
    }
    least
}

// The place that an answer tells as stable, or 0 where it tells none.
fn promised_by(run: &Run, answer: &Answer) -> usize
    ensures { result ≡ promised_by run.now.history.items answer.now.place }
{
    match answer.place {
        None => 0,
        Some(place) => place_of(place.0 as usize, run.history.as_slice()),
    }
}

// This place, if its entry is answered only once it is stable, and else 0.
fn place_of(place: usize, history: &[Committed]) -> usize
    ensures { result ≡ place_of place history.now }
{
    if place == 0 || place > history.len() {
        return 0;
    }
    if is_answered_stable(&history[place - 1].call) {
        place
    } else {
        0
    }
}
