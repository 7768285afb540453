//! The stops of a script's run, one after another.
ghost use Rattle.std.specs.Prelude.{IfOk, IsOk};
ghost use Rattle.sim_words.specs.Script.{stops_of};
ghost use Rattle.sim_stops.specs.Tried.{IsTried, IsTriedStop};

use crate::beginnings::files_behind;
use crate::choices::{choice, choices, counts_of};
use crate::fault::StopsFault;
use crate::left::Left;
use crate::openings::try_image;
use crate::runs::{promised, run_first, stops_in};
use crate::script::{Asked, script_of};
use crate::wanted::Wanted;
use std::alloc::Global;
use store::{Line, Progress};

// Of up to so many blocks with several contents each choice is tried.
const MOST_AT_A_STOP: usize = 10;

/// What was tried: so many stops, and so many images that they may leave, without those of openings.
#[derive(Clone, Copy, Debug, PartialEq, Eq)]
pub struct Tried {
    pub stops: u64,
    pub images: u64,
}

// A stop of a run: behind so many of so many calls, and before this event.
#[derive(Clone, Copy)]
struct Stop {
    calls: usize,
    all: usize,
    event: usize,
}

/// Tries each stop of a script. What a crash may leave there is opened, and again behind each stop of its opening. Its files
/// are to be those behind a beginning of the entries that were committed by then, up to each that was answered as stable
/// at least. Meanwhile `progress` is told how far it is. The text is a script whose stops may be tried.
pub fn try_stops<P: Progress>(
    alloc: Global,
    text: &[u8],
    progress: &mut P,
) -> Result<Tried, StopsFault>
    requires { IsOk (stops_of text.now) }
    ensures { IfOk result IsTried }
{
    let script = script_of(alloc, text)?;
    let Some(asked) = script.image else {
        return Ok(Tried {
            stops: 0,
            images: 0,
        });
    };
    let (_, run) = run_first(alloc, text, asked, script.events.len())?;
    let stops = stops_in(alloc, &run)?;
    let files = files_behind(alloc, asked.make(alloc)?, run.history)?;
    let mut images: u64 = 0;
    'stops: for calls in 0..stops.len() {
        let stop = Stop {
            calls,
            all: stops.len() - 1,
            event: stops[calls],
        };
        let tried = try_stop(alloc, text, asked, stop, &files, progress)?;
        images = images.saturating_add(tried);
    }
    Ok(Tried {
        stops: stops.len() as u64,
        images,
    })
}

// Tries what a crash may leave at a stop, and tells how many images that are.
fn try_stop<P: Progress>(
    alloc: Global,
    text: &[u8],
    asked: Asked,
    stop: Stop,
    files: &[Vec<Line>],
    progress: &mut P,
) -> Result<u64, StopsFault>
    ensures { IfOk result (IsTriedStop asked files.now) }
{
    let (disk, run) = run_first(alloc, text, asked, stop.event)?;
    let counts = counts_of(alloc, &disk)?;
    let wanted = Wanted {
        files,
        least: promised(&run),
        most: run.history.len(),
    };
    let all = choices(&counts, MOST_AT_A_STOP);
    'numbers: for number in 0..all {
        tell(progress, stop);
        let choice = choice(alloc, &counts, MOST_AT_A_STOP, number)?;
        let (disk, _) = run_first(alloc, text, asked, stop.event)?;
        let left = Left {
            calls: stop.calls,
            all: stop.all,
            choice: &choice,
            opening: None,
        };
        try_image(alloc, disk.crash(&choice), wanted, left)?;
    }
    Ok(all)
}

fn tell<P: Progress>(progress: &mut P, stop: Stop) {
    let most = u32::MAX as usize;
    progress.reached(stop.calls.min(most) as u32, stop.all.min(most) as u32);
}
