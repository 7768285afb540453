//! A whole run: an opening, and then events one by one.
ghost use Rattle.std.specs.Prelude.{◌≡◌, ℕ, MatchResult, Ok, Err};
ghost use Rattle.nfs_spec.specs.Model.Tree.{Tree};
ghost use Rattle.store_promise.specs.Headline.{IsPromised};
ghost use Rattle.store_promise.specs.Transcript.{report_of};

mod going_laws;
mod going_workers;
mod run_events;
mod sound;

use disk::CrashDisk;
use run_events::Running;
pub use sound::can_be_spelled;
use std::alloc::Global;
use store_images::{close, open};
use store_promise::{Event, OpenFault, Run};

/// Opens a store and takes events one by one, with so many workers. An event that doesn't apply does nothing, nor
/// does a call that can't be spelled, or that comes at a moment of a second of nanoseconds or more; each other makes
/// one step. All events are taken, or fewer where there was no memory to tell of the next, which is noted.
/// The disk comes back as the run left it. What it promises of a device that keeps its model is `promised`: it holds
/// at each stop of the run, its opening included.
pub fn run<D: CrashDisk>(
    alloc: Global,
    disk: D,
    workers: usize,
    events: Vec<Event>,
) -> (D, Result<Run, OpenFault>)
    ensures model { D.keeps_model result.0 → D.keeps_model disk }
    ensures promised { (tree : Tree) (first : ℕ) → MatchResult result.1
        (λ run_record. IsPromised (D.keeps_model result.0) (D.device disk) (D.device result.0) tree first
        workers events.items
        (Ok (report_of run_record)))
        (λ fault. IsPromised (D.keeps_model result.0) (D.device disk) (D.device result.0) tree first
        workers events.items
        (Err fault)) }
{
    store_law::a_run_begins();
    store_law::a_run_preserves_its_promise();
    let reserved_workers = match Vec::with_capacity(alloc, workers) {
        Ok(reserved_workers) => reserved_workers,
        Err(error) => return (disk, Err(OpenFault::NoMemory(error))),
    };
    let store = match open(alloc, disk) {
        Ok(store) => store,
        Err((disk, fault)) => {
            reserved_workers.destroy_empty();
            return (disk, Err(fault));
        }
    };
    let mut run = Run::new(alloc, store.boot());
    let mut running = Running::new(alloc, store, workers, reserved_workers);
    'events: for event in events {
        if !running.take(alloc, event, &mut run) {
            break;
        }
    }
    (close(running.end()), Ok(run))
}
