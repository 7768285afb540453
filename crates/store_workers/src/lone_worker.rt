//! A worker that is alone in its store: the laws by which nobody keeps it off.
ghost use Rattle.std.specs.Prelude.{◌≡◌, Option, false, is_some};
ghost use Rattle.store_workers.specs.Single.{IsSingleOut, LeavesNothing, HasTakenInPlan, StaysSingle, is_deferred};
ghost use Rattle.store_images.specs.Fetches.{FetchesOnly};
ghost use Rattle.store_workers.specs.Phases.{has_fetch, has_transaction};
ghost use Rattle.store_workers.specs.WorkerSteps.{GoesOn, PreservesReadsOf, WorkerAndCore};
ghost use Rattle.store_workers.specs.declared.workers.parts.Phase.{Phase};
ghost use Rattle.store_promise.specs.declared.events.Step.{Step};
ghost use Rattle.txn.specs.WellFormed.{IsWellFormed};

/// No step of a worker that is alone is told Busy or Loading, and none of its commits is Foreign.
pub fn a_lone_worker_is_never_deferred()
    ensures { (old new : WorkerAndCore) → IsWellFormed old.core → IsSingleOut old.worker old.core
        → FetchesOnly old.worker.begun.io old.core
        → (phase : Phase) (made : Option Step) → is_some old.worker.begun.io ≡ has_fetch phase
        → HasTakenInPlan phase old.worker old.core → LeavesNothing phase old.worker.known
        → GoesOn phase old made new → is_deferred made ≡ false }
{}

/// A worker that is alone stays alone by each step. Where a commit found no room, what it has read isn't told.
pub fn a_lone_worker_stays_single()
    ensures { (old new : WorkerAndCore) → IsWellFormed old.core → IsSingleOut old.worker old.core
        → FetchesOnly old.worker.begun.io old.core → PreservesReadsOf old new
        → (phase : Phase) (made : Option Step) → old.worker.phase ≡ phase
        → is_some old.worker.begun.tx ≡ has_transaction phase → is_some old.worker.begun.io ≡ has_fetch phase
        → HasTakenInPlan phase old.worker old.core → LeavesNothing phase old.worker.known
        → GoesOn phase old made new
        → StaysSingle made new.worker new.core }
{}
