//! Workers beside each other: the laws by which each keeps what it has.
ghost use Rattle.std.specs.Prelude.{◌≡◌, ℕ, List, Option, IfSome, is_some};
ghost use Rattle.txn.specs.Core.{CoreState, IsOut};
ghost use Rattle.txn.specs.WellFormed.{IsWellFormed};
ghost use Rattle.store_promise.specs.Schedule.{next_refused};
ghost use Rattle.store_promise.specs.declared.events.Step.{Step};
ghost use Rattle.store_workers.specs.Single.{HasTakenInPlan};
ghost use Rattle.store_workers.specs.Unaffected.{IsFetchedBy, IsLeftOf, LeavesOthers, NoneTakenBeyond, TracesAll};
ghost use Rattle.store_workers.specs.Unaffected.{Replaces, ShareCore};
ghost use Rattle.store_workers.specs.Phases.{has_fetch, has_transaction};
ghost use Rattle.store_workers.specs.WorkerSteps.{GoesOn, PreservesReadsOf, WorkerAndCore};
ghost use Rattle.store_workers.specs.declared.workers.parts.Phase.TheVariants.{Planning};
ghost use Rattle.store_workers.specs.declared.workers.parts.State.{State};

/// A step of a worker leaves what others have: their transactions stay out with what they have taken and read,
/// and their fetches stay pending. What is out and pending then is theirs or its own.
pub fn a_step_leaves_what_others_have()
    ensures { (old new : WorkerAndCore) (made : Option Step) → PreservesReadsOf old new
        → IfSome old.worker.begun.tx (IsOut old.core) → IsFetchedBy old.core old.worker.begun.io
        → is_some old.worker.begun.tx ≡ has_transaction old.worker.phase
        → is_some old.worker.begun.io ≡ has_fetch old.worker.phase → GoesOn old.worker.phase old made new
        → LeavesOthers old new }
{}

/// A step of a worker counts that memory was refused just where it tells so: where it begins no transaction for want of
/// memory, is answered NoMemory, or ends its transaction for that.
pub fn a_step_counts_what_was_refused()
    ensures { (old new : WorkerAndCore) (made : Option Step) → GoesOn old.worker.phase old made new
        → new.core.refused ≡ next_refused old.core.refused made }
{}

/// Workers that share a core do so after a step of one of them. Nothing is taken of it for who isn't one of them.
pub fn workers_share_a_core()
    ensures still { (old new : WorkerAndCore) (workers later : List State) (number : ℕ) → ShareCore old.core workers
        → LeavesOthers old new → Replaces workers number old.worker new.worker later
        → ShareCore new.core later }
    ensures beyond { (core : CoreState) (workers : List State) → IsWellFormed core → ShareCore core workers
        → NoneTakenBeyond core }
{}

/// A worker has of its call, after each of its steps, what it had and what it took with it, and has noted all
/// that its transaction has taken and no other address: also beside others, and where it takes again what its call
/// knew.
pub fn a_worker_has_what_it_takes()
    ensures plans { (old new : WorkerAndCore) (made : Option Step) → PreservesReadsOf old new → NoneTakenBeyond old.core
        → (old.worker.phase ≡ Planning → IsLeftOf old.worker) → GoesOn old.worker.phase old made new
        → HasTakenInPlan old.worker.phase old.worker old.core
        → HasTakenInPlan new.worker.phase new.worker new.core }
    ensures traces { (old new : WorkerAndCore) (made : Option Step) → NoneTakenBeyond old.core
        → TracesAll old.worker old.core
        → is_some old.worker.begun.tx ≡ has_transaction old.worker.phase → GoesOn old.worker.phase old made new
        → TracesAll new.worker new.core }
{}
