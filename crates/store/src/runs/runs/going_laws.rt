//! Laws on a run as the code has it: each event leaves it going.
ghost use Rattle.std.specs.Prelude.{◌≡◌, ◌<◌, ℕ, List, None, Option, length};
ghost use Rattle.txn_law.specs.Core.{CoreState};
ghost use Rattle.store_promise.specs.declared.events.Event.{Event};
ghost use Rattle.store_promise.specs.declared.events.Event.TheVariants as event;
ghost use Rattle.store_promise.specs.declared.events.Step.{Step};
ghost use Rattle.store_promise.specs.declared.transcript.Run.{Run};
ghost use Rattle.store_promise.specs.Running.{IsLogStep, StoreState};
ghost use Rattle.store_law.specs.Runs.Run.{Beginning};
ghost use Rattle.store_promise.specs.Transcript.{transcript_of};
ghost use Rattle.store_law.specs.Runs.Tracing.{clock_now};
ghost use Rattle.store.specs.Runs.Going.{IsGoing, IsNextEvent, PreservesCore, TracesStep, may_make};
ghost use Rattle.store.specs.Runs.Running.{DoesItsStep};
ghost use Rattle.store_workers.specs.Unaffected.{Replaces};
ghost use Rattle.store_workers.specs.RunReports.{HasWorked};
ghost use Rattle.store_workers.specs.WorkerSteps.{worker_and_core};
ghost use Rattle.store_workers.specs.declared.workers.parts.State.{State};

// The log's events and the installer's leave a run going.
pub(super) fn a_log_event_leaves_a_run_going()
    ensures { (b : Beginning) (now : Event) (old new : StoreState) (made : Option Step) (workers : List State)
        (before after : Run) → IsNextEvent b now before → IsLogStep (may_make now) old made new
        → DoesItsStep old made new → TracesStep made before after
        → IsGoing b old workers before → IsGoing b new workers after }
{
    store_law::a_run_goes_on();
    store_law::what_is_traced_grows();
}

// So does a step of a worker's work, once what it tells was told, and one of a worker that isn't there.
pub(super) fn a_work_event_leaves_a_run_going()
    ensures absent { (b : Beginning) (number : ℕ) (store : StoreState) (workers : List State) (before after : Run)
        → IsNextEvent b (event.Work number) before → (number < length workers → ⊥) → TracesStep None before after
        → IsGoing b store workers before → IsGoing b store workers after }
    ensures goes { (b : Beginning) (number clock : ℕ) (store : StoreState) (workers later : List State)
        (worker new : State) (core : CoreState) (made : Option Step) (before mid after : Run)
        → IsNextEvent b (event.Work number) before → IsGoing b store workers before
        → Replaces workers number worker new later → clock ≡ clock_now (transcript_of before)
        → HasWorked number clock (worker_and_core worker store.core) made (worker_and_core new core) before mid
        → PreservesCore (worker_and_core worker store.core) (worker_and_core new core) → TracesStep made mid after
        → IsGoing b (record store { core = core }) later after }
{
    crate::runs::at_work::a_worker_leaves_the_run_going();
    crate::runs::at_work::a_workers_step_moves_the_state();
    store_workers::a_run_traces_its_workers_steps();
    layout::counts_make_one_geometry();
    store_law::a_run_goes_on();
    store_law::what_is_traced_grows();
    store_promise::a_device_counts_the_calls_of_its_steps();
    store_promise::what_is_held_is_what_the_files_are();
}
