//! Laws on a run as the code has it: a call that is handed to a worker, and a read of one, leave it going.
ghost use Rattle.std.specs.Prelude.{◌<◌, ℕ, List, None, Option, length};
ghost use Rattle.disk.specs.Device.{Device};
ghost use Rattle.nfs_types.specs.declared.call.Call.{Call};
ghost use Rattle.nfs_types.specs.declared.ctx.Credential.{Credential};
ghost use Rattle.nfs_types.specs.declared.ctx.Moment.{Moment};
ghost use Rattle.txn_law.specs.HomeRead.{HasContents};
ghost use Rattle.store_promise.specs.declared.events.Event.TheVariants as event;
ghost use Rattle.store_promise.specs.declared.events.Step.{Step};
ghost use Rattle.store_promise.specs.declared.transcript.Run.{Run};
ghost use Rattle.store_promise.specs.Running.{StoreState};
ghost use Rattle.store_law.specs.Runs.Run.{Beginning};
ghost use Rattle.store.specs.Runs.Going.{IsGoing, IsNextEvent, TracesStep};
ghost use Rattle.store_workers.specs.Unaffected.{Replaces};
ghost use Rattle.store_workers.specs.RunReports.{TakesCall};
ghost use Rattle.store_workers.specs.Worker.{GoesWith, ctx_of};
ghost use Rattle.store_workers.specs.WorkerReads.{MakesRead};
ghost use Rattle.store_workers.specs.declared.workers.parts.State.{State};

// A call that is handed over leaves a run going, taken or not, and so does one for a worker that isn't there.
pub(super) fn a_call_leaves_a_run_going()
    ensures absent { (b : Beginning) (number : ℕ) (credential : Credential) (moment : Moment) (call : Call)
        (store : StoreState) (workers : List State) (before after : Run)
        → IsNextEvent b (event.Call number credential moment call) before
        → (number < length workers → ⊥) → TracesStep None before after
        → IsGoing b store workers before → IsGoing b store workers after }
    ensures goes { (b : Beginning) (number : ℕ) (credential : Credential) (moment : Moment) (call : Call)
        (store : StoreState) (workers later : List State) (worker new : State) (made : Option Step)
        (before after : Run) → IsNextEvent b (event.Call number credential moment call) before
        → Replaces workers number worker new later
        → TakesCall (ctx_of credential moment) call worker made new
        → (GoesWith worker store.core → GoesWith new store.core) → TracesStep made before after
        → IsGoing b store workers before → IsGoing b store later after }
{
    crate::runs::at_work::a_call_leaves_the_run_going();
    store_workers::a_worker_tells_its_call();
    store_law::a_run_goes_on();
    store_law::only_work_tells();
    store_law::what_is_traced_grows();
    store_promise::a_device_counts_the_calls_of_its_steps();
}

// So does a read, made or not, whose device keeps its model: so it brings the newest content.
pub(super) fn a_read_leaves_a_run_going()
    ensures absent { (b : Beginning) (number : ℕ) (store : StoreState) (workers : List State) (before after : Run)
        → IsNextEvent b (event.Read number) before → (number < length workers → ⊥) → TracesStep None before after
        → IsGoing b store workers before → IsGoing b store workers after }
    ensures goes { (b : Beginning) (number : ℕ) (store : StoreState) (device : Device)
        (workers later : List State) (worker new : State) (made : Option Step) (before after : Run)
        → IsNextEvent b (event.Read number) before → Replaces workers number worker new later
        → HasContents store.device → MakesRead (Unit {0}) store.device worker made device new
        → (GoesWith worker store.core → GoesWith new store.core) → TracesStep made before after
        → IsGoing b store workers before → IsGoing b (record store { device = device }) later after }
{
    crate::runs::at_work::a_read_leaves_the_run_going();
    store_workers::a_worker_tells_its_read();
    store_law::a_run_goes_on();
    store_law::only_work_tells();
    store_law::what_is_traced_grows();
    store_promise::a_device_counts_the_calls_of_its_steps();
}
