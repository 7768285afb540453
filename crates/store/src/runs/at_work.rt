//! Laws on a worker: what was fetched for its transaction stays until it ends, each of its steps is one that may be
//! made, and leaves the run going.
ghost use Rattle.std.specs.Prelude.{◌≡◌, ◌≢◌, ◌≤◌, ◌+◌, ◌++◌, ◌∷◌, ℕ, Bool, [], List, Option, Some, length, false};
ghost use Rattle.std.specs.Prelude.{true};
ghost use Rattle.disk.specs.Crash.{Image};
ghost use Rattle.disk.specs.Device.{Content, Device, HasRead, current, newest};
ghost use Rattle.disk.specs.declared.block.BlockNo.{BlockNo};
ghost use Rattle.nfs_spec.specs.Model.Entry.{Entry};
ghost use Rattle.nfs_spec.specs.Procedures.Step.{step};
ghost use Rattle.nfs_spec.specs.Model.Tree.{Tree};
ghost use Rattle.nfs_types.specs.declared.call.Call.{Call};
ghost use Rattle.nfs_types.specs.declared.ctx.Credential.{Credential};
ghost use Rattle.nfs_types.specs.declared.ctx.Ctx.{Ctx};
ghost use Rattle.nfs_types.specs.declared.ctx.Moment.{Moment};
ghost use Rattle.objects.specs.declared.addr.Addr.{Addr};
ghost use Rattle.objects.specs.declared.mode.Mode.{Mode};
ghost use Rattle.txn.specs.Outcomes.{TakesPlace};
ghost use Rattle.txn_law.specs.Commit.{Planned};
ghost use Rattle.txn_law.specs.Core.{CoreState};
ghost use Rattle.txn_law.specs.Fetch.{Fetch};
ghost use Rattle.txn_law.specs.Group.{blocks_of};
ghost use Rattle.txn_law.specs.HomeRead.{HasContents};
ghost use Rattle.txn_law.specs.Leaves.{Leaves, is_fetching, taken_by, without_fetch};
ghost use Rattle.txn_law.specs.WellFormed.{IsWellFormed};
ghost use Rattle.txn_law.specs.LockAnswers.{IsFetched, IsHeld};
ghost use Rattle.circ.specs.Log.Calls.{Pending};
ghost use Rattle.circ.specs.Log.Log.{IsLawful};
ghost use Rattle.store_promise.specs.LogState.{with_commit};
ghost use Rattle.store_promise.specs.OpenSince.{IsOpenSince, IsSoundCore, LeavesLogUnchanged, TellsOf};
ghost use Rattle.store_promise.specs.declared.events.Event.TheVariants as event;
ghost use Rattle.store_promise.specs.declared.events.Step.{Step};
ghost use Rattle.store_promise.specs.declared.events.Step.TheVariants as made;
ghost use Rattle.store_promise.specs.Progress.{Idle};
ghost use Rattle.store_promise.specs.Running.{IsRunningOver, IsRunState, StoreState};
ghost use Rattle.store_promise.specs.Schedule.{IsStepOfWork, Setting, RunState, state_after};
ghost use Rattle.store_promise.specs.LogStateOf.{log_state_of};
ghost use Rattle.store.specs.Runs.AtWork.{AreLoadedFor, GoesOnWith, IsCoreAtWork};
ghost use Rattle.store.specs.Runs.AtWork.{fetches_of, has_committed, has_taken, with_core};
ghost use Rattle.store_workers.specs.Stages.{IsWorkerAt, progress_of};
ghost use Rattle.store_workers.specs.RunReports.{TakesCall, reported};
ghost use Rattle.store_workers.specs.Worker.{GoesWith};
ghost use Rattle.store_workers.specs.WorkerReads.{with_read};
ghost use Rattle.store_workers.specs.WorkerSteps.{GoesOn, PreservesHomeOf, PreservesReadsOf, WorkerAndCore, worker_and_core, there_given};
ghost use Rattle.store_workers.specs.declared.workers.parts.Phase.TheVariants.{Reading};
ghost use Rattle.store_workers.specs.declared.workers.parts.State.{State};

/// What was fetched for a transaction stays, once it holds an object more, or has the block of one fetched,
/// and so it does once such a block was read, which is there then, too.
pub fn what_was_fetched_stays()
    ensures held { (old new : CoreState) (tx : ℕ) (fetched : List Addr) (addr : Addr) (mode : Mode)
        (bytes : List ℕ) → IsHeld old tx addr mode bytes new → AreLoadedFor old tx fetched
        → AreLoadedFor new tx fetched }
    ensures wanted { (old new : CoreState) (tx : ℕ) (fetched : List Addr) (addr : Addr) (mode : Mode)
        (io : Fetch) → IsFetched old tx addr mode io new → AreLoadedFor old tx fetched
        → AreLoadedFor new tx fetched × (has_taken new tx addr ≡ true) }
    ensures given { (old new : CoreState) (tx : ℕ) (fetched : List Addr) (addr : Addr) (io : Fetch)
        → has_taken old tx addr ≡ true → io.block ≡ addr.block → is_fetching old io.block ≡ true
        → Leaves new (taken_by old) (without_fetch io.block (is_fetching old)) (there_given true io old)
        → AreLoadedFor old tx fetched → AreLoadedFor new tx (fetched ++ addr ∷ []) }
{}

/// A commit is told by the blocks that it changes.
pub fn a_commit_moves_the_state_by_its_blocks()
    ensures { (position : ℕ) (old new : CoreState) (logging installing : Pending) (tx place : ℕ)
        (plan : Planned)
        → TakesPlace old tx plan place new → IsLawful old.log → IsLawful new.log
        → position ≤ old.log.start + length old.log.changes
        → log_state_of position new.log logging installing ≡ with_commit
        (log_state_of position old.log logging installing)
        (blocks_of plan.written) }
{
    store_promise::a_commit_moves_the_log_state();
}

/// A core stays at work for its worker by each step, once it was told what the worker gave: nobody else has
/// anything of it, and what was fetched stays in memory while the worker goes by its plans.
pub fn a_core_at_work_stays_so()
    ensures { (old new : WorkerAndCore) (made : Option Step) (boot : ℕ) (entries : List Entry)
        → IsCoreAtWork old.worker old.core → IsWorkerAt boot entries old.worker → IsWellFormed old.core
        → PreservesReadsOf old new → GoesOn old.worker.phase old made new → GoesWith (reported new.worker) new.core
        → IsCoreAtWork (reported new.worker) new.core }
{}

/// Each step is one that a worker that is so far, and beside which no other has a call, may make.
pub fn a_workers_step_may_be_made()
    ensures { (o : Setting) (run_state : RunState) (number : ℕ) (base : Image) (store : StoreState) (fetches : List Fetch)
        (boot : ℕ) (first last : Tree) (entries : List Entry)
        → IsRunningOver o base store fetches boot first entries last → IsRunState o run_state store
        → ((other : ℕ) → other ≢ number → run_state.workers other ≡ Idle)
        → o.geometry.inodes ≡ store.core.inodes → (worker : State) (new : WorkerAndCore) (made : Option Step)
        → GoesOn worker.phase (worker_and_core worker store.core) made new
        → IsCoreAtWork worker store.core → IsWorkerAt boot entries worker
        → IsStepOfWork o run_state number (progress_of worker) made }
{
    layout::counts_make_one_geometry();
}

/// What is told of the log and of the count of transactions after a step is what the store then has.
pub fn a_workers_step_moves_the_state()
    ensures { (o : Setting) (run_state : RunState) (number : ℕ) (store : StoreState) → IsRunState o run_state store
        → (worker : State) (new : WorkerAndCore) → IsLawful store.core.log → IsLawful new.core.log
        → o.position ≤ store.core.log.start + length store.core.log.changes
        → (made : Option Step) → GoesOn worker.phase (worker_and_core worker store.core) made new
        → IsRunState o (state_after run_state (event.Work number) made) (with_core store new.core) }
{}

/// Each step leaves the run going: one that took no place with the entries that there were, and one that took
/// a place with its entry, a step of the sequential server from the files as they were.
pub fn a_worker_leaves_the_run_going()
    ensures log_unchanged { (o : Setting) (base : Image) (store : StoreState) (worker : State) (new : WorkerAndCore) (boot : ℕ)
        (first last : Tree) (entries : List Entry) (made : Option Step)
        → IsRunningOver o base store (fetches_of worker) boot first entries last
        → GoesOn worker.phase (worker_and_core worker store.core) made new → PreservesHomeOf (worker_and_core worker store.core) new
        → IsLawful new.core.log → IsWellFormed new.core → has_committed made ≡ false
        → IsRunningOver o base (with_core store new.core) (fetches_of new.worker) boot first entries last
        × LeavesLogUnchanged store.core new.core }
    ensures committed { (o : Setting) (base : Image) (store : StoreState) (worker : State) (new : WorkerAndCore)
        (boot number : ℕ) (first last : Tree) (entries : List Entry) (made : Option Step)
        → IsRunningOver o base store (fetches_of worker) boot first entries last
        → GoesOn worker.phase (worker_and_core worker store.core) made new → PreservesHomeOf (worker_and_core worker store.core) new
        → IsLawful new.core.log → IsWellFormed new.core → IsWorkerAt boot entries worker → has_committed made ≡ true
        → GoesOnWith o base store new boot number first entries last made (worker_and_core worker store.core) }
{
    store_promise::a_worker_preserves_the_run_going();
}

/// A call that is handed over, and one that isn't taken, leave the core, what is told of it and the run as
/// they are.
pub fn a_call_leaves_the_run_going()
    ensures core { (ctx : Ctx) (call : Call) (old new : State) (made : Option Step) (core : CoreState)
        → TakesCall ctx call old made new → IsCoreAtWork old core → GoesWith new core
        → IsCoreAtWork new core }
    ensures state_stays_so { (o : Setting) (run_state : RunState) (number : ℕ) (credential : Credential) (moment : Moment)
        (call : Call) (ctx : Ctx) (store : StoreState) (old new : State) (made : Option Step)
        → TakesCall ctx call old made new
        → IsRunState o run_state store → IsRunState o (state_after run_state (event.Call number credential moment call) made) store }
    ensures fetches { (ctx : Ctx) (call : Call) (old new : State) (made : Option Step)
        → TakesCall ctx call old made new → fetches_of new ≡ fetches_of old }
{}

/// A read leaves the run going: what it brought is what is at home, until it is given back.
pub fn a_read_leaves_the_run_going()
    ensures core { (ok : Bool) (io : Fetch) (content : Content) (old : State) (core : CoreState)
        → old.phase ≡ Reading → old.begun.io ≡ Some io → IsCoreAtWork old core
        → GoesWith (with_read ok io content old) core → IsCoreAtWork (with_read ok io content old) core }
    ensures state_stays_so { (o : Setting) (run_state : RunState) (number : ℕ) (store : StoreState) (after : Device)
        (block : BlockNo) (ok : Bool) → IsRunState o run_state store
        → IsRunState o (state_after run_state (event.Read number) (Some (made.Read block ok)))
        (record store { device = after }) }
    ensures runs { (o : Setting) (base : Image) (store : StoreState) (after : Device) (ok : Bool) (io : Fetch)
        (content : Content) (old : State) (boot : ℕ) (first last : Tree) (entries : List Entry)
        → HasRead store.device after
        → (store.device.uncertain io.block.0 ≡ false → ok ≡ true
        → content ≡ newest (current store.device io.block.0)) → HasContents store.device
        → IsRunningOver o base store (fetches_of old) boot first entries last
        → IsRunningOver o base (record store { device = after })
        (fetches_of (with_read ok io content old)) boot first
        entries last }
{
    store_promise::a_read_leaves_the_store_open();
}
