//! Laws on one call of one thread: what it begins with, and that its worker's steps and its reads, and the
//! settling that it waits for, keep it going.
ghost use Rattle.std.specs.Prelude.{◌≡◌, ℕ, Bool, true, Ok, Option, List, []};
ghost use Rattle.disk.specs.Device.{Device};
ghost use Rattle.nfs_spec.specs.Model.Entry.{Entry};
ghost use Rattle.nfs_spec.specs.Model.Calls.{begins_transaction};
ghost use Rattle.nfs_spec.specs.Model.Tree.{Tree};
ghost use Rattle.txn_law.specs.Core.{CoreState};
ghost use Rattle.txn_law.specs.HomeRead.{HasContents};
ghost use Rattle.txn_law.specs.WellFormed.{IsWellFormed};
ghost use Rattle.circ.specs.Log.Log.{IsLawful};
ghost use Rattle.procs.specs.SoundCalls.{SoundCall};
ghost use Rattle.store_promise.specs.declared.events.Step.{Step};
ghost use Rattle.store.specs.Calling.{HasStepped, HasWaited, IsCalling, IsOpenWith, Outset};
ghost use Rattle.store.specs.Driving.{waits_for_log};
ghost use Rattle.store_images.specs.Further.{LeavesOpen};
ghost use Rattle.store_images.specs.Opening.{Opened, Opens, store_of};
ghost use Rattle.store_images.specs.Settling.{IsIdle};
ghost use Rattle.store_workers.specs.RunReports.{reported};
ghost use Rattle.store_workers.specs.Worker.{GoesWith, at_rest, ctx_of, with_call};
ghost use Rattle.store_workers.specs.WorkerReads.{HasReadBlock};
ghost use Rattle.store_workers.specs.WorkerSteps.{GoesOn, PreservesHomeOf, PreservesReadsOf, WorkerAndCore, worker_and_core};
ghost use Rattle.store_workers.specs.declared.workers.parts.Phase.TheVariants.{Reading};
ghost use Rattle.store_workers.specs.declared.workers.parts.State.{State};

/// What an opening leaves of a device that held a tree is a store that is open with that tree, and with no
/// entry yet.
pub fn an_opened_store_is_open()
    ensures { (before : Device) (store : Opened) (tree : Tree) (first : ℕ) → Opens before (Ok store) tree first
        → IsOpenWith store tree [] tree }
{
    store_law::a_run_begins();
}

/// What a settling leaves of a store that is open for some entries is open for the same.
pub fn a_settled_store_stays_open()
    ensures { (old : Opened) (device : Device) (core : CoreState) (first last : Tree) (entries : List Entry)
        → LeavesOpen old.device old.core device core → IsOpenWith old first entries last
        → IsOpenWith (store_of device core old.boot) first entries last }
{}

/// A call that was handed to a worker at rest is under way.
pub(crate) fn a_call_begins()
    ensures { (o : Outset) (worker : State) → SoundCall o.asked.credential o.asked.moment o.asked.call
        → IsIdle o.store.core
        → worker ≡ with_call (ctx_of o.asked.credential o.asked.moment) o.asked.call at_rest
        → GoesWith worker o.store.core → IsOpenWith o.store o.first o.entries o.last
        → IsCalling o o.store worker }
{}

/// Each step of the worker leaves it under way, or answers it. One that waits for the log is of a call that
/// is served.
pub(crate) fn a_step_preserves_a_call_going()
    ensures goes { (o : Outset) (now : Opened) (worker : State) (new : WorkerAndCore) (made : Option Step)
        → IsCalling o now worker → GoesOn worker.phase (worker_and_core worker now.core) made new
        → PreservesHomeOf (worker_and_core worker now.core) new → PreservesReadsOf (worker_and_core worker now.core) new
        → IsLawful new.core.log → IsWellFormed new.core → GoesWith (reported new.worker) new.core
        → HasStepped o (record now { core = new.core }) new.worker }
    ensures served { (o : Outset) (now : Opened) (worker : State) (new : WorkerAndCore) (made : Option Step)
        → IsCalling o now worker → GoesOn worker.phase (worker_and_core worker now.core) made new
        → waits_for_log made ≡ true → begins_transaction o.asked.call ≡ true }
{
    layout::counts_make_one_geometry();
    store_promise::an_open_store_preserves_its_files();
    crate::runs::a_core_at_work_stays_so();
    crate::runs::a_worker_leaves_the_run_going();
    crate::runs::a_workers_step_moves_the_state();
    crate::runs::a_workers_step_may_be_made();
    store_workers::a_worker_tells_its_steps();
}

/// So does its read, of a device that keeps its model.
pub(crate) fn a_read_preserves_a_call_going()
    ensures { (o : Outset) (now : Opened) (device : Device) (worker new : State) (made : Step)
        → IsCalling o now worker → worker.phase ≡ Reading → HasContents now.device
        → HasReadBlock (Unit {0}) now.device worker made device new → GoesWith new now.core
        → IsCalling o (record now { device = device }) new }
{
    store_promise::an_open_store_preserves_its_files();
    crate::runs::a_read_leaves_the_run_going();
    store_workers::a_worker_tells_its_read();
}

/// So does the settling that it waits for, if it waits.
pub(crate) fn a_settling_preserves_a_call_going()
    ensures { (o : Outset) (now : Opened) (device : Device) (core : CoreState) (worker : State) (waits : Bool)
        → (waits ≡ true → begins_transaction o.asked.call ≡ true) → HasStepped o now worker
        → HasWaited waits now.device now.core device core → GoesWith (reported worker) core
        → HasStepped o (store_of device core now.boot) worker }
{}
