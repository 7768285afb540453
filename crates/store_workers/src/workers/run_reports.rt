//! Laws on what a worker's steps tell: what they tell is what its state says.
ghost use Rattle.std.specs.Prelude.{◌≡◌, ℕ, Bool, List, Option, Some, None, length};
ghost use Rattle.disk.specs.Device.{Content};
ghost use Rattle.nfs_types.specs.declared.call.Call.{Call};
ghost use Rattle.nfs_types.specs.declared.ctx.Credential.{Credential};
ghost use Rattle.nfs_types.specs.declared.ctx.Moment.{Moment};
ghost use Rattle.nfs_spec.specs.Model.Entry.{Entry};
ghost use Rattle.txn.specs.Fetch.{Fetch};
ghost use Rattle.store_workers.specs.Tracing.{TracesWork};
ghost use Rattle.store_workers.specs.Stages.{IsWorkerAt};
ghost use Rattle.store_workers.specs.RunReports.{HasWorked, TakesCall};
ghost use Rattle.store_workers.specs.WorkTells.{TellsCall, TellsRead, TellsStep};
ghost use Rattle.store_workers.specs.Worker.{ctx_of};
ghost use Rattle.store_workers.specs.WorkerReads.{with_read};
ghost use Rattle.store_workers.specs.WorkerSteps.{GoesOn, WorkerAndCore};
ghost use Rattle.store_workers.specs.declared.workers.parts.Phase.TheVariants.{Reading};
ghost use Rattle.store_workers.specs.declared.workers.parts.State.{State};
ghost use Rattle.procs.specs.SoundCalls.{SoundCall};
ghost use Rattle.store_promise.specs.Transcript.{entries_of, transcript_of};
ghost use Rattle.store_promise.specs.declared.events.Step.{Step};
ghost use Rattle.store_promise.specs.declared.events.Step.TheVariants as step;
ghost use Rattle.store_promise.specs.declared.transcript.Run.{Run};

/// How far a worker is after a step of its own, its entry and its answer are what the promise tells of the
/// step, and once they are told the worker stands between the events again.
pub fn a_worker_tells_its_steps()
    ensures { (boot number : ℕ) (entries : List Entry) (old new : WorkerAndCore) (made : Option Step)
        → IsWorkerAt boot entries old.worker → old.core.boot ≡ boot → old.core.log.places ≡ length entries
        → GoesOn old.worker.phase old made new → TellsStep boot number entries old made new }
{}

/// A run notes just what its worker tells, where its history has what was committed so far.
pub fn a_run_traces_its_workers_steps()
    ensures { (boot number clock : ℕ) (old new : WorkerAndCore) (made : Option Step) (before after : Run)
        → IsWorkerAt boot (entries_of (transcript_of before)) old.worker → old.core.boot ≡ boot
        → old.core.log.places ≡ length before.history.items → HasWorked number clock old made new before after
        → TracesWork boot number clock old made new before after }
{}

/// A worker takes a call where it has none, and then has just that call.
pub fn a_worker_tells_its_call()
    ensures { (boot : ℕ) (entries : List Entry) (credential : Credential) (moment : Moment) (call : Call)
        (old new : State) (made : Option Step) → SoundCall credential moment call
        → IsWorkerAt boot entries old
        → TakesCall (ctx_of credential moment) call old made new
        → TellsCall boot entries (record { credential = credential; moment = moment; call = call })
        old made new }
{}

/// It reads where a read is due, the block of the object that it asked for.
pub fn a_worker_tells_its_read()
    ensures made { (boot : ℕ) (entries : List Entry) (old : State) (ok : Bool) (io : Fetch) (content : Content)
        → old.phase ≡ Reading → old.begun.io ≡ Some io → IsWorkerAt boot entries old
        → TellsRead boot entries old (Some (step.Read io.block ok)) (with_read ok io content old) }
    ensures none { (boot : ℕ) (entries : List Entry) (old : State) → IsWorkerAt boot entries old
        → (old.phase ≡ Reading → ⊥) → TellsRead boot entries old None old }
{}
