//! Laws on the steps that events make, which the promise of a run pins.
ghost use Rattle.std.specs.Prelude.{◌≡◌, ◌≢◌, ◌⊎◌, ◌+◌, ◌<◌, ◌≤◌, ◌∷◌, ℕ, Bool, List, Option};
ghost use Rattle.std.specs.Prelude.{slice_get, Contains, Some, None, alloc_error, length};
ghost use Rattle.std.specs.Prelude.{true};
ghost use Rattle.std.specs.Prelude.{false};
ghost use Rattle.base.specs.declared.TheConstants.{CHANGED_BLOCKS, LOG_SLOTS, START_BLOCK};
ghost use Rattle.disk.specs.Crash.{Image};
ghost use Rattle.disk.specs.Device.{Device};
ghost use Rattle.disk.specs.declared.block.BlockNo.{BlockNo};
ghost use Rattle.nfs_spec.specs.Model.Tree.{Tree};
ghost use Rattle.objects.specs.declared.addr.Addr.{Addr};
ghost use Rattle.objects.specs.declared.mode.Mode.{Mode};
ghost use Rattle.objects.specs.declared.mode.Mode.TheVariants as modes;
ghost use Rattle.layout.specs.declared.geometry.Geometry.{Geometry};
ghost use Rattle.procs.specs.Asks.{Asks};
ghost use Rattle.txn_law.specs.Window.{object_at};
ghost use Rattle.circ.specs.Log.Log.{AreOnce, is_among};
ghost use Rattle.circ.specs.declared.log.calls.IoCall.{IoCall};
ghost use Rattle.circ.specs.declared.log.calls.IoCall.TheVariants.{Write};
ghost use Rattle.store_promise.specs.declared.events.Committing.{Committing};
ghost use Rattle.store_promise.specs.declared.events.Committing.TheVariants as committing;
ghost use Rattle.store_promise.specs.declared.lock_requests.LockRequest.{LockRequest};
ghost use Rattle.store_promise.specs.declared.lock_requests.LockRequest.TheVariants as lock_request;
ghost use Rattle.store_promise.specs.declared.events.Ending.TheVariants as ending;
ghost use Rattle.store_promise.specs.declared.events.Event.{Event};
ghost use Rattle.store_promise.specs.declared.events.Event.TheVariants as event;
ghost use Rattle.store_promise.specs.declared.events.Step.{Step};
ghost use Rattle.store_promise.specs.declared.events.Step.TheVariants as step;
ghost use Rattle.store_promise.specs.declared.events.LockAnswer.{LockAnswer};
ghost use Rattle.store_promise.specs.declared.events.LockAnswer.TheVariants as lock_answer;
ghost use Rattle.store_promise.specs.declared.transcript.Committed.{Committed};
ghost use Rattle.store_promise.specs.Headline.{PreservesPromise};
ghost use Rattle.store_promise.specs.LogState.{idle, state_may_install, state_may_log, out, state_tail_after};
ghost use Rattle.store_promise.specs.NextCall.{next_log_call, taken_home};
ghost use Rattle.store_promise.specs.LockRequests.{is_barred};
ghost use Rattle.store_promise.specs.Progress.{Again, Begun, Called, Job, At, Planning, Reading, Stage};
ghost use Rattle.store_promise.specs.Progress.{Taken, has_loaded, has_part_exclusive, has_taken, is_fetching};
ghost use Rattle.store_promise.specs.Progress.{is_loaded, known_then, takes};
ghost use Rattle.store_promise.specs.Schedule.{Schedule, Setting, RunState, is_held};
ghost use Rattle.store_promise.specs.EventSteps.{IsTaken};
ghost use Rattle.store_promise.specs.Schedule.{progress_before, state_before, whole_block_request, range_request_at};
ghost use Rattle.store_promise.specs.Transcript.{Transcript, step_at};

/// A log, or an installer, that passes over an event which applies breaks the promise.
pub fn the_log_passes_over_no_event()
    ensures logging { (before later : Device) (tree : Tree) (first workers index : ℕ) (events : Schedule)
        (t : Transcript)
        → slice_get events index ≡ Some event.Log → slice_get t.steps index ≡ Some None
        → state_may_log (state_before events t.steps index).log ≡ true
        → (state_before events t.steps index).log.log_call ≡ idle
        → PreservesPromise before later tree first workers events t → ⊥ }
    ensures installing { (before later : Device) (tree : Tree) (first workers index : ℕ) (events : Schedule)
        (t : Transcript)
        → slice_get events index ≡ Some event.Install → slice_get t.steps index ≡ Some None
        → state_may_install (state_before events t.steps index).log ≡ true
        → (state_before events t.steps index).log.inst_call ≡ idle
        → PreservesPromise before later tree first workers events t → ⊥ }
{}

/// A log that takes another call than its next breaks the promise.
pub fn the_log_takes_its_next_call()
    ensures { (before later : Device) (tree : Tree) (first workers index : ℕ) (events : Schedule)
        (t : Transcript) (call : IoCall)
        → slice_get events index ≡ Some event.Log → slice_get t.steps index ≡ Some (Some (step.LogNext call))
        → ((position : ℕ) → call ≢ next_log_call position (state_before events t.steps index).log)
        → PreservesPromise before later tree first workers events t → ⊥ }
{}

/// An installer that goes on writing blocks home, when it has written as many as the positions that it took,
/// breaks the promise.
pub fn the_installer_comes_to_an_end()
    ensures { (before later : Device) (tree : Tree) (first workers index : ℕ) (events : Schedule)
        (t : Transcript) (block : BlockNo)
        → slice_get events index ≡ Some event.Install
        → slice_get t.steps index ≡ Some (Some (step.InstNext (Write block))) → block.0 ≢ START_BLOCK
        → taken_home (state_before events t.steps index).log ≤ (state_before events t.steps index).log.homes
        → PreservesPromise before later tree first workers events t → ⊥ }
{}

/// A device call that is out, and whose event doesn't make it, breaks the promise.
pub fn a_call_that_is_out_is_made()
    ensures logging { (before later : Device) (tree : Tree) (first workers index : ℕ) (events : Schedule)
        (t : Transcript) (call : IoCall) (made : Option Step)
        → slice_get events index ≡ Some event.LogIo → slice_get t.steps index ≡ Some made
        → (state_before events t.steps index).log.log_call ≡ out call
        → ((ok : Bool) → made ≢ Some (step.LogIo ok))
        → PreservesPromise before later tree first workers events t → ⊥ }
    ensures installing { (before later : Device) (tree : Tree) (first workers index : ℕ) (events : Schedule)
        (t : Transcript) (call : IoCall) (made : Option Step)
        → slice_get events index ≡ Some event.InstIo → slice_get t.steps index ≡ Some made
        → (state_before events t.steps index).log.inst_call ≡ out call
        → ((ok : Bool) → made ≢ Some (step.InstIo ok))
        → PreservesPromise before later tree first workers events t → ⊥ }
{}

/// A worker with a call that passes over an event of its own breaks the promise: one of work where no read is
/// due, and one of a read where one is.
pub fn a_worker_passes_over_no_event()
    ensures work { (before later : Device) (tree : Tree) (first workers index worker : ℕ) (events : Schedule)
        (t : Transcript) (job : Job) (stage : Stage)
        → slice_get events index ≡ Some (event.Work worker) → worker < workers
        → slice_get t.steps index ≡ Some None
        → progress_before events t.steps worker index ≡ At job stage
        → ((begun : Begun) (taken : Taken) → stage ≢ Reading begun taken)
        → PreservesPromise before later tree first workers events t → ⊥ }
    ensures reading { (before later : Device) (tree : Tree) (first workers index worker : ℕ) (events : Schedule)
        (t : Transcript) (job : Job) (begun : Begun) (taken : Taken)
        → slice_get events index ≡ Some (event.Read worker) → worker < workers
        → slice_get t.steps index ≡ Some None
        → progress_before events t.steps worker index ≡ At job (Reading begun taken)
        → PreservesPromise before later tree first workers events t → ⊥ }
{}

/// A worker that asks for what no plan may ask for, as it is no object of an image, breaks the promise.
pub fn a_worker_goes_by_its_plan()
    ensures { (before later : Device) (tree : Tree) (first workers index worker : ℕ) (events : Schedule)
        (t : Transcript) (job : Job) (begun : Begun) (addr : Addr) (mode : Mode) (answer : LockAnswer)
        → slice_get events index ≡ Some (event.Work worker) → worker < workers
        → slice_get t.steps index ≡ Some (Some (step.Wanted addr mode answer))
        → progress_before events t.steps worker index ≡ At job (Planning begun)
        → ((g : Geometry) → Asks g addr → ⊥)
        → PreservesPromise before later tree first workers events t → ⊥ }
{}

/// What an event made stays what it may make, whatever blocks stand for the files after later procedures: it
/// goes by those of its own moment.
pub fn what_was_made_stays()
    ensures { (o : Setting) (workers : ℕ) (run_state : RunState) (event : Event) (made : Option Step) (later : ℕ → Image)
        → later run_state.log.places ≡ o.blocks run_state.log.places → IsTaken o workers run_state event made
        → IsTaken (record o { blocks = later }) workers run_state event made }
{}

/// A worker that asks for an object which its plan was told in this mode, or in a higher one, breaks the promise.
pub fn nothing_is_asked_for_twice()
    ensures { (before later : Device) (tree : Tree) (first workers index worker : ℕ) (events : Schedule)
        (t : Transcript) (job : Job) (begun : Begun) (addr : Addr) (mode : Mode) (answer : LockAnswer)
        → slice_get events index ≡ Some (event.Work worker) → worker < workers
        → slice_get t.steps index ≡ Some (Some (step.Wanted addr mode answer))
        → progress_before events t.steps worker index ≡ At job (Planning begun)
        → is_held addr mode begun.held ≡ true
        → PreservesPromise before later tree first workers events t → ⊥ }
{}

/// One worker alone that is told Busy or Loading, of which it could wait for ever, breaks the promise.
pub fn one_worker_is_never_busy()
    ensures busy { (before later : Device) (tree : Tree) (first index worker : ℕ) (events : Schedule)
        (t : Transcript) (job : Job) (begun : Begun) (addr : Addr) (mode : Mode)
        → slice_get events index ≡ Some (event.Work worker)
        → slice_get t.steps index ≡ Some (Some (step.Wanted addr mode lock_answer.Busy))
        → progress_before events t.steps worker index ≡ At job (Planning begun)
        → PreservesPromise before later tree first 1 events t → ⊥ }
    ensures loading { (before later : Device) (tree : Tree) (first index worker : ℕ) (events : Schedule)
        (t : Transcript) (job : Job) (begun : Begun) (addr : Addr) (mode : Mode)
        → slice_get events index ≡ Some (event.Work worker)
        → slice_get t.steps index ≡ Some (Some (step.Wanted addr mode lock_answer.Loading))
        → progress_before events t.steps worker index ≡ At job (Planning begun)
        → PreservesPromise before later tree first 1 events t → ⊥ }
{}

/// A worker that is told Held, to fetch, or NoMemory of what another has taken, so that two may have taken one byte,
/// breaks the promise; so does one that is told so of a block that another fetches, and one that is told to have claimed
/// a block of which another has a part.
pub fn no_two_take_one_byte()
    ensures wanted { (before later : Device) (tree : Tree) (first workers index worker other : ℕ)
        (events : Schedule) (t : Transcript) (job : Job) (begun : Begun) (addr : Addr) (mode : Mode)
        (answer : LockAnswer)
        → slice_get events index ≡ Some (event.Work worker) → worker < workers → other ≢ worker
        → slice_get t.steps index ≡ Some (Some (step.Wanted addr mode answer))
        → (answer ≡ lock_answer.Held) ⊎ (answer ≡ lock_answer.Fetch) ⊎ (answer ≡ lock_answer.NoMemory alloc_error)
        → progress_before events t.steps worker index ≡ At job (Planning begun)
        → has_taken (range_request_at addr mode) (progress_before events t.steps other index) ≡ true
        → PreservesPromise before later tree first workers events t → ⊥ }
    ensures fetched { (before later : Device) (tree : Tree) (first workers index worker other : ℕ)
        (events : Schedule) (t : Transcript) (job : Job) (begun : Begun) (addr : Addr) (mode : Mode)
        (answer : LockAnswer)
        → slice_get events index ≡ Some (event.Work worker) → worker < workers → other ≢ worker
        → slice_get t.steps index ≡ Some (Some (step.Wanted addr mode answer))
        → (answer ≡ lock_answer.Held) ⊎ (answer ≡ lock_answer.Fetch) ⊎ (answer ≡ lock_answer.NoMemory alloc_error)
        → progress_before events t.steps worker index ≡ At job (Planning begun)
        → is_fetching addr.block (progress_before events t.steps other index) ≡ true
        → PreservesPromise before later tree first workers events t → ⊥ }
    ensures claimed { (before later : Device) (tree : Tree) (first workers index worker other : ℕ)
        (events : Schedule) (t : Transcript) (job : Job) (begun : Begun) (block : BlockNo)
        → slice_get events index ≡ Some (event.Work worker) → worker < workers → other ≢ worker
        → slice_get t.steps index ≡ Some (Some (step.Claimed block lock_answer.Held))
        → progress_before events t.steps worker index ≡ At job (Planning begun)
        → has_taken (whole_block_request block) (progress_before events t.steps other index) ≡ true
        → PreservesPromise before later tree first workers events t → ⊥ }
{}

/// A worker that is told to fetch a block breaks the promise where its transaction has an object of that block, or where
/// another one has that goes by its plan.
pub fn no_block_in_memory_is_fetched()
    ensures own { (before later : Device) (tree : Tree) (first workers index worker : ℕ) (events : Schedule)
        (t : Transcript) (job : Job) (begun : Begun) (addr : Addr) (mode : Mode)
        → slice_get events index ≡ Some (event.Work worker) → worker < workers
        → slice_get t.steps index ≡ Some (Some (step.Wanted addr mode lock_answer.Fetch))
        → progress_before events t.steps worker index ≡ At job (Planning begun)
        → is_loaded addr.block begun ≡ true
        → PreservesPromise before later tree first workers events t → ⊥ }
    ensures others { (before later : Device) (tree : Tree) (first workers index worker other : ℕ)
        (events : Schedule) (t : Transcript) (job : Job) (begun : Begun) (addr : Addr) (mode : Mode)
        → slice_get events index ≡ Some (event.Work worker) → worker < workers → other ≢ worker
        → slice_get t.steps index ≡ Some (Some (step.Wanted addr mode lock_answer.Fetch))
        → progress_before events t.steps worker index ≡ At job (Planning begun)
        → has_loaded addr.block (progress_before events t.steps other index) ≡ true
        → PreservesPromise before later tree first workers events t → ⊥ }
{}

/// A commit that is told Full where the tail and the change together find room breaks the promise.
pub fn a_full_log_is_full()
    ensures { (before later : Device) (tree : Tree) (first workers index worker : ℕ) (events : Schedule)
        (t : Transcript) (job : Job) (begun : Begun) (blocks : List BlockNo)
        → slice_get events index ≡ Some (event.Work worker) → worker < workers
        → slice_get t.steps index ≡ Some (Some (step.Commit blocks committing.Full))
        → progress_before events t.steps worker index ≡ At job (Planning begun)
        → state_tail_after (state_before events t.steps index).log blocks ≤ LOG_SLOTS
        → PreservesPromise before later tree first workers events t → ⊥ }
{}

/// A commit that is told to change more blocks than a transaction may breaks the promise.
pub fn a_call_changes_no_more_than_it_may()
    ensures { (before later : Device) (tree : Tree) (first workers index worker : ℕ) (events : Schedule)
        (t : Transcript) (job : Job) (begun : Begun) (blocks : List BlockNo) (answer : Committing)
        → slice_get events index ≡ Some (event.Work worker) → worker < workers
        → slice_get t.steps index ≡ Some (Some (step.Commit blocks answer))
        → progress_before events t.steps worker index ≡ At job (Planning begun)
        → CHANGED_BLOCKS < length blocks
        → PreservesPromise before later tree first workers events t → ⊥ }
{}

/// A commit that names a block twice breaks the promise, and so does one that names a block of which its transaction
/// has taken no part alone.
pub fn a_commit_names_what_was_taken_exclusively()
    ensures once { (before later : Device) (tree : Tree) (first workers index worker : ℕ) (events : Schedule)
        (t : Transcript) (job : Job) (begun : Begun) (blocks : List BlockNo) (answer : Committing)
        → slice_get events index ≡ Some (event.Work worker) → worker < workers
        → slice_get t.steps index ≡ Some (Some (step.Commit blocks answer))
        → progress_before events t.steps worker index ≡ At job (Planning begun)
        → (AreOnce blocks → ⊥)
        → PreservesPromise before later tree first workers events t → ⊥ }
    ensures taken { (before later : Device) (tree : Tree) (first workers index worker : ℕ) (events : Schedule)
        (t : Transcript) (job : Job) (begun : Begun) (blocks : List BlockNo) (answer : Committing)
        (block : BlockNo)
        → slice_get events index ≡ Some (event.Work worker) → worker < workers
        → slice_get t.steps index ≡ Some (Some (step.Commit blocks answer))
        → progress_before events t.steps worker index ≡ At job (Planning begun)
        → Contains blocks block → has_part_exclusive block begun ≡ false
        → PreservesPromise before later tree first workers events t → ⊥ }
{}

/// What shares no byte with what the transaction of a procedure had taken alone has the bytes after it that it had
/// before it: so has what it had taken beside others.
pub fn a_procedure_changes_only_what_it_took()
    ensures { (before later : Device) (tree : Tree) (first workers index : ℕ) (events : Schedule)
        (t : Transcript) (c : Committed) (job : Job) (begun : Begun) (addr : Addr)
        → slice_get t.history index ≡ Some c
        → progress_before events t.steps c.worker c.event ≡ At job (Planning begun)
        → addr.block.0 < later.size → takes (range_request_at addr modes.Shared) begun ≡ false
        → (is_preserved : PreservesPromise before later tree first workers events t)
        → object_at (is_preserved.setting.blocks (index + 1)) addr ≡ object_at (is_preserved.setting.blocks index) addr }
{}

/// A block that the commit of a procedure doesn't name is after it what it was before it.
pub fn a_procedure_changes_only_what_it_names()
    ensures { (before later : Device) (tree : Tree) (first workers index : ℕ) (events : Schedule)
        (t : Transcript) (c : Committed) (named : List BlockNo) (answer : Committing) (block : BlockNo)
        → slice_get t.history index ≡ Some c
        → step_at t c.event ≡ Some (step.Commit named answer)
        → block.0 < later.size → is_among block named ≡ false
        → (is_preserved : PreservesPromise before later tree first workers events t)
        → is_preserved.setting.blocks (index + 1) block.0 ≡ is_preserved.setting.blocks index block.0 }
{}

/// A worker that asks for anything but the first of what is left to be taken again breaks the promise, and so does
/// one that commits before.
pub fn what_was_known_is_taken_again_first()
    ensures wanted { (before later : Device) (tree : Tree) (first workers index worker : ℕ) (events : Schedule)
        (t : Transcript) (job : Job) (begun : Begun) (next : LockRequest) (behind : List LockRequest) (addr : Addr)
        (mode : Mode) (answer : LockAnswer)
        → slice_get events index ≡ Some (event.Work worker) → worker < workers
        → slice_get t.steps index ≡ Some (Some (step.Wanted addr mode answer))
        → progress_before events t.steps worker index ≡ At job (Planning begun)
        → begun.left ≡ next ∷ behind → lock_request.Object addr mode ≢ next
        → PreservesPromise before later tree first workers events t → ⊥ }
    ensures claimed { (before later : Device) (tree : Tree) (first workers index worker : ℕ) (events : Schedule)
        (t : Transcript) (job : Job) (begun : Begun) (next : LockRequest) (behind : List LockRequest) (block : BlockNo)
        (answer : LockAnswer)
        → slice_get events index ≡ Some (event.Work worker) → worker < workers
        → slice_get t.steps index ≡ Some (Some (step.Claimed block answer))
        → progress_before events t.steps worker index ≡ At job (Planning begun)
        → begun.left ≡ next ∷ behind → lock_request.Claim block ≢ next
        → PreservesPromise before later tree first workers events t → ⊥ }
    ensures commit { (before later : Device) (tree : Tree) (first workers index worker : ℕ)
        (events : Schedule) (t : Transcript) (job : Job) (begun : Begun) (next : LockRequest) (behind : List LockRequest)
        (blocks : List BlockNo) (answer : Committing)
        → slice_get events index ≡ Some (event.Work worker) → worker < workers
        → slice_get t.steps index ≡ Some (Some (step.Commit blocks answer))
        → progress_before events t.steps worker index ≡ At job (Planning begun)
        → begun.left ≡ next ∷ behind
        → PreservesPromise before later tree first workers events t → ⊥ }
{}

/// A worker that is told Busy or Loading, and has taken something above what it asks for, or that itself in a lower mode,
/// doesn't wait: its next step ends its transaction, and its call begins again with what it knows then. Else the
/// promise is broken.
pub fn who_has_taken_more_above_does_not_wait()
    ensures off { (events : Schedule) (steps : List (Option Step)) (index worker : ℕ) (job : Job)
        (begun : Begun) (addr : Addr) (mode : Mode) (answer : LockAnswer)
        → slice_get events index ≡ Some (event.Work worker)
        → slice_get steps index ≡ Some (Some (step.Wanted addr mode answer))
        → (answer ≡ lock_answer.Busy) ⊎ (answer ≡ lock_answer.Loading)
        → progress_before events steps worker index ≡ At job (Planning begun)
        → is_barred (lock_request.Object addr mode) begun.taken ≡ true
        → progress_before events steps worker (index + 1)
        ≡ At job (Again begun (Some (lock_request.Object addr mode))) }
    ensures ends { (before later : Device) (tree : Tree) (first workers index worker : ℕ) (events : Schedule)
        (t : Transcript) (job : Job) (begun : Begun) (request : Option LockRequest) (made : Step)
        → slice_get events index ≡ Some (event.Work worker) → worker < workers
        → slice_get t.steps index ≡ Some (Some made)
        → progress_before events t.steps worker index ≡ At job (Again begun request)
        → made ≢ step.Ended ending.Again
        → PreservesPromise before later tree first workers events t → ⊥ }
    ensures known { (events : Schedule) (steps : List (Option Step)) (index worker : ℕ) (job : Job)
        (begun : Begun) (request : Option LockRequest)
        → slice_get events index ≡ Some (event.Work worker)
        → slice_get steps index ≡ Some (Some (step.Ended ending.Again))
        → progress_before events steps worker index ≡ At job (Again begun request)
        → progress_before events steps worker (index + 1) ≡ At job (Called (known_then begun request)) }
{}

/// A worker that ends its transaction to begin again while it plans, as one may only that was kept off so, breaks
/// the promise.
pub fn no_call_begins_again_for_nothing()
    ensures { (before later : Device) (tree : Tree) (first workers index worker : ℕ) (events : Schedule)
        (t : Transcript) (job : Job) (begun : Begun)
        → slice_get events index ≡ Some (event.Work worker) → worker < workers
        → slice_get t.steps index ≡ Some (Some (step.Ended ending.Again))
        → progress_before events t.steps worker index ≡ At job (Planning begun)
        → PreservesPromise before later tree first workers events t → ⊥ }
{}
