//! Laws on the promise of a run.
ghost use Rattle.std.specs.Prelude.{◌≡◌, ◌≢◌, ◌+◌, ◌<◌, ◌≤◌, ℕ, [], slice_get, Some, Contains};
ghost use Rattle.std.specs.Prelude.{Bool, count_by, length, take, true, List, ◌∷◌, ◌++◌, Option};
ghost use Rattle.disk.specs.Crash.{Image, IsCrashImage};
ghost use Rattle.disk.specs.Device.{Device, is_on};
ghost use Rattle.disk.specs.declared.block.BlockNo.{BlockNo};
ghost use Rattle.disk.specs.declared.block.Side.{Side};
ghost use Rattle.nfs_types.specs.declared.reply.Reply.{Reply};
ghost use Rattle.nfs_spec.specs.Procedures.After.{after};
ghost use Rattle.nfs_spec.specs.Procedures.Histories.{IsOfOneBoot};
ghost use Rattle.nfs_spec.specs.Model.Tree.{Tree};
ghost use Rattle.layout.specs.Homes.{homes_of};
ghost use Rattle.circ.specs.Log.Overlay.{over};
ghost use Rattle.circ.specs.declared.log.calls.IoCall.TheVariants.{Barrier, Write};
ghost use Rattle.store_promise.specs.declared.answers.Verdict.TheVariants as verdict;
ghost use Rattle.store_promise.specs.declared.events.Committing.TheVariants as committing;
ghost use Rattle.store_promise.specs.declared.events.Event.TheVariants as event;
ghost use Rattle.store_promise.specs.declared.events.Step.{Step};
ghost use Rattle.store_promise.specs.declared.events.Step.TheVariants as step;
ghost use Rattle.store_promise.specs.declared.transcript.Answer.{Answer};
ghost use Rattle.store_promise.specs.declared.transcript.Committed.{Committed};
ghost use Rattle.store_promise.specs.CauseOfIo.{HasFailedFor, tells_io};
ghost use Rattle.store_promise.specs.GoodImage.{IsGoodImage};
ghost use Rattle.store_promise.specs.Headline.{EndsWell, PreservesPromise};
ghost use Rattle.store_promise.specs.Openings.{IsOpened};
ghost use Rattle.store_promise.specs.LogState.{out, state_settled};
ghost use Rattle.store_promise.specs.Schedule.{Schedule, state_before};
ghost use Rattle.store_promise.specs.Transcript.{Report, Transcript, calls_device, device_calls, entries_of};
ghost use Rattle.store_promise.specs.Transcript.{fails, step_at};
ghost use Rattle.store_promise.specs.Verdicts.{IsCoveredWrite, IsStableAnswer};

/// A run of no events keeps the promise, where its opening is one that leaves the same homes at each stop.
pub fn a_run_of_no_events_preserves_the_promise()
    ensures { (before later : Device) (tree : Tree) (first position workers : ℕ) (blocks : Image)
        → IsOpened before later tree first position
        → ((image : Image) → IsCrashImage later later.clock image → homes_of later.size (over image) ≡ blocks)
        → PreservesPromise before later tree first workers [] (record {
          boot = first + 1;
          history = [];
          answers = [];
          steps = [];
        }) }
{}

/// A run that takes fewer events than there are, and to which no memory was refused, breaks the promise.
pub fn every_event_is_taken()
    ensures { (before later : Device) (tree : Tree) (first workers : ℕ) (events : Schedule) (report : Report)
        → length report.run_transcript.steps < length events → report.refused ≡ 0
        → EndsWell before later tree first workers events report → ⊥ }
{}

/// A device call that isn't the one that its step names breaks the promise: a barrier that leaves two contents
/// of a block of its side, a write that changes another block, one that was made well and brings no content,
/// and a read that changes a block.
pub fn a_device_call_is_the_one_in_the_steps()
    ensures barrier { (before later : Device) (tree : Tree) (first workers start index block : ℕ)
        (events : Schedule) (t : Transcript) (side : Side)
        → later.clock ≡ start + device_calls t (length t.steps)
        → slice_get t.steps index ≡ Some (Some (step.LogIo true))
        → (state_before events t.steps index).log.log_call ≡ out (Barrier side)
        → is_on side block ≡ true → 1 < length (later.contents (start + device_calls t index + 1) block)
        → PreservesPromise before later tree first workers events t → ⊥ }
    ensures write { (before later : Device) (tree : Tree) (first workers start index block : ℕ)
        (events : Schedule) (t : Transcript) (written : BlockNo) (ok : Bool)
        → later.clock ≡ start + device_calls t (length t.steps)
        → slice_get t.steps index ≡ Some (Some (step.LogIo ok))
        → (state_before events t.steps index).log.log_call ≡ out (Write written) → block ≢ written.0
        → later.contents (start + device_calls t index + 1) block
        ≢ later.contents (start + device_calls t index) block
        → PreservesPromise before later tree first workers events t → ⊥ }
    ensures content { (before later : Device) (tree : Tree) (first workers start index : ℕ)
        (events : Schedule) (t : Transcript) (written : BlockNo)
        → later.clock ≡ start + device_calls t (length t.steps)
        → slice_get t.steps index ≡ Some (Some (step.LogIo true))
        → (state_before events t.steps index).log.log_call ≡ out (Write written)
        → length (later.contents (start + device_calls t index + 1) written.0)
        ≤ length (later.contents (start + device_calls t index) written.0)
        → PreservesPromise before later tree first workers events t → ⊥ }
    ensures read { (before later : Device) (tree : Tree) (first workers start index block : ℕ)
        (events : Schedule) (t : Transcript) (of : BlockNo) (ok : Bool)
        → later.clock ≡ start + device_calls t (length t.steps)
        → slice_get t.steps index ≡ Some (Some (step.Read of ok))
        → later.contents (start + device_calls t index + 1) block
        ≢ later.contents (start + device_calls t index) block
        → PreservesPromise before later tree first workers events t → ⊥ }
{}

/// A procedure for a call that no event hands its worker breaks the promise.
pub fn an_entry_was_called()
    ensures { (before later : Device) (tree : Tree) (first workers index : ℕ) (events : Schedule)
        (t : Transcript) (c : Committed)
        → slice_get t.history index ≡ Some c
        → ((at : ℕ) → slice_get events at ≢ Some (event.Call c.worker c.ctx.credential c.ctx.moment c.call))
        → PreservesPromise before later tree first workers events t → ⊥ }
{}

/// A stable answer to a procedure that some stop after it loses breaks the promise.
pub fn what_is_stable_is_preserved()
    ensures { (before later : Device) (tree : Tree) (first workers clock place : ℕ) (events : Schedule)
        (t : Transcript) (a : Answer) (image : Image)
        → before.clock ≤ clock → clock ≤ later.clock → IsCrashImage later clock image
        → Contains t.answers a → later.clock + a.clock ≤ clock + device_calls t (length t.steps)
        → IsStableAnswer t a place
        → ((count boot : ℕ) (left : Tree) → place ≤ count → after tree (take count (entries_of t)) left
        → IsGoodImage later.size image left boot → ⊥)
        → PreservesPromise before later tree first workers events t → ⊥ }
{}

/// A stop that leaves an image without the tree of a prefix, as one with half a group is, breaks the promise.
pub fn half_a_group_breaks_the_promise()
    ensures { (before later : Device) (tree : Tree) (first workers clock : ℕ) (events : Schedule)
        (t : Transcript) (image : Image)
        → before.clock ≤ clock → clock ≤ later.clock → IsCrashImage later clock image
        → ((count boot : ℕ) (left : Tree) → after tree (take count (entries_of t)) left
        → IsGoodImage later.size image left boot → ⊥)
        → PreservesPromise before later tree first workers events t → ⊥ }
{}

/// An answer with the reply of a procedure that is to be answered once it is stable, given with the commit,
/// breaks the promise.
pub fn no_stable_answer_comes_with_its_commit()
    ensures { (before later : Device) (tree : Tree) (first workers index place : ℕ) (events : Schedule)
        (t : Transcript) (a : Answer) (blocks : List BlockNo)
        → slice_get t.answers index ≡ Some a → IsStableAnswer t a place
        → step_at t a.event ≡ Some (step.Commit blocks (committing.Committed (record { 0 = place })))
        → PreservesPromise before later tree first workers events t → ⊥ }
{}

/// An answer that bears place 0, as no procedure has it, is no stable answer.
pub fn no_stable_answer_bears_place_0()
    ensures { (t : Transcript) (a : Answer) → IsStableAnswer t a 0 → ⊥ }
{}

/// A step that tells of a failure where the device has counted none breaks the promise.
pub fn a_reported_failure_was_counted()
    ensures { (before later : Device) (tree : Tree) (first workers : ℕ) (events : Schedule) (t : Transcript)
        → later.failures ≡ before.failures → 0 < count_by fails t.steps
        → PreservesPromise before later tree first workers events t → ⊥ }
{}

/// Before an answer of IO a device call has failed, and a step before the answer tells so: a call of the log or
/// of the installer, or a read that was made for the call that is answered.
pub fn an_answer_of_io_has_its_failed_call()
    ensures { (before later : Device) (tree : Tree) (first workers start index : ℕ) (events : Schedule)
        (t : Transcript) (a : Answer) (reply : Reply)
        → slice_get t.answers index ≡ Some a → a.verdict ≡ verdict.Reply reply → tells_io reply ≡ true
        → later.clock ≡ start + device_calls t (length t.steps)
        → PreservesPromise before later tree first workers events t → HasFailedFor later.failed start events t a }
{
    nfs_spec::no_step_tells_a_failure();
}

/// A step that tells that its device call failed where that very call was made, or that it was made where it
/// failed, breaks the promise.
pub fn a_failure_is_reported_of_its_own_call()
    ensures { (before later : Device) (tree : Tree) (first workers start : ℕ) (events : Schedule)
        (t : Transcript) (earlier rest : List (Option Step)) (made : Option Step)
        → t.steps ≡ earlier ++ made ∷ rest → calls_device made ≡ true
        → later.clock ≡ start + device_calls t (length t.steps)
        → later.failed (start + count_by calls_device earlier) ≢ fails made
        → PreservesPromise before later tree first workers events t → ⊥ }
{}

/// A place that the steps told as settled, and that some stop after it loses, breaks the promise.
pub fn what_is_reported_settled_is_preserved()
    ensures { (before later : Device) (tree : Tree) (first workers clock place index : ℕ) (events : Schedule)
        (t : Transcript) (image : Image)
        → before.clock ≤ clock → clock ≤ later.clock → IsCrashImage later clock image
        → index ≤ length t.steps
        → later.clock + device_calls t index ≤ clock + device_calls t (length t.steps)
        → place ≤ state_settled (state_before events t.steps index).log
        → ((count boot : ℕ) (left : Tree) → place ≤ count → after tree (take count (entries_of t)) left
        → IsGoodImage later.size image left boot → ⊥)
        → PreservesPromise before later tree first workers events t → ⊥ }
{}

/// A device that a stop leaves without an image, of which each promise would be of nothing, breaks the promise.
pub fn a_stop_leaves_an_image()
    ensures { (before later : Device) (tree : Tree) (first workers clock : ℕ) (events : Schedule)
        (t : Transcript)
        → before.clock ≤ clock → clock ≤ later.clock
        → ((image : Image) → IsCrashImage later clock image → ⊥)
        → PreservesPromise before later tree first workers events t → ⊥ }
{}

/// A stop after the opening that doesn't leave the opening's boot number breaks the promise.
pub fn the_boot_number_stays_incremented()
    ensures { (before later : Device) (tree : Tree) (first workers clock : ℕ) (events : Schedule)
        (t : Transcript) (image : Image)
        → before.clock ≤ clock → clock ≤ later.clock → IsCrashImage later clock image
        → later.clock ≤ clock + device_calls t (length t.steps)
        → ((left : Tree) → IsGoodImage later.size image left (first + 1) → ⊥)
        → PreservesPromise before later tree first workers events t → ⊥ }
{}

/// A write that an answer to a COMMIT covers, and that some stop after the answer loses, breaks the promise.
pub fn what_a_commit_covers_is_preserved()
    ensures { (before later : Device) (tree : Tree) (first workers clock place : ℕ) (events : Schedule)
        (t : Transcript) (a : Answer) (image : Image)
        → before.clock ≤ clock → clock ≤ later.clock → IsCrashImage later clock image
        → Contains t.answers a → later.clock + a.clock ≤ clock + device_calls t (length t.steps)
        → IsCoveredWrite t a place
        → ((count boot : ℕ) (left : Tree) → place ≤ count → after tree (take count (entries_of t)) left
        → IsGoodImage later.size image left boot → ⊥)
        → PreservesPromise before later tree first workers events t → ⊥ }
{}

/// A history whose later place was committed by an earlier event breaks the promise.
pub fn the_history_is_in_order()
    ensures { (before later : Device) (tree : Tree) (first workers one other : ℕ) (events : Schedule)
        (t : Transcript) (a b : Committed)
        → slice_get t.history one ≡ Some a → slice_get t.history other ≡ Some b → one < other
        → b.event ≤ a.event
        → PreservesPromise before later tree first workers events t → ⊥ }
{}

/// What a run commits is of its boot, and no two procedures have one stamp, in whatever order they were
/// committed.
pub fn a_run_is_of_one_boot()
    ensures { (before later : Device) (tree : Tree) (first workers : ℕ) (events : Schedule) (t : Transcript)
        → PreservesPromise before later tree first workers events t → IsOfOneBoot (first + 1) (entries_of t) }
{}

/// Two procedures of one transaction number break the promise: a call that restarts takes another.
pub fn each_procedure_has_a_number_of_its_own()
    ensures { (before later : Device) (tree : Tree) (first workers one other : ℕ) (events : Schedule)
        (t : Transcript) (a b : Committed)
        → slice_get t.history one ≡ Some a → slice_get t.history other ≡ Some b → one ≢ other
        → a.ctx.transaction ≡ b.ctx.transaction
        → PreservesPromise before later tree first workers events t → ⊥ }
{}

/// Two answers that bear the place of one procedure break the promise.
pub fn no_procedure_is_answered_twice()
    ensures { (before later : Device) (tree : Tree) (first workers one other place : ℕ) (events : Schedule)
        (t : Transcript) (a b : Answer)
        → slice_get t.answers one ≡ Some a → slice_get t.answers other ≡ Some b → one ≢ other
        → a.place ≡ Some (record { 0 = place }) → b.place ≡ Some (record { 0 = place })
        → PreservesPromise before later tree first workers events t → ⊥ }
{}
