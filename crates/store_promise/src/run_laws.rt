//! Laws on a run that goes on: what its device has counted, and what its reads have brought.
ghost use Rattle.std.specs.Prelude.{◌≡◌, ◌+◌, ◌++◌, ◌∷◌, [], All, Contains, List, Option, Result};
ghost use Rattle.std.specs.Prelude.{is_err, length, ℕ, Bool, false, true};
ghost use Rattle.disk.specs.Crash.{Image};
ghost use Rattle.disk.specs.Device.{CountsFailure, Device, HasRead, OneLater, current, newest};
ghost use Rattle.disk.specs.declared.block.BlockNo.{BlockNo};
ghost use Rattle.disk.specs.declared.device.Failed.{Failed};
ghost use Rattle.nfs_spec.specs.Model.Entry.{Entry};
ghost use Rattle.nfs_spec.specs.Procedures.Step.{step};
ghost use Rattle.layout.specs.declared.version.FormatVersion.TheVariants.{Second};
ghost use Rattle.nfs_spec.specs.Model.Tree.{Tree};
ghost use Rattle.txn.specs.Outcomes.{TakesPlace};
ghost use Rattle.txn_law.specs.Commit.{Planned};
ghost use Rattle.circ.specs.Log.Calls.{Pending, home_after};
ghost use Rattle.txn_law.specs.Core.{CoreState};
ghost use Rattle.txn_law.specs.CoreWindow.{IsPending};
ghost use Rattle.txn_law.specs.Fetch.{Fetch};
ghost use Rattle.txn_law.specs.HomeRead.{HasContents};
ghost use Rattle.txn_law.specs.Leaves.{is_fetching, with_fetch};
ghost use Rattle.txn_law.specs.Window.{with_objects};
ghost use Rattle.store_promise.specs.declared.events.Step.{Step};
ghost use Rattle.store_promise.specs.OpenSince.{IsOpenSince, IsSoundCore, LeavesLogUnchanged, TellsOf, file_blocks};
ghost use Rattle.store_promise.specs.OpenStore.{IsNewOver};
ghost use Rattle.store_promise.specs.Openings.{IsOpened};
ghost use Rattle.store_promise.specs.Schedule.{Setting, at_first};
ghost use Rattle.store_promise.specs.Running.{IsFetchOver, IsMovedAlong, IsMovedBy, IsRunningOver, IsRunState};
ghost use Rattle.store_promise.specs.Running.{at_rest};
ghost use Rattle.store_promise.specs.Running.{side, with_blocks};
ghost use Rattle.store_promise.specs.Transcript.{calls_device, fails};

/// What an opening leaves begins a run, over what is at home: with the files that were found, no entry, no read
/// that is out, and a log of which nothing is told yet.
pub fn an_opening_begins_a_run()
    ensures runs { (before opened : Device) (base : Image) (core : CoreState) (tree : Tree)
        (first : ℕ) (o : Setting)
        → IsOpened before opened tree first o.position → IsNewOver base opened core
        → o.geometry.version ≡ Second → o.geometry.blocks ≡ opened.size → o.geometry.inodes ≡ core.inodes
        → ((place : ℕ) → o.blocks place ≡ file_blocks base core)
        → IsRunningOver o base (at_rest opened core) [] (first + 1) tree [] tree }
    ensures is_run_state { (before opened : Device) (base : Image) (core : CoreState) (tree : Tree)
        (first : ℕ) (o : Setting)
        → IsOpened before opened tree first o.position → IsNewOver base opened core
        → IsRunState o at_first (at_rest opened core) }
{
    crate::an_opening_leaves_an_open_store();
}

/// The device of a run has counted its steps' calls and their failures: at first none, and with each step its
/// own.
pub fn a_device_counts_the_calls_of_its_steps()
    ensures first { (d : Device) → IsMovedAlong d [] d }
    ensures none { (d : Device) (made : Option Step) → calls_device made ≡ false → IsMovedBy d made d }
    ensures call { (old new : Device) (made : Option Step) (answer : Result Unit Failed)
        → calls_device made ≡ true → fails made ≡ is_err answer → OneLater old new
        → CountsFailure old new answer → IsMovedBy old made new }
    ensures step { (opened old new : Device) (steps : List (Option Step)) (made : Option Step)
        → IsMovedAlong opened steps old → IsMovedBy old made new
        → IsMovedAlong opened (steps ++ made ∷ []) new }
{}

/// What was read of a block whose fetch is pending is what is at home, until it is given back: a read brings
/// it, a step that makes no more fetches pending keeps it, so does a fetch of another block, and so does an
/// installation.
pub fn what_was_read_is_at_home()
    ensures read { (base : Image) (d : Device) (core : CoreState) (logging installing : Pending) (boot : ℕ)
        (first last : Tree) (entries : List Entry) (fetch : Fetch)
        → IsOpenSince base d core logging installing boot first entries last → HasContents d
        → fetch.content ≡ newest (current d fetch.block.0) → IsFetchOver base core fetch }
    ensures is_preserved { (base : Image) (old new : CoreState) (fetches : List Fetch)
        → ((block : BlockNo) → IsPending new block → IsPending old block)
        → All (IsFetchOver base old) fetches → All (IsFetchOver base new) fetches }
    ensures wanted { (base : Image) (old new : CoreState) (fetches : List Fetch) (block : BlockNo)
        → ((other : BlockNo) → is_fetching new other ≡ with_fetch block (is_fetching old) other)
        → ((fetch : Fetch) → Contains fetches fetch → fetch.block.0 ≡ block.0 → ⊥)
        → All (IsFetchOver base old) fetches → All (IsFetchOver base new) fetches }
    ensures installed { (base : Image) (d : Device) (old new : CoreState)
        (logging installing : Pending) (ok : Bool) (boot : ℕ) (first last : Tree) (entries : List Entry)
        (fetches : List Fetch)
        → IsOpenSince base d old logging installing boot first entries last
        → ((block : BlockNo) → IsPending new block → IsPending old block)
        → All (IsFetchOver base old) fetches → All (IsFetchOver (home_after base old.log ok) new) fetches }
{
    txn_law::a_fetch_preserves_the_window_of_the_core();
}

/// What a worker does leaves a run going: what its transaction takes, reads and lets go of; a read that is
/// made; and a commit, with one entry more, which is a step of the sequential server, in the setting that has
/// the blocks after it.
pub fn a_worker_preserves_the_run_going()
    ensures log_unchanged { (o : Setting) (base : Image) (d : Device) (old new : CoreState)
        (logging installing : Pending) (fetches left : List Fetch) (boot : ℕ) (first last : Tree)
        (entries : List Entry)
        → IsRunningOver o base (side d old logging installing) fetches boot first entries last
        → LeavesLogUnchanged old new → IsSoundCore base new → All (IsFetchOver base new) left
        → IsRunningOver o base (side d new logging installing) left boot first entries last }
    ensures read { (o : Setting) (base : Image) (d later : Device) (core : CoreState)
        (logging installing : Pending) (fetches read : List Fetch) (boot : ℕ) (first last : Tree)
        (entries : List Entry)
        → IsRunningOver o base (side d core logging installing) fetches boot first entries last
        → HasRead d later → All (IsFetchOver base core) read
        → IsRunningOver o base (side later core logging installing) read boot first entries last }
    ensures commit { (o : Setting) (base : Image) (d : Device) (old new : CoreState)
        (logging installing : Pending) (fetches left : List Fetch) (boot : ℕ) (first last : Tree)
        (entries : List Entry) (tx place : ℕ)
        (plan : Planned) (entry : Entry)
        → IsRunningOver o base (side d old logging installing) fetches boot first entries last
        → TakesPlace old tx plan place new → IsSoundCore base new → TellsOf boot plan entry
        → All (IsFetchOver base new) left
        → (next : Tree) × step last entry.ctx entry.call entry.reply next
        × IsRunningOver (with_blocks o (length entries) (file_blocks base new)) base
        (side d new logging installing)
        left boot first (entries ++ entry ∷ []) next }
    ensures writes { (o : Setting) (base : Image) (d : Device) (old new : CoreState)
        (logging installing : Pending)
        (fetches : List Fetch) (boot : ℕ) (first last : Tree) (entries : List Entry) (tx place : ℕ)
        (plan : Planned)
        → IsRunningOver o base (side d old logging installing) fetches boot first entries last
        → TakesPlace old tx plan place new
        → file_blocks base new ≡ with_objects (file_blocks base old) plan.written }
{
    crate::a_commit_leaves_the_store_open();
    crate::a_transaction_leaves_the_store_open();
    crate::a_read_leaves_the_store_open();
}
