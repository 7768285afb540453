//! Laws on the steps of an open store: each leaves it open, with the entries that there were, and a commit
//! with one more. So a run's steps keep one invariant, and whatever a stop leaves has the files after a
//! beginning of the entries.
ghost use Rattle.std.specs.Prelude.{◌≡◌, ℕ, ◌+◌, ◌≤◌, ◌++◌, ◌∷◌, [], Bool, List, Result, if◌then◌else◌};
ghost use Rattle.std.specs.Prelude.{is_ok, length};
ghost use Rattle.std.specs.Prelude.{true};
ghost use Rattle.disk.specs.Crash.{Image, IsCrashImage};
ghost use Rattle.disk.specs.Device.{Device, HasRead, OneLater};
ghost use Rattle.disk.specs.declared.device.Failed.{Failed};
ghost use Rattle.nfs_spec.specs.Model.Entry.{Entry};
ghost use Rattle.nfs_spec.specs.Procedures.Step.{step};
ghost use Rattle.nfs_spec.specs.Model.Tree.{Tree};
ghost use Rattle.txn.specs.Outcomes.{TakesPlace};
ghost use Rattle.txn_law.specs.Commit.{Planned};
ghost use Rattle.txn_law.specs.Core.{CoreState, past, with_inst_call, with_log_call};
ghost use Rattle.circ.specs.Log.Calls.{InstCallComesBack, InstCallGoesOut, LogCallComesBack, LogCallGoesOut};
ghost use Rattle.circ.specs.Log.Calls.{Pending, home_after, idle, out, was_made};
ghost use Rattle.circ.specs.Log.Installer.{is_inst_out, may_install, with_inst_back};
ghost use Rattle.circ.specs.Log.Io.{HasMade, Io};
ghost use Rattle.circ.specs.Log.Log.{installed_place, settled_place};
ghost use Rattle.circ.specs.Log.Logger.{is_log_out, with_log_back};
ghost use Rattle.store_promise.specs.GoodImage.{IsGoodImage};
ghost use Rattle.store_promise.specs.OpenSince.{HasPreservedFiles, IsOpenSince, IsSoundCore, PreservesFiles};
ghost use Rattle.store_promise.specs.OpenSince.{LeavesBeginning, LeavesBlocks, LeavesLogUnchanged, TellsOf};

/// What a transaction takes, reads and lets go of leaves the store open: it changes neither log nor commits.
pub fn a_transaction_leaves_the_store_open()
    ensures { (base : Image) (d : Device) (old new : CoreState) (logging installing : Pending) (boot : ℕ)
        (first last : Tree) (entries : List Entry)
        → IsOpenSince base d old logging installing boot first entries last
        → LeavesLogUnchanged old new → IsSoundCore base new
        → IsOpenSince base d new logging installing boot first entries last }
{}

/// A read leaves the store open, made or failed.
pub fn a_read_leaves_the_store_open()
    ensures { (base : Image) (d later : Device) (core : CoreState) (logging installing : Pending) (boot : ℕ)
        (first last : Tree) (entries : List Entry)
        → IsOpenSince base d core logging installing boot first entries last → HasRead d later
        → IsOpenSince base later core logging installing boot first entries last }
{
    circ::law::a_read_preserves_agreement();
    txn_law::steps_keep_what_may_be_read();
}

/// A commit leaves the store open with its entry, which is a step of the sequential server from the files as
/// they were.
pub fn a_commit_leaves_the_store_open()
    ensures { (base : Image) (d : Device) (old new : CoreState) (logging installing : Pending) (boot : ℕ)
        (first last : Tree) (entries : List Entry) (tx place : ℕ) (plan : Planned) (entry : Entry)
        → IsOpenSince base d old logging installing boot first entries last
        → TakesPlace old tx plan place new → IsSoundCore base new → TellsOf boot plan entry
        → (next : Tree) × step last entry.ctx entry.call entry.reply next
        × IsOpenSince base d new logging installing boot first (entries ++ entry ∷ []) next }
{
    layout::counts_make_one_geometry();
    nfs_spec::no_step_makes_a_later_stamp();
    txn_law::steps_keep_what_may_be_read();
}

/// The logger's calls leave the store open: taken, made on the device with any answer, and given back.
pub fn the_logger_leaves_the_store_open()
    ensures taken { (base : Image) (d : Device) (old new : CoreState) (io : Io)
        (installing : Pending) (boot : ℕ) (first last : Tree) (entries : List Entry)
        → IsOpenSince base d old idle installing boot first entries last
        → new ≡ with_log_call old → LogCallGoesOut old.log io new.log
        → IsSoundCore base new
        → IsOpenSince base d new (out io) installing boot first entries last }
    ensures made { (base : Image) (d later : Device) (core : CoreState) (io : Io) (answer : Result Unit Failed)
        (installing : Pending) (boot : ℕ) (first last : Tree) (entries : List Entry)
        → IsOpenSince base d core (out io) installing boot first entries last → HasMade d io answer later
        → IsOpenSince base later core (was_made io answer) installing boot first entries last }
    ensures given_back { (base : Image) (d : Device) (old new : CoreState) (io : Io)
        (answer : Result Unit Failed) (ok : Bool) (installing : Pending) (boot : ℕ) (first last : Tree)
        (entries : List Entry)
        → IsOpenSince base d old (was_made io answer) installing boot first entries last → is_ok answer ≡ ok
        → new ≡ record old { log = new.log }
        → new.log ≡ (if is_log_out old.log io then with_log_back old.log ok else old.log)
        → LogCallComesBack old.log io ok new.log → IsSoundCore base new
        → IsOpenSince base d new idle installing boot first entries last }
{
    circ::law::a_call_of_the_logger_preserves_agreement();
    txn_law::the_logger_preserves_what_may_be_read();
}

/// So do the installer's. Once its last call is given back the store is open over what was brought home.
pub fn the_installer_leaves_the_store_open()
    ensures taken { (base : Image) (d : Device) (old new : CoreState) (io : Io) (logging : Pending) (boot : ℕ)
        (first last : Tree) (entries : List Entry)
        → IsOpenSince base d old logging idle boot first entries last → may_install old.log ≡ true
        → new ≡ with_inst_call old → InstCallGoesOut old.log io new.log
        → IsSoundCore base new
        → IsOpenSince base d new logging (out io) boot first entries last }
    ensures made { (base : Image) (d later : Device) (core : CoreState) (io : Io) (answer : Result Unit Failed)
        (logging : Pending) (boot : ℕ) (first last : Tree) (entries : List Entry)
        → IsOpenSince base d core logging (out io) boot first entries last → HasMade d io answer later
        → IsOpenSince base later core logging (was_made io answer) boot first entries last }
    ensures given_back { (base : Image) (d : Device) (old new : CoreState) (io : Io)
        (answer : Result Unit Failed) (ok : Bool) (logging : Pending) (boot : ℕ) (first last : Tree)
        (entries : List Entry)
        → IsOpenSince base d old logging (was_made io answer) boot first entries last → is_ok answer ≡ ok
        → new ≡ record old {
          log = new.log;
          records = past (installed_place new.log) old.records;
          present = new.present;
        }
        → new.log ≡ (if is_inst_out old.log io then with_inst_back old.log ok else old.log)
        → InstCallComesBack old.log io ok new.log
        → IsSoundCore (if is_inst_out old.log io then home_after base old.log ok else base) new
        → IsOpenSince (home_after base old.log ok) d new logging idle boot first entries last }
{
    circ::law::a_call_of_the_installer_preserves_agreement();
    txn_law::the_installer_preserves_what_may_be_read();
}

/// Whatever a stop leaves of a store that is open since then is good, and has the files after a beginning of
/// the entries, in which is each settled place. Where all are settled it has the last files.
pub fn a_stop_leaves_a_beginning()
    ensures blocks { (base : Image) (d : Device) (core : CoreState) (logging installing : Pending) (boot : ℕ)
        (first last : Tree) (entries : List Entry) (image : Image)
        → IsOpenSince base d core logging installing boot first entries last → IsCrashImage d d.clock image
        → LeavesBlocks base core boot first entries image }
    ensures files { (base : Image) (d : Device) (core : CoreState) (logging installing : Pending) (boot : ℕ)
        (first last : Tree) (entries : List Entry) (image : Image)
        → IsOpenSince base d core logging installing boot first entries last → IsCrashImage d d.clock image
        → LeavesBeginning d.size boot first entries (settled_place core.log) image }
    ensures whole { (base : Image) (d : Device) (core : CoreState) (logging installing : Pending) (boot : ℕ)
        (first last : Tree) (entries : List Entry) (image : Image)
        → IsOpenSince base d core logging installing boot first entries last → IsCrashImage d d.clock image
        → settled_place core.log ≡ core.log.places → IsGoodImage d.size image last boot }
{
    crate::a_stop_leaves_a_good_image();
}

/// So it was at each moment: a device call moves what was now into the past, and one more entry keeps the past.
pub fn an_open_store_preserves_its_files()
    ensures call { (before old new : Device) (base : Image) (core : CoreState) (logging installing : Pending)
        (boot settled : ℕ) (first last : Tree) (entries : List Entry)
        → HasPreservedFiles before old boot first entries settled
        → IsOpenSince base old core logging installing boot first entries last
        → settled ≤ settled_place core.log
        → OneLater old new → HasPreservedFiles before new boot first entries settled }
    ensures now { (before d : Device) (base : Image) (core : CoreState) (logging installing : Pending)
        (boot settled : ℕ) (first last : Tree) (entries : List Entry)
        → HasPreservedFiles before d boot first entries settled
        → IsOpenSince base d core logging installing boot first entries last → settled ≤ settled_place core.log
        → PreservesFiles before d boot first entries settled }
    ensures longer { (before d : Device) (boot settled fewer : ℕ) (first : Tree) (entries more : List Entry)
        → HasPreservedFiles before d boot first entries settled → fewer ≤ settled
        → HasPreservedFiles before d boot first (entries ++ more) fewer }
{
    crate::a_stop_leaves_a_beginning();
}
