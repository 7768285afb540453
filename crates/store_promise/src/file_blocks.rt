//! Laws on the blocks that stand for the files of an open store: what is held for reading is theirs, and only a
//! commit changes them.
ghost use Rattle.std.specs.Prelude.{◌≡◌, ℕ, ◌+◌, ◌-◌, ◌≤◌, Bool, List, if◌then◌else◌, length};
ghost use Rattle.disk.specs.Crash.{Image};
ghost use Rattle.disk.specs.Device.{Device};
ghost use Rattle.nfs_spec.specs.Model.Entry.{Entry};
ghost use Rattle.nfs_spec.specs.Model.Tree.{Tree};
ghost use Rattle.txn.specs.Outcomes.{TakesPlace};
ghost use Rattle.txn_law.specs.Commit.{IsReadBy, Planned};
ghost use Rattle.txn_law.specs.Core.{CoreState, past, with_inst_call, with_log_call};
ghost use Rattle.txn_law.specs.Object.{ObjectBytes};
ghost use Rattle.txn_law.specs.Window.{IsAsRead, with_objects};
ghost use Rattle.circ.specs.Log.Calls.{Pending, home_after};
ghost use Rattle.circ.specs.Log.Installer.{with_inst_back, with_inst_out};
ghost use Rattle.circ.specs.Log.Log.{IsLawful, Log, installed_place, settled_place};
ghost use Rattle.circ.specs.Log.Logger.{with_log_back, with_log_out};
ghost use Rattle.store_promise.specs.OpenSince.{HasFileBlocks, IsOpenSince, LeavesLogUnchanged, blocks_after};
ghost use Rattle.store_promise.specs.OpenSince.{file_blocks};

/// The blocks stand for the files as they are, and have what any transaction holds for reading.
pub fn what_is_held_is_what_the_files_are()
    ensures stands { (base : Image) (d : Device) (core : CoreState) (logging installing : Pending) (boot : ℕ)
        (first last : Tree) (entries : List Entry)
        → IsOpenSince base d core logging installing boot first entries last → HasFileBlocks base core last }
    ensures read { (base : Image) (d : Device) (core : CoreState) (logging installing : Pending) (boot : ℕ)
        (first last : Tree) (entries : List Entry) (tx : ℕ) (object : ObjectBytes)
        → IsOpenSince base d core logging installing boot first entries last → IsReadBy core tx object
        → IsAsRead (file_blocks base core) object }
{}

/// A commit lays over them what it writes, and no other step changes them: neither what transactions take and
/// read, nor the logger, nor the installer, also where it has brought blocks home.
pub fn only_a_commit_changes_the_files()
    ensures commit { (base : Image) (d : Device) (old new : CoreState) (logging installing : Pending) (boot : ℕ)
        (first last : Tree) (entries : List Entry) (tx place : ℕ) (plan : Planned)
        → IsOpenSince base d old logging installing boot first entries last → TakesPlace old tx plan place new
        → file_blocks base new ≡ with_objects (file_blocks base old) plan.written }
    ensures log_unchanged { (base : Image) (old new : CoreState) → LeavesLogUnchanged old new
        → file_blocks base new ≡ file_blocks base old }
    ensures logger { (base : Image) (core : CoreState) (ok : Bool)
        → (file_blocks base (with_log_call core) ≡ file_blocks base core)
        × (file_blocks base (record core { log = with_log_back core.log ok }) ≡ file_blocks base core) }
    ensures installer { (base : Image) (core : CoreState)
        → file_blocks base (with_inst_call core) ≡ file_blocks base core }
    ensures installed { (base : Image) (d : Device) (old new : CoreState)
        (logging installing : Pending) (ok : Bool) (boot : ℕ) (first last : Tree) (entries : List Entry)
        → IsOpenSince base d old logging installing boot first entries last
        → new.log ≡ with_inst_back old.log ok → new.records ≡ past (installed_place new.log) old.records
        → file_blocks (home_after base old.log ok) new ≡ file_blocks base old }
{}

/// The blocks after each earlier commit stay what they were, through a commit and through an installation.
pub fn earlier_files_keep_their_blocks()
    ensures commit { (base : Image) (d : Device) (old new : CoreState) (logging installing : Pending) (boot : ℕ)
        (first last : Tree) (entries : List Entry) (tx place count : ℕ) (plan : Planned)
        → IsOpenSince base d old logging installing boot first entries last → TakesPlace old tx plan place new
        → count ≤ length old.records → blocks_after base new count ≡ blocks_after base old count }
    ensures installed { (base : Image) (d : Device) (old new : CoreState)
        (logging installing : Pending) (ok : Bool) (boot : ℕ) (first last : Tree)
        (entries : List Entry) (count : ℕ)
        → IsOpenSince base d old logging installing boot first entries last
        → new.log ≡ with_inst_back old.log ok → new.records ≡ past (installed_place new.log) old.records
        → blocks_after (home_after base old.log ok) new count
        ≡ blocks_after base old (installed_place new.log - installed_place old.log + count) }
{}

/// What is settled stays settled: no step takes a settled place back.
pub fn what_is_settled_stays_settled()
    ensures commit { (old new : CoreState) (tx place : ℕ) (plan : Planned) → IsLawful old.log
        → TakesPlace old tx plan place new → settled_place old.log ≤ settled_place new.log }
    ensures logger { (log : Log) (is_out ok : Bool) → IsLawful log
        → (settled_place log ≤ settled_place (with_log_out log))
        × (settled_place log ≤ settled_place (if is_out then with_log_back log ok else log)) }
    ensures installer { (log : Log) (is_out ok : Bool) → IsLawful log
        → (settled_place log ≤ settled_place (with_inst_out log))
        × (settled_place log ≤ settled_place (if is_out then with_inst_back log ok else log)) }
{}
