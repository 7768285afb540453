//! What the core of transactions is, and its laws: the definitions that the core's contracts cite, over plain
//! data, and what is true of them. It has no code of a core: that stands in `txn`.
#![tactic(auto)]

mod hold;
mod reads;
mod window;

ghost use Rattle.std.specs.Prelude.{◌≡◌, ◌≢◌, ◌∷◌, ◌+◌, ◌-◌, ◌≤◌, ℕ, List, [], All, Bool, Option, None, length};
ghost use Rattle.std.specs.Prelude.{take, drop};
ghost use Rattle.std.specs.Prelude.{true, false, Some};
ghost use Rattle.disk.specs.Device.{Content};
ghost use Rattle.disk.specs.Crash.{Image};
ghost use Rattle.disk.specs.declared.block.BlockNo.{BlockNo};
ghost use Rattle.circ.specs.Log.Log.{Log, IsLawful, newest, opened, installed_place, settled_place};
ghost use Rattle.circ.specs.Log.Law.{IsBoundary, IsOutside, with_changes};
ghost use Rattle.circ.specs.Log.Overlay.{over};
ghost use Rattle.circ.specs.Log.Calls.{home_after};
ghost use Rattle.circ.specs.Log.Logger.{with_log_out, with_log_back};
ghost use Rattle.circ.specs.Log.Installer.{with_inst_out, with_inst_back};
ghost use Rattle.circ.specs.Log.Grows.{GrowsBy};
ghost use Rattle.txn_law.specs.Core.{CoreState, IsOut, past, installed, ended};
ghost use Rattle.txn_law.specs.Records.{swept};
ghost use Rattle.txn_law.specs.declared.hold.Hold.{Hold};
ghost use Rattle.txn_law.specs.Lists.{IsHeldExactly, IsFetchedExactly, claimed};
ghost use Rattle.txn_law.specs.Fetch.{Fetch};
ghost use Rattle.objects.specs.Mode.{upgraded};
ghost use Rattle.objects.specs.declared.addr.Addr.{Addr};
ghost use Rattle.objects.specs.declared.mode.Mode.{Mode};
ghost use Rattle.txn_law.specs.CoreWindow.{IsCoreWindow, IsHomeOf, PreservesReads, held_of};
ghost use Rattle.txn_law.specs.WellFormed.{IsWellFormed};
ghost use Rattle.objects.specs.Object.{ObjectBytes};
ghost use Rattle.objects.specs.Present.{present_of, content_in};
ghost use Rattle.txn_law.specs.Fetched.{fetched, fetch_failed};
ghost use Rattle.txn_law.specs.Leaves.{Leaves, taken_by, is_fetching, in_memory};
ghost use Rattle.txn_law.specs.Others.{IsApartFrom, IsDeferred, PreservesTaken};
ghost use Rattle.txn_law.specs.LockAnswers.{IsBusy, IsHeld, IsOpen};
ghost use Rattle.txn_law.specs.Commit.{Planned, IsCommitted, committed, IsReadBy, IsWrittenBy};
ghost use Rattle.objects.specs.declared.present.Present.{Present};
ghost use Rattle.txn_law.specs.Window.{Footprint, with_objects, after_commits};
ghost use Rattle.txn_law.specs.Window.{IsWindowOver, IsAsRead, IsCurrent, ArePinned, now_of, object_at};
ghost use Rattle.txn_law.specs.Window.{opening};
ghost use Rattle.txn_law.specs.Steps.{IsBrought, IsMade, with_commit, IsWholeIn};

pub use hold::Hold;
pub use reads::{
    a_read_brings_what_is_current, a_read_brings_what_is_home, steps_keep_what_may_be_read,
    the_installer_preserves_what_may_be_read, the_logger_preserves_what_may_be_read,
};
pub use window::{
    a_window_has_each_commit_that_is_not_installed, a_window_preserves_what_was_read,
    a_window_reads_one_content,
};

/// A log without changes has the window of no commits.
pub fn an_empty_log_has_a_window()
    ensures { (base : Image) (log : Log) (held : List (ℕ × Content)) → log.changes ≡ []
        → All (IsCurrent base) held
        → IsWindowOver base log [] held }
{}

/// A commit keeps the window, over the same blocks at home.
pub fn a_commit_preserves_the_window()
    ensures { (base : Image) (old new : Log) (commits : List Footprint) (held kept : List (ℕ × Content))
        (commit : Footprint) (group : List (BlockNo × Content))
        → IsLawful old → GrowsBy old group new → commit.place ≡ new.places
        → IsBrought (now_of base old commits) commit group
        → All (IsCurrent (with_objects (now_of base old commits) commit.written)) kept
        → All (ArePinned kept) (with_commit new commit commits)
        → IsWindowOver base old commits held → IsWindowOver base new (with_commit new commit commits) kept }
{}

/// The log that an opening found has the window of no commits, over what is at home with that log laid over
/// it.
pub fn an_opening_has_a_window()
    ensures { (base : Image) (blocks start : ℕ) (found : List (BlockNo × Content)) (held : List (ℕ × Content))
        → All (IsCurrent (with_changes base (opened blocks start found).changes)) held
        → IsWindowOver base (opened blocks start found) [] held }
{}

/// What isn't read by a commit that is kept may leave memory, and what is current may come.
pub fn memory_may_change()
    ensures { (base : Image) (log : Log) (commits : List Footprint) (held kept : List (ℕ × Content))
        → All (IsCurrent (now_of base log commits)) kept → All (ArePinned kept) commits
        → IsWindowOver base log commits held → IsWindowOver base log commits kept }
{}

/// The logger's calls keep the window: only the ends of groups move.
pub fn the_logger_preserves_the_window()
    ensures goes_out { (base : Image) (log : Log) (commits : List Footprint) (held : List (ℕ × Content))
        → IsLawful log
        → IsWindowOver base log commits held → IsWindowOver base (with_log_out log) commits held }
    ensures comes_back { (base : Image) (log : Log) (commits : List Footprint) (held : List (ℕ × Content))
        (ok : Bool) → IsLawful log
        → IsWindowOver base log commits held → IsWindowOver base (with_log_back log ok) commits held }
{}

/// The installer's calls keep the window: after the last one without the commits that it has brought home,
/// over what is at home then.
pub fn the_installer_preserves_the_window()
    ensures goes_out { (base : Image) (log : Log) (commits : List Footprint) (held : List (ℕ × Content))
        → IsLawful log
        → IsWindowOver base log commits held → IsWindowOver base (with_inst_out log) commits held }
    ensures comes_back { (base : Image) (log : Log) (commits : List Footprint) (held : List (ℕ × Content))
        (ok : Bool) → IsLawful log
        → IsWindowOver base log commits held
        → IsWindowOver (home_after base log ok) (with_inst_back log ok)
        (past (installed_place (with_inst_back log ok)) commits) held }
{}

/// A block that the log doesn't have is current as it is at home.
pub fn what_is_home_is_current()
    ensures { (base : Image) (log : Log) (commits : List Footprint) (held : List (ℕ × Content)) (block : ℕ)
        → newest log block ≡ None
        → IsWindowOver base log commits held → base block ≡ now_of base log commits block }
{}

/// A crash leaves the blocks after the settled commits, and perhaps more of them.
pub fn a_crash_leaves_a_prefix()
    ensures { (base : Image) (log : Log) (commits : List Footprint) (held : List (ℕ × Content))
        (image : Image) → IsLawful log
        → IsWindowOver base log commits held → IsBoundary base log image
        → (k : ℕ) × (settled_place log - installed_place log ≤ k) × (k ≤ length commits)
        × ((block : ℕ) → IsOutside log.blocks block
        → over image block ≡ after_commits (opening base log) (take k commits) block) }
{}

/// The group that the core makes of a commit lays what it wrote over what is current.
pub fn a_group_is_overlaid_on_what_is_current()
    ensures { (present : List Present) (log : Log) (now : Image) (commit : Footprint)
        (group : List (BlockNo × Content)) → IsMade present log now commit group
        → IsBrought now commit group }
{}

/// What the core lets go of memory was read by no commit that it keeps, whichever other blocks it spares.
pub fn a_sweep_preserves_the_window()
    ensures { (spare : Present → Bool) (base : Image) (log : Log) (commits : List Footprint) (holds : List Hold)
        (present : List Present) → IsWindowOver base log commits (held_of present)
        → IsWindowOver base log commits (held_of (swept spare holds commits present)) }
{}

/// A call of the installer that is given back keeps the window of the core.
pub fn an_installation_preserves_the_window_of_the_core()
    ensures { (spare : Present → Bool) (base : Image) (core : CoreState) (ok : Bool) → IsLawful core.log
        → IsCoreWindow base core
        → IsCoreWindow (home_after base core.log ok) (installed spare core (with_inst_back core.log ok)) }
{}

/// A commit keeps the window of the core.
pub fn a_commit_preserves_the_window_of_the_core()
    ensures { (spare : Present → Bool) (base : Image) (old : CoreState) (tx : ℕ) (plan : Planned)
        (group : List (BlockNo × Content)) (log : Log) → IsLawful old.log
        → IsCommitted base old tx plan group log → IsCoreWindow base old
        → IsCoreWindow base (committed spare old tx plan log) }
{}

/// What a transaction writes in a block that isn't in memory is the whole block.
pub fn what_is_not_in_memory_is_written_whole()
    ensures { (core : CoreState) (tx : ℕ) (written : List ObjectBytes) (block : BlockNo) → IsWellFormed core
        → All (λ object. IsWrittenBy core tx object.addr) written
        → All (λ object. length object.bytes ≡ object.addr.len) written
        → content_in (present_of core.present block) ≡ None → All (IsWholeIn block) written }
{}

/// What a transaction takes, and its end, keep the window of the core.
pub fn a_transaction_preserves_the_window_of_the_core()
    ensures held { (base : Image) (old new : CoreState) (tx : ℕ) (addr : Addr) (mode : Mode)
        (bytes : List ℕ) → IsHeldExactly old tx addr mode bytes new → IsCoreWindow base old
        → IsCoreWindow base new }
    ensures fetch { (base : Image) (old new : CoreState) (tx : ℕ) (addr : Addr) (mode : Mode)
        (io : Fetch) → IsFetchedExactly old tx addr mode io new → IsCoreWindow base old
        → IsCoreWindow base new }
    ensures claim { (base : Image) (old : CoreState) (tx : ℕ) (addr : Addr) → IsCoreWindow base old
        → IsCoreWindow base (claimed old tx addr) }
    ensures end { (spare : Present → Bool) (base : Image) (old : CoreState) (tx : ℕ) → IsCoreWindow base old
        → IsCoreWindow base (ended spare old tx) }
{}

/// A fetch that is given back keeps the window of the core, where the log still doesn't have the block; and
/// what is at home of such a block stays.
pub fn a_fetch_preserves_the_window_of_the_core()
    ensures done { (spare : Present → Bool) (base : Image) (core : CoreState) (block : BlockNo) (content : Content)
        → newest core.log block.0 ≡ None → content ≡ base block.0
        → IsCoreWindow base core → IsCoreWindow base (fetched spare core block content) }
    ensures failed { (base : Image) (core : CoreState) (block : BlockNo) → IsCoreWindow base core
        → IsCoreWindow base (fetch_failed core block) }
    ensures stays { (base : Image) (log : Log) (ok : Bool) (block : ℕ) → newest log block ≡ None
        → home_after base log ok block ≡ base block }
{}

/// A transaction that has taken an address may ask for it again, once no fetch of its block is pending, in
/// a mode that adds nothing to the one that it has: the request is told neither Outside nor Busy nor Loading.
/// So one that was told Fetch is met after its fetch was given back, as the block is in memory then, or
/// finds no memory.
pub fn what_is_taken_may_be_requested_again()
    ensures { (core : CoreState) (tx : ℕ) (addr : Addr) (hold : Hold) (mode : Mode) → IsWellFormed core
        → taken_by core tx addr ≡ Some hold → upgraded hold.mode mode ≡ hold.mode
        → is_fetching core addr.block ≡ false → IsOpen core tx addr mode }
{}

/// What a transaction is told of an object is what the commits have left there, and so is what it holds for
/// reading, whatever may be at home.
pub fn what_is_held_is_current()
    ensures held_current { (base : Image) (old new : CoreState) (tx : ℕ) (addr : Addr) (mode : Mode) (bytes : List ℕ)
        → IsHomeOf base old → IsHeld old tx addr mode bytes new
        → bytes ≡ object_at (now_of base old.log old.records) addr }
    ensures held { (base : Image) (core : CoreState) (tx : ℕ) (object : ObjectBytes) → IsHomeOf base core
        → IsReadBy core tx object → IsAsRead (now_of base core.log core.records) object }
{}

/// A lock request that is told Busy is kept off by another transaction that is out, where it shares no byte with what
/// its own transaction has taken by another address. A step that leaves what a transaction has taken and what
/// was in memory keeps what the transaction has.
pub fn transactions_are_compatible()
    ensures busy { (core : CoreState) (tx : ℕ) (addr : Addr) (mode : Mode) → IsWellFormed core
        → IsApartFrom core tx addr → IsBusy core tx addr mode → IsDeferred core tx addr mode }
    ensures preserves { (old new : CoreState) (tx : ℕ) (taken : ℕ → Addr → Option Hold)
        (fetching : BlockNo → Bool) (there : BlockNo → Option Content) → Leaves new taken fetching there
        → ((addr : Addr) → taken tx addr ≡ taken_by old tx addr)
        → ((block : BlockNo) (content : Content) → in_memory old block ≡ Some content
        → (now : Content) × (there block ≡ Some now))
        → (IsOut old tx → IsOut new tx) → PreservesReads old new tx → PreservesTaken old new tx }
{}
