//! An open store: a disk with the core over it.
ghost use Rattle.std.specs.Prelude.{◌≡◌, ◌+◌, ◌<◌, ◌≤◌, ◌↔◌, IsTrue, IsFalse, OnOk, OnErr, length};
ghost use Rattle.std.specs.Prelude.{true, false};
ghost use Rattle.base.specs.declared.TheConstants.{MOST_UNINSTALLED_COMMITS};
ghost use Rattle.layout.specs.Geometry.{IsLawful};
ghost use Rattle.store_images.specs.Counts.{SameFrame};
ghost use Rattle.store_images.specs.Fetches.{PreservesFetches};
ghost use Rattle.store_images.specs.Further.{LeavesOpen};
ghost use Rattle.store_images.specs.Opening.{IsSettled};
ghost use Rattle.store_images.specs.Settling.{HasBroken, HasCalled, IsQuiet, IsTurnOf, SameNumbers};
ghost use Rattle.store_images.specs.Settling.{SpendsCalls, SpendsSettling, most_calls};
ghost use Rattle.store_images.specs.Settling.{most_of_settling};
ghost use Rattle.store_images.specs.SettlingStops.{PreservesPrefixes, StayOpen};
ghost use Rattle.wal.specs.Sides.{may_call};

use crate::sides::{a_call_of_a_role_leaves_the_store_open, the_calls_of_a_role_are_steps};
use base::MOST_UNINSTALLED_COMMITS;
use disk::{CrashDisk, Failed, Side};
use procs::Done;
use store_promise::{a_stop_leaves_a_beginning, an_open_store_preserves_its_files};
use txn::Core;
use wal_calls::make_one;

/// A store that was opened.
pub struct Store<D: CrashDisk> {
    /// The disk.
    pub disk: D,
    /// The core over it.
    pub core: Core<Done>,
    /// The boot number.
    pub boot: u64,
    /// The piece of the bitmap from which the next call looks for free blocks. No clause speaks of it.
    pub alloc_cursor: u32,
    pub ghost size: { (D.device disk).size ≡ core.log.blocks },
    pub ghost lawful: { IsLawful core.log.blocks core.inodes },
}

impl<D: CrashDisk> Store<D> {
    /// The boot number.
    pub fn boot(&self) -> u64
        ensures { result ≡ self.now.boot }
    {
        self.boot
    }

    /// How many commits it keeps in memory: those that aren't home.
    pub fn kept(&self) -> usize
        ensures { result ≡ length self.now.core.records }
    {
        self.core.kept()
    }
}

/// Gives the disk back. It makes no device call: what isn't settled is lost, as in a crash.
pub fn close<D: CrashDisk>(store: Store<D>) -> D
    ensures { result ≡ store.disk }
{
    let Store {
        disk,
        core: _,
        boot: _,
        alloc_cursor: _,
    } = store;
    disk
}

/// Makes every change settled in the log. What is logged is brought home only where the log has no room
/// behind its settled start for the changes that wait, or where more than MOST_KEPT_COMMITS commits are kept;
/// what is left, the next opening brings home. It fails only where a write or a barrier fails in it, or
/// failed since the opening. It makes at most `most_calls` device calls, and at most two for each block in the
/// log and twelve besides. Whatever comes of it, a store that is open for some entries stays open for them, and
/// each stop leaves the files after a beginning of them, in which is what was settled before, and behind each
/// device call what is settled by then.
pub fn settle<D: CrashDisk>(store: &mut Store<D>) -> Result<(), Failed>
    requires { IsQuiet store.old.core.log }
    ensures out { store.new.core.out ≡ store.old.core.out }
    ensures boot { store.new.boot ≡ store.old.boot }
    ensures open { LeavesOpen (D.device store.old.disk) store.old.core (D.device store.new.disk)
        store.new.core }
    ensures counts { SameFrame store.old.core store.new.core }
    ensures numbers { SameNumbers store.old.core store.new.core }
    ensures fetches { PreservesFetches store.old.core store.new.core }
    ensures settled { OnOk result (IsSettled store.new.core) }
    ensures failed { OnErr result (HasBroken store.old.core.log (D.device store.old.disk)
        (D.device store.new.disk)) }
    ensures broken { OnErr result (store.new.core.log.broken ≡ true) }
    ensures few { (D.device store.new.disk).clock ≤ (D.device store.old.disk).clock + most_calls
        store.old.core.log }
    ensures bound { (D.device store.new.disk).clock ≤ (D.device store.old.disk).clock
        + most_of_settling store.old.core.log }
    ensures preserves { D.keeps_model store.new.disk → PreservesPrefixes (D.device store.old.disk) store.old.core
        (D.device store.new.disk) store.new.core }
    ensures model { D.keeps_model store.new.disk → D.keeps_model store.old.disk }
{
    a_stop_leaves_a_beginning();
    an_open_store_preserves_its_files();
    store.core.lawful();
    'calls: loop {
        if store.core.broken() {
            return Err(Failed);
        }
        if store.core.is_settled() && !has_too_many_uninstalled(store) {
            return Ok(());
        }
        store.core.lawful();
        if !call_one(Side::Log, store) && !call_one(Side::Home, store) {
            unreachable!();
        }
    }
}

/// Whether more commits are kept than a store keeps once it has settled.
pub fn has_too_many_uninstalled<D: CrashDisk>(store: &Store<D>) -> bool
    ensures { IsTrue result ↔ (MOST_UNINSTALLED_COMMITS < length store.now.core.records) }
{
    store.kept() > MOST_UNINSTALLED_COMMITS
}

// Makes the next device call of a side, if there is one.
fn call_one<D: CrashDisk>(side: Side, store: &mut Store<D>) -> bool
    requires { IsQuiet store.old.core.log }
    ensures out { store.new.core.out ≡ store.old.core.out }
    ensures boot { store.new.boot ≡ store.old.boot }
    ensures open { LeavesOpen (D.device store.old.disk) store.old.core (D.device store.new.disk)
        store.new.core }
    ensures counts { SameFrame store.old.core store.new.core }
    ensures numbers { SameNumbers store.old.core store.new.core }
    ensures fetches { PreservesFetches store.old.core store.new.core }
    ensures may { result ≡ may_call side store.old.core.log }
    ensures called { IsTrue result
        → HasCalled store.old.core.log (D.device store.old.disk) store.new.core.log (D.device store.new.disk) }
    ensures none { IsFalse result
        → (store.new.core ≡ store.old.core) × (D.device store.new.disk ≡ D.device store.old.disk) }
    ensures few { SpendsCalls (D.device store.old.disk) store.old.core.log (D.device store.new.disk)
        store.new.core.log }
    ensures stays { StayOpen (D.device store.old.disk) store.old.core (D.device store.new.disk) store.new.core }
    ensures model { D.keeps_model store.new.disk → D.keeps_model store.old.disk }
    ensures spends { IsTurnOf side store.old.core.log → SpendsSettling (D.device store.old.disk)
        store.old.core.log (D.device store.new.disk) store.new.core.log }
{
    a_stop_leaves_a_beginning();
    an_open_store_preserves_its_files();
    the_calls_of_a_role_are_steps();
    a_call_of_a_role_leaves_the_store_open();
    store.core.lawful();
    if !make_one(side, &mut store.core, &mut store.disk) {
        return false;
    }
    store.core.lawful();
    true
}
