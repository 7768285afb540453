//! The device calls of the log and of the installer, as they go out and come back.
ghost use Rattle.std.specs.Prelude.{◌≡◌, ◌≤◌, ◌+◌, ◌↔◌, if◌then◌else◌, IsTrue, IsSome, IsNone, IfSome, is_some};
ghost use Rattle.std.specs.Prelude.{ℕ, length};
ghost use Rattle.circ.specs.Log.Log.{installed_place};
ghost use Rattle.circ.specs.Log.Calls.{LogCallGoesOut, LogCallComesBack, InstCallGoesOut, InstCallComesBack};
ghost use Rattle.circ.specs.Log.Calls.{home_after};
ghost use Rattle.circ.specs.Log.Io.{IsCallWithin};
ghost use Rattle.circ.specs.Log.Logger.{IsNextLogCall, may_log, is_log_out, with_log_back};
ghost use Rattle.circ.specs.Log.Installer.{IsNextInstCall, may_install, is_inst_out, with_inst_back};
ghost use Rattle.disk.specs.Crash.{Image};
ghost use Rattle.txn_law.specs.Core.{CoreState, with_log_call, with_inst_call, past};
ghost use Rattle.txn_law.specs.CoreWindow.{IsHomeOf, PreservesHome, PreservesReads};
ghost use Rattle.txn_law.specs.Leaves.{Leaves, taken_by, is_fetching, in_memory};
ghost use Rattle.txn.specs.Sides.{CoreBack, LeavesBack, LetsGo, base_back, counted, with_call};
ghost use Rattle.wal.specs.Sides.{IsNextCall, call_comes_back, call_goes_out, is_out, may_call, with_back};

use crate::records::forget;
use crate::{Change, Core};
use disk::Side;
use http_server::Log;
use wal::{InstIo, LogIo, RoleIo, Seq};

impl<C: Change> Core<C> {
    /// The next device call of a side, if there is one and none is out.
    pub fn next(&mut self, role: Side) -> Option<RoleIo>
        ensures causes { is_some result ≡ may_call role self.old.log }
        ensures some { IsSome result → self.new ≡ with_call role self.old }
        ensures none { IsNone result → self.new ≡ self.old }
        ensures within { IfSome result (λ io. IsCallWithin self.new.log.blocks io.call) }
        ensures call { IfSome result (IsNextCall role self.new.log) }
        ensures law { IfSome result (λ io. call_goes_out role self.old.log io self.new.log) }
        ensures stays { (other : ℕ) → PreservesReads self.old self.new other }
        ensures preserves { PreservesHome self.old self.new }
    {
        let io = self.log.next(role)?;
        self.log.lawful();
        count(role, &mut self.log_calls, &mut self.inst_calls);
        Some(io)
    }

    /// Gives a device call of a side back, with whether it was answered Ok.
    pub fn done(&mut self, role: Side, io: RoleIo, ok: bool)
        ensures log { self.new.log ≡ (if is_out role self.old.log io then with_back role self.old.log ok
            else self.old.log) }
        ensures blocks { self.new.log.blocks ≡ self.old.log.blocks }
        ensures core { CoreBack role self.old self.new }
        ensures leaves { LeavesBack role self.old self.new }
        ensures law { call_comes_back role self.old.log io ok self.new.log }
        ensures stays { (other : ℕ) → PreservesReads self.old self.new other }
        ensures preserves { (base : Image) → IsHomeOf base self.old
            → IsHomeOf (base_back role base self.old.log io ok) self.new }
    {
        self.lawful();
        self.take_back(role, io, ok);
    }

    // Takes a device call of a side back, and lets go of what is installed by it.
    fn take_back(&mut self, role: Side, io: RoleIo, ok: bool)
        ensures log { self.new.log ≡ (if is_out role self.old.log io then with_back role self.old.log ok
            else self.old.log) }
        ensures blocks { self.new.log.blocks ≡ self.old.log.blocks }
        ensures others { LetsGo role self.old self.new }
        ensures law { call_comes_back role self.old.log io ok self.new.log }
    {
        let before = self.log.installed();
        self.log.done(role, io, ok);
        self.log.lawful();
        let installed = self.log.installed();
        if is_at_most(installed, before) {
            return;
        }
        forget(&mut self.records, &mut self.present, installed);
    }

    /// The log's next device call, if there is one and none is out.
    pub fn log_next(&mut self) -> Option<LogIo>
        ensures causes { is_some result ≡ may_log self.old.log }
        ensures some { IsSome result → self.new ≡ with_log_call self.old }
        ensures none { IsNone result → self.new ≡ self.old }
        ensures within { IfSome result (λ io. IsCallWithin self.new.log.blocks io.call) }
        ensures call { IfSome result (IsNextLogCall self.new.log) }
        ensures law { IfSome result (λ io. LogCallGoesOut self.old.log io self.new.log) }
        ensures stays { (other : ℕ) → PreservesReads self.old self.new other }
        ensures preserves { PreservesHome self.old self.new }
    {
        self.next(Side::Log)
    }

    /// Gives the log's device call back, with whether it was answered Ok.
    pub fn log_done(&mut self, io: LogIo, ok: bool)
        ensures log { self.new.log ≡ (if is_log_out self.old.log io then with_log_back self.old.log ok
            else self.old.log) }
        ensures blocks { self.new.log.blocks ≡ self.old.log.blocks }
        ensures others { self.new ≡ record self.old { log = self.new.log } }
        ensures law { LogCallComesBack self.old.log io ok self.new.log }
        ensures stays { (other : ℕ) → PreservesReads self.old self.new other }
        ensures preserves { PreservesHome self.old self.new }
    {
        self.done(Side::Log, io, ok);
    }

    /// The installer's next device call, if there is one and none is out.
    pub fn inst_next(&mut self) -> Option<InstIo>
        ensures causes { is_some result ≡ may_install self.old.log }
        ensures some { IsSome result → self.new ≡ with_inst_call self.old }
        ensures none { IsNone result → self.new ≡ self.old }
        ensures within { IfSome result (λ io. IsCallWithin self.new.log.blocks io.call) }
        ensures call { IfSome result (IsNextInstCall self.new.log) }
        ensures law { IfSome result (λ io. InstCallGoesOut self.old.log io self.new.log) }
        ensures stays { (other : ℕ) → PreservesReads self.old self.new other }
        ensures preserves { PreservesHome self.old self.new }
    {
        self.next(Side::Home)
    }

    /// Gives the installer's device call back, with whether it was answered Ok.
    pub fn inst_done(&mut self, io: InstIo, ok: bool)
        ensures log { self.new.log ≡ (if is_inst_out self.old.log io then with_inst_back self.old.log ok
            else self.old.log) }
        ensures blocks { self.new.log.blocks ≡ self.old.log.blocks }
        ensures only { self.new ≡ record self.old {
          log = self.new.log;
          records = past (installed_place self.new.log) self.old.records;
          present = self.new.present;
        } }
        ensures leaves { Leaves self.new (taken_by self.old) (is_fetching self.old) (in_memory self.old) }
        ensures law { InstCallComesBack self.old.log io ok self.new.log }
        ensures stays { (other : ℕ) → PreservesReads self.old self.new other }
        ensures preserves { (base : Image) → IsHomeOf base self.old
            → IsHomeOf (if is_inst_out self.old.log io then home_after base self.old.log ok
            else base) self.new }
    {
        self.done(Side::Home, io, ok);
    }
}

// Counts a call of a side that was handed out.
fn count(role: Side, log_calls: &mut Log<(), ()>, inst_calls: &mut Log<(), ()>)
    ensures { (core : CoreState) → record core {
      log_calls = length log_calls.new.items;
      inst_calls = length inst_calls.new.items;
    } ≡ counted role (record core {
      log_calls = length log_calls.old.items;
      inst_calls = length inst_calls.old.items;
    }) }
{
    match role {
        Side::Log => *log_calls = log_calls.and(&(), &()),
        Side::Home => *inst_calls = inst_calls.and(&(), &()),
    }
}

// Whether the place is no further than the other.
fn is_at_most(place: Seq, other: Seq) -> bool
    ensures { IsTrue result ↔ (place.0 ≤ other.0) }
{
    place <= other
}
