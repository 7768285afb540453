//! One device call of the log, for who has nothing else to do.
ghost use Rattle.std.specs.Prelude.{◌≡◌, IsFalse, IsTrue};
ghost use Rattle.wal_calls.specs.Callers.OneCall.{MakesOne};
ghost use Rattle.wal_calls.specs.Callers.Steps.{InstComesBack, InstGoesOut, LogComesBack, LogGoesOut, comes_back, goes_out};
ghost use Rattle.txn.specs.Answering.{OfSome};
ghost use Rattle.wal.specs.Sides.{call_is_made, may_call};
ghost use Rattle.circ.specs.Log.Calls.{InstCallIsMade, LogCallIsMade};
ghost use Rattle.circ.specs.Log.Installer.{may_install};
ghost use Rattle.circ.specs.Log.Logger.{may_log};

use crate::callers::Caller;
use disk::{CrashDisk, Side};
use txn::{Change, Core};

/// The next device call of a side is taken, made on a disk and given back, where there is one. It answers whether
/// there was. One that doesn't lie on the disk has failed.
pub fn make_one<C: Change, D: CrashDisk>(side: Side, core: &mut Core<C>, disk: &mut D) -> bool
    ensures may { result ≡ may_call side core.old.log }
    ensures one { IsTrue result → MakesOne (goes_out side) (call_is_made side) (comes_back side) (OfSome C.is_plan) core.old
        (D.device disk.old) core.new (D.device disk.new) }
    ensures none { IsFalse result → (core.new ≡ core.old) × (D.device disk.new ≡ D.device disk.old) }
    ensures blocks { core.new.log.blocks ≡ core.old.log.blocks }
    ensures inodes { core.new.inodes ≡ core.old.inodes }
    ensures size { (D.device disk.new).size ≡ (D.device disk.old).size }
    ensures model { D.keeps_model disk.new → D.keeps_model disk.old }
{
    let mut caller = Caller::new();
    if caller.step(side, core).is_none() {
        caller.end(side, core);
        return false;
    }
    core.lawful();
    caller.make(disk);
    caller.step(side, core);
    caller.end(side, core);
    true
}

/// The logger's next, where there is one.
pub fn log_one<C: Change, D: CrashDisk>(core: &mut Core<C>, disk: &mut D) -> bool
    ensures may { result ≡ may_log core.old.log }
    ensures one { IsTrue result → MakesOne LogGoesOut LogCallIsMade LogComesBack (OfSome C.is_plan) core.old
        (D.device disk.old) core.new (D.device disk.new) }
    ensures none { IsFalse result → (core.new ≡ core.old) × (D.device disk.new ≡ D.device disk.old) }
    ensures blocks { core.new.log.blocks ≡ core.old.log.blocks }
    ensures inodes { core.new.inodes ≡ core.old.inodes }
    ensures size { (D.device disk.new).size ≡ (D.device disk.old).size }
    ensures model { D.keeps_model disk.new → D.keeps_model disk.old }
{
    make_one(Side::Log, core, disk)
}

/// The installer's next, where there is one.
pub fn install_one<C: Change, D: CrashDisk>(core: &mut Core<C>, disk: &mut D) -> bool
    ensures may { result ≡ may_install core.old.log }
    ensures one { IsTrue result → MakesOne InstGoesOut InstCallIsMade InstComesBack (OfSome C.is_plan) core.old
        (D.device disk.old) core.new (D.device disk.new) }
    ensures none { IsFalse result → (core.new ≡ core.old) × (D.device disk.new ≡ D.device disk.old) }
    ensures blocks { core.new.log.blocks ≡ core.old.log.blocks }
    ensures inodes { core.new.inodes ≡ core.old.inodes }
    ensures size { (D.device disk.new).size ≡ (D.device disk.old).size }
    ensures model { D.keeps_model disk.new → D.keeps_model disk.old }
{
    make_one(Side::Home, core, disk)
}
