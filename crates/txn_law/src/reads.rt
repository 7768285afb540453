//! The law of reads: what a block at home has that the log doesn't have.
ghost use Rattle.std.specs.Prelude.{◌≡◌, ℕ, List, None, Result, Ok, is_ok, false, Bool};
ghost use Rattle.disk.specs.declared.block.BlockNo.{BlockNo};
ghost use Rattle.disk.specs.declared.device.Failed.{Failed};
ghost use Rattle.disk.specs.Device.{Content, Device, HasRead, HasWritten, current, newest as newest_content};
ghost use Rattle.disk.specs.Crash.{Image};
ghost use Rattle.circ.specs.Log.Io.{Io, HasMade};
ghost use Rattle.circ.specs.Log.Log.{Log, IsLawful, newest};
ghost use Rattle.circ.specs.Log.Effects.{HasAppended};
ghost use Rattle.circ.specs.Log.Logger.{with_log_out, with_log_back};
ghost use Rattle.circ.specs.Log.Installer.{with_inst_out, with_inst_back};
ghost use Rattle.circ.specs.Log.Law.{IsOutside};
ghost use Rattle.circ.specs.Log.Calls.{Pending, idle, out, was_made, AgreesWithPending};
ghost use Rattle.txn_law.specs.Window.{Footprint};
ghost use Rattle.txn_law.specs.HomeRead.{IsReadable, HasContents};
ghost use Rattle.txn_law.specs.Window.{IsWindowOver, now_of};

/// A read of a block that the log doesn't have brings what is at home, whatever has failed.
pub fn a_read_brings_what_is_home()
    ensures { (d : Device) (base : Image) (log : Log) (logging installing : Pending) (block : ℕ)
        → AgreesWithPending d base log logging installing
        → IsReadable d log installing → HasContents d → IsOutside log.blocks block → newest log block ≡ None
        → (d.uncertain block ≡ false) × (newest_content (current d block) ≡ base block) }
{}

/// And so what is current, where there is a window over what is at home.
pub fn a_read_brings_what_is_current()
    ensures { (d : Device) (base : Image) (log : Log) (logging installing : Pending)
        (commits : List Footprint) (held : List (ℕ × Content)) (block : ℕ)
        → AgreesWithPending d base log logging installing
        → IsReadable d log installing → HasContents d → IsWindowOver base log commits held
        → IsOutside log.blocks block → newest log block ≡ None
        → newest_content (current d block) ≡ now_of base log commits block }
{}

/// A commit, a read and a write beside the log that was made keep what may be read; a device call keeps that
/// each block has a content.
pub fn steps_keep_what_may_be_read()
    ensures append { (d : Device) (old new : Log) (group : List (BlockNo × Content)) (installing : Pending)
        → HasAppended old group new → IsReadable d old installing → IsReadable d new installing }
    ensures read { (old new : Device) (log : Log) (installing : Pending) → HasRead old new
        → IsReadable old log installing → IsReadable new log installing }
    ensures unaffected_by_write { (old new : Device) (log : Log) (block : ℕ) (content : Content) (installing : Pending)
        → HasWritten old block content (Ok tt) new
        → IsReadable old log installing → IsReadable new log installing }
    ensures contents { (old new : Device) (io : Io) (answer : Result Unit Failed) → HasMade old io answer new
        → HasContents old → HasContents new }
{}

/// So do the logger's calls.
pub fn the_logger_preserves_what_may_be_read()
    ensures goes_out { (d : Device) (log : Log) (installing : Pending) → IsReadable d log installing
        → IsReadable d (with_log_out log) installing }
    ensures is_made { (old new : Device) (base : Image) (log : Log) (io : Io) (answer : Result Unit Failed)
        (installing : Pending) → IsLawful log → HasMade old io answer new
        → AgreesWithPending old base log (out io) installing → IsReadable old log installing
        → IsReadable new log installing }
    ensures comes_back { (d : Device) (log : Log) (ok : Bool) (installing : Pending)
        → IsReadable d log installing → IsReadable d (with_log_back log ok) installing }
{}

/// And the installer's: it hands out a call only while the log isn't broken.
pub fn the_installer_preserves_what_may_be_read()
    ensures goes_out { (d : Device) (log : Log) (io : Io) → log.broken ≡ false → IsReadable d log idle
        → IsReadable d (with_inst_out log) (out io) }
    ensures is_made { (old new : Device) (base : Image) (log : Log) (io : Io) (answer : Result Unit Failed)
        (logging : Pending) → IsLawful log → HasMade old io answer new
        → AgreesWithPending old base log logging (out io) → IsReadable old log (out io)
        → IsReadable new log (was_made io answer) }
    ensures comes_back { (d : Device) (log : Log) (io : Io) (answer : Result Unit Failed)
        → IsReadable d log (was_made io answer)
        → IsReadable d (with_inst_back log (is_ok answer)) idle }
{}
