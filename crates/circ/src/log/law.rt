//! The law of the log, over definitions alone: while the contents that a disk may have agree with a log, a
//! crash leaves the blocks after a whole group, and each step of the log and each of its calls keeps the
//! agreement, in any order.
ghost use Rattle.std.specs.Prelude.{◌≡◌, ◌≤◌, ◌⊎◌, ℕ, Bool, List, None, Result, Ok, Vec};
ghost use Rattle.std.specs.declared.alloc.Global.{Global};
ghost use Rattle.base.specs.declared.TheConstants.{FIRST_HOME_BLOCK};
ghost use Rattle.disk.specs.declared.block.BlockNo.{BlockNo};
ghost use Rattle.disk.specs.declared.block.Side.TheVariants.{Home};
ghost use Rattle.disk.specs.declared.device.Failed.{Failed};
ghost use Rattle.disk.specs.Device.{Content, Device, HasRead, HasWritten, HasSettled};
ghost use Rattle.disk.specs.Crash.{Image, IsCrashImage, IsAtRest};
ghost use Rattle.circ.specs.declared.log.recovery.LogFault.{LogFault};
ghost use Rattle.circ.specs.declared.log.recovery.Recovered.{Recovered};
ghost use Rattle.circ.specs.Log.Io.{Io, HasMade};
ghost use Rattle.circ.specs.Log.Log.{Log, IsLawful, newest, opened};
ghost use Rattle.circ.specs.Log.Room.{with_group};
ghost use Rattle.circ.specs.Log.Grows.{GrowsBy, StandsStill};
ghost use Rattle.circ.specs.Log.Logger.{IsNextLogCall, with_log_out, with_log_back};
ghost use Rattle.circ.specs.Log.Installer.{IsNextInstCall, with_inst_out, with_inst_back};
ghost use Rattle.circ.specs.Log.Overlay.{start_in, end_in, logged_in, IsInRange, over};
ghost use Rattle.circ.specs.Log.Recovery.{image_of, IsRecovered, IsLog};
ghost use Rattle.circ.specs.Log.Law.{Agrees, IsOutside, IsBoundary, with_changes, with_home};
ghost use Rattle.circ.specs.Log.Calls.{Pending, idle, AgreesWithPending, PreservesAgreement, LogCallGoesOut};
ghost use Rattle.circ.specs.Log.Calls.{LogCallIsMade, LogCallComesBack, InstCallGoesOut, InstCallIsMade};
ghost use Rattle.circ.specs.Log.Calls.{InstCallComesBack};
ghost use Rattle.circ.specs.Log.ReadBack.{IsReadBack, IsLogReadBack};

/// An image whose log is empty stands for its own blocks.
pub fn an_empty_log_hides_nothing()
    ensures { (image : Image) (block : ℕ) → start_in image ≡ end_in image → over image block ≡ image block }
{}

/// While a disk agrees with a log, a crash leaves the blocks after its settled groups, or after one group
/// more.
pub fn a_crash_leaves_whole_groups()
    ensures { (d : Device) (base : Image) (log : Log) (image : Image) → IsLawful log → Agrees d base log
        → IsCrashImage d d.clock image → IsBoundary base log image }
{}

/// An opening of what such a crash left refuses nothing that stands there, and answers those changes in
/// order.
pub fn an_opening_reads_whole_groups()
    ensures found { (d : Device) (base : Image) (log : Log) (image : Image) (result : Result Recovered LogFault)
        → IsLawful log → Agrees d base log → IsCrashImage d d.clock image
        → IsRecovered log.blocks image result → IsReadBack log result }
    ensures log { (d : Device) (base : Image) (log : Log) (image : Image)
        (result : Result (Vec (BlockNo × Content) Global) LogFault)
        → IsLawful log → Agrees d base log → IsCrashImage d d.clock image → IsLog log.blocks image result
        → IsLogReadBack log result }
{}

/// A disk at rest agrees with the log that an opening finds on it, which lies over the homes as the overlay
/// does.
pub fn an_opening_begins_in_agreement()
    ensures stands { (d : Device) → FIRST_HOME_BLOCK ≤ d.size → IsAtRest d → IsInRange (image_of d)
        → AgreesWithPending d (image_of d) (opened d.size (start_in (image_of d)) (logged_in (image_of d))) idle
        idle }
    ensures overlay { (d : Device) (block : ℕ)
        → with_changes (image_of d) (opened d.size (start_in (image_of d)) (logged_in (image_of d))).changes
        block ≡ over (image_of d) block }
{}

/// A commit that is appended keeps the agreement, however the tail has its group.
pub fn an_append_preserves_agreement()
    ensures { (old new : Log) (group : List (BlockNo × Content)) → IsLawful old → GrowsBy old group new
        → StandsStill old new → PreservesAgreement old new }
{}

/// A group that is appended stands behind the end of each group before it.
pub fn an_append_grows_the_log()
    ensures { (log : Log) (group : List (BlockNo × Content)) → IsLawful log
        → GrowsBy log group (with_group log group) }
{}

/// A read keeps the agreement, whatever is out.
pub fn a_read_preserves_agreement()
    ensures { (old new : Device) (base : Image) (log : Log) (logging installing : Pending)
        → IsLawful log → HasRead old new
        → AgreesWithPending old base log logging installing → AgreesWithPending new base log logging installing }
{}

/// The logger's next call is handed out, made on the disk with any answer, and given back with that answer,
/// each of it whatever the installer has out: each keeps the agreement.
pub fn a_call_of_the_logger_preserves_agreement()
    ensures goes_out { (log : Log) (io : Io) → IsLawful log → IsNextLogCall (with_log_out log) io
        → LogCallGoesOut log io (with_log_out log) }
    ensures is_made { (old new : Device) (io : Io) (answer : Result Unit Failed) → HasMade old io answer new
        → LogCallIsMade old io answer new }
    ensures comes_back { (log : Log) (io : Io) (ok : Bool) → IsLawful log
        → LogCallComesBack log io ok (with_log_back log ok) }
{}

/// The same of the installer's calls. After its last, what it has brought home is what is at home.
pub fn a_call_of_the_installer_preserves_agreement()
    ensures goes_out { (log : Log) (io : Io) → IsLawful log → IsNextInstCall (with_inst_out log) io
        → InstCallGoesOut log io (with_inst_out log) }
    ensures is_made { (old new : Device) (io : Io) (answer : Result Unit Failed) → HasMade old io answer new
        → InstCallIsMade old io answer new }
    ensures comes_back { (log : Log) (io : Io) (ok : Bool) → IsLawful log
        → InstCallComesBack log io ok (with_inst_back log ok) }
{}

/// A block of which the log has no change may be written beside it: a crash in the middle leaves a whole
/// group over what was at home or over what is written there, and once the write is settled it is at home.
pub fn a_write_outside_the_log_preserves_agreement()
    ensures crash { (old new : Device) (base : Image) (log : Log) (block : ℕ) (content : Content)
        (answer : Result Unit Failed) (image : Image) → IsLawful log → IsOutside log.blocks block
        → newest log block ≡ None
        → HasWritten old block content answer new → Agrees old base log → IsCrashImage new new.clock image
        → IsBoundary base log image ⊎ IsBoundary (with_home base block content) log image }
    ensures settled { (old middle new : Device) (base : Image) (log : Log) (block : ℕ) (content : Content)
        (logging installing : Pending) → IsLawful log → IsOutside log.blocks block → newest log block ≡ None
        → HasWritten old block content (Ok tt) middle → HasSettled middle Home (Ok tt) new
        → AgreesWithPending old base log logging installing
        → AgreesWithPending new (with_home base block content) log logging installing }
{}
