//! Laws on what is told of a log: it is what the memory log has.
ghost use Rattle.std.specs.Prelude.{◌≡◌, ◌↔◌, ℕ, ◌+◌, ◌≤◌, List, Bool, false, length, true};
ghost use Rattle.disk.specs.Device.{Content};
ghost use Rattle.disk.specs.declared.block.BlockNo.{BlockNo};
ghost use Rattle.circ.specs.Log.Calls.{Pending, idle};
ghost use Rattle.circ.specs.Log.Installer.{IsNextInstCall, may_install, with_inst_back, with_inst_out};
ghost use Rattle.circ.specs.Log.Io.{Io};
ghost use Rattle.circ.specs.Log.Log.{IsLawful, Log, opened, settled_place, tail_after};
ghost use Rattle.circ.specs.Log.Logger.{IsNextLogCall, has_group, may_log, with_log_back, with_log_out};
ghost use Rattle.circ.specs.Log.Room.{HasPlaces};
ghost use Rattle.circ.specs.Log.Grows.{GrowsBy};
ghost use Rattle.txn_law.specs.Steps.{StandsStill};
ghost use Rattle.store_promise.specs.LogState.{state_may_install, state_may_log, state_settled, state_tail_after};
ghost use Rattle.store_promise.specs.NextCall.{IsNextOfInstalling, next_log_call};
ghost use Rattle.store_promise.specs.Schedule.{HasNumbers, Setting};
ghost use Rattle.store_promise.specs.LogStateOf.{StandsAtHome, log_state_of};

/// What is told as settled is settled.
pub fn log_state_has_what_is_settled()
    ensures { (position : ℕ) (log : Log) (logging installing : Pending) → IsLawful log
        → state_settled (log_state_of position log logging installing) ≡ settled_place log }
{}

/// Whether the logger has a call, and which.
pub fn log_state_has_the_loggers_next_call()
    ensures may { (position : ℕ) (log : Log) (installing : Pending) → IsLawful log → log.log_out ≡ false
        → state_may_log (log_state_of position log idle installing) ≡ may_log log }
    ensures call { (position : ℕ) (log : Log) (io : Io) (installing : Pending) → IsLawful log
        → position ≤ log.start + length log.changes → has_group log ≡ true
        → IsNextLogCall (with_log_out log) io
        → io.call ≡ next_log_call position (log_state_of position log idle installing) }
{}

/// The same of the installer.
pub fn log_state_has_the_installers_next_call()
    ensures may { (position : ℕ) (log : Log) (logging : Pending) → log.inst_out ≡ false
        → state_may_install (log_state_of position log logging idle) ≡ may_install log }
    ensures call { (position : ℕ) (log : Log) (io : Io) (logging : Pending) → IsLawful log
        → may_install log ≡ true → IsNextInstCall (with_inst_out log) io
        → IsNextOfInstalling log.blocks (log_state_of position log logging idle) io.call }
{}

/// The installer stands at the newest change of a block, or past the last, from an opening on.
pub fn the_installer_stands_at_a_home()
    ensures first { (blocks start : ℕ) (logged : List (BlockNo × Content))
        → StandsAtHome (opened blocks start logged) }
    ensures commit { (old new : Log) (group : List (BlockNo × Content)) → IsLawful old
        → GrowsBy old group new → StandsStill old new → StandsAtHome old → StandsAtHome new }
    ensures logging { (log : Log) (ok : Bool) → StandsAtHome log
        → StandsAtHome (with_log_out log) × StandsAtHome (with_log_back log ok) }
    ensures taken { (log : Log) → StandsAtHome log → StandsAtHome (with_inst_out log) }
    ensures given_back { (log : Log) (ok : Bool) → IsLawful log → StandsAtHome log
        → StandsAtHome (with_inst_back log ok) }
{}

/// Whether a place and log positions are left for a group, and how many blocks the tail then holds.
pub fn log_state_has_what_is_free()
    ensures numbers { (o : Setting) (log : Log) (logging installing : Pending) (blocks : List BlockNo)
        → IsLawful log → o.position ≤ log.start + length log.changes
        → HasNumbers o (log_state_of o.position log logging installing) blocks ↔ HasPlaces log blocks }
    ensures tail { (position : ℕ) (log : Log) (logging installing : Pending) (blocks : List BlockNo)
        → state_tail_after (log_state_of position log logging installing) blocks ≡ tail_after log blocks }
{}
