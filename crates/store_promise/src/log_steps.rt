//! Laws on what is told of a log: each step of the memory log leads from what is told of it to what is told
//! next.
ghost use Rattle.std.specs.Prelude.{◌≡◌, ℕ, ◌+◌, ◌++◌, ◌≤◌, Bool, List, Result, is_ok, length, true};
ghost use Rattle.disk.specs.Device.{Content};
ghost use Rattle.disk.specs.declared.block.BlockNo.{BlockNo};
ghost use Rattle.disk.specs.declared.device.Failed.{Failed};
ghost use Rattle.circ.specs.Log.Calls.{Pending, idle, out, was_made};
ghost use Rattle.circ.specs.Log.Installer.{IsNextInstCall, with_inst_back, with_inst_out};
ghost use Rattle.circ.specs.Log.Io.{Io};
ghost use Rattle.circ.specs.Log.Grows.{GrowsBy};
ghost use Rattle.circ.specs.Log.Log.{IsLawful, Log, blocks_of, new_blocks, tail_blocks};
ghost use Rattle.circ.specs.Log.Logger.{with_log_back, with_log_out};
ghost use Rattle.txn_law.specs.Steps.{StandsStill};
ghost use Rattle.store_promise.specs.LogState.{call_made, with_commit, with_inst_given, with_inst_taken};
ghost use Rattle.store_promise.specs.LogState.{with_log_given, with_log_taken};
ghost use Rattle.store_promise.specs.LogStateOf.{StandsAtHome, log_state_of};

/// A commit adds to what is told the blocks that the tail lacked. How the tail has its contents isn't asked.
pub fn a_commit_moves_the_log_state()
    ensures { (position : ℕ) (old new : Log) (group : List (BlockNo × Content))
        (logging installing : Pending) → IsLawful old → IsLawful new
        → GrowsBy old group new → StandsStill old new
        → tail_blocks new ≡ tail_blocks old ++ new_blocks (tail_blocks old) (blocks_of group)
        → position ≤ old.start + length old.changes
        → log_state_of position new logging installing
        ≡ with_commit (log_state_of position old logging installing) (blocks_of group) }
{}

/// So do the calls of the logger: taken, made and given back.
pub fn the_logger_moves_the_log_state()
    ensures taken { (position : ℕ) (log : Log) (io : Io) (installing : Pending) → IsLawful log
        → log_state_of position (with_log_out log) (out io) installing
        ≡ with_log_taken (log_state_of position log idle installing) io.call }
    ensures made { (position : ℕ) (log : Log) (io : Io) (answer : Result Unit Failed) (installing : Pending)
        → log_state_of position log (was_made io answer) installing
        ≡ record (log_state_of position log (out io) installing) {
          log_call = call_made (log_state_of position log (out io) installing).log_call (is_ok answer);
        } }
    ensures given_back { (position : ℕ) (log : Log) (io : Io) (answer : Result Unit Failed)
        (installing : Pending) (ok : Bool)
        → log_state_of position (with_log_back log ok) idle installing
        ≡ with_log_given (log_state_of position log (was_made io answer) installing) ok }
{}

/// And those of the installer.
pub fn the_installer_moves_the_log_state()
    ensures taken { (position : ℕ) (log : Log) (io : Io) (logging : Pending) → IsLawful log
        → log_state_of position (with_inst_out log) logging (out io)
        ≡ with_inst_taken (log_state_of position log logging idle) io.call }
    ensures made { (position : ℕ) (log : Log) (io : Io) (answer : Result Unit Failed) (logging : Pending)
        → log_state_of position log logging (was_made io answer)
        ≡ record (log_state_of position log logging (out io)) {
          inst_call = call_made (log_state_of position log logging (out io)).inst_call (is_ok answer);
        } }
    ensures given_back { (position : ℕ) (log : Log) (io : Io) (answer : Result Unit Failed)
        (logging : Pending) (ok : Bool) → IsLawful log → StandsAtHome log → log.inst_out ≡ true
        → IsNextInstCall log io
        → log_state_of position (with_inst_back log ok) logging idle
        ≡ with_inst_given (log_state_of position log logging (was_made io answer)) ok }
{}
