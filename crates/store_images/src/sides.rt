//! Laws on the device calls of a side, the logger's or the installer's, on an open store.
ghost use Rattle.std.specs.Prelude.{◌≡◌, ℕ, Bool, List, Some};
ghost use Rattle.disk.specs.Crash.{Image};
ghost use Rattle.disk.specs.Device.{Device};
ghost use Rattle.disk.specs.declared.block.Side.{Side};
ghost use Rattle.wal_calls.specs.Callers.Making.{IsAnswered};
ghost use Rattle.wal_calls.specs.Callers.Steps.{comes_back, goes_out};
ghost use Rattle.nfs_spec.specs.Model.Entry.{Entry};
ghost use Rattle.nfs_spec.specs.Model.Tree.{Tree};
ghost use Rattle.store_images.specs.LogCallState.{MayMake, MayStep, gives_back, makes, pending_of, store_state_with, takes};
ghost use Rattle.store_promise.specs.OpenSince.{IsOpenSince};
ghost use Rattle.store_promise.specs.Running.{IsLogStep, home_next};
ghost use Rattle.txn_law.specs.Core.{CoreState};
ghost use Rattle.txn_law.specs.WellFormed.{IsWellFormed};
ghost use Rattle.wal.specs.Sides.{call_is_made};
ghost use Rattle.circ.specs.Log.Calls.{Pending, idle, out};
ghost use Rattle.circ.specs.Log.Io.{Io};
ghost use Rattle.circ.specs.Log.Log.{IsLawful};

/// A call of a side is taken, made and given back by three steps of a run, whatever the other side has out.
pub fn the_calls_of_a_role_are_steps()
    ensures taken { (of : Side) (d : Device) (old new : CoreState) (io : Io) (other : Pending)
        → IsLawful old.log → goes_out of old io new → IsLawful new.log → IsWellFormed new
        → IsLogStep (MayStep of) (store_state_with of d old idle other) (Some (takes of io.call))
        (store_state_with of d new (out io) other) }
    ensures made { (of : Side) (d later : Device) (core : CoreState) (io : Io) (ok : Bool) (other : Pending)
        → IsLawful core.log → IsAnswered (call_is_made of) d io ok later
        → IsLogStep (MayMake of) (store_state_with of d core (out io) other) (Some (makes of ok))
        (store_state_with of later core (pending_of (Some io) (Some ok)) other) }
    ensures given { (of : Side) (d : Device) (old new : CoreState) (io : Io) (ok : Bool) (other : Pending)
        → IsLawful old.log → comes_back of old io ok new → IsLawful new.log → IsWellFormed new
        → IsLogStep (MayStep of) (store_state_with of d old (pending_of (Some io) (Some ok)) other)
        (Some (gives_back of ok)) (store_state_with of d new idle other) }
{
    store_promise::the_logger_leaves_the_store_open();
    store_promise::the_installer_leaves_the_store_open();
    store_promise::a_device_counts_the_calls_of_its_steps();
    store_promise::what_was_read_is_at_home();
}

/// It leaves a store open for the entries that it was open for, over what is at home then.
pub fn a_call_of_a_role_leaves_the_store_open()
    ensures { (of : Side) (base : Image) (d later : Device) (old mid new : CoreState) (io : Io) (ok : Bool)
        (boot : ℕ) (first last : Tree) (entries : List Entry)
        → IsOpenSince base d old idle idle boot first entries last
        → goes_out of old io mid → IsLawful mid.log → IsWellFormed mid
        → IsAnswered (call_is_made of) d io ok later
        → comes_back of mid io ok new → IsLawful new.log → IsWellFormed new
        → IsOpenSince (home_next base mid.log (Some (gives_back of ok))) later new idle idle boot first entries last }
{
    store_promise::the_logger_leaves_the_store_open();
    store_promise::the_installer_leaves_the_store_open();
}
