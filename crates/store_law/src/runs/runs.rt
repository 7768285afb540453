//! Laws on a run: an opening begins it, each event leaves it going, and so it keeps its promise.
ghost use Rattle.std.specs.Prelude.{◌≡◌, ◌+◌, ◌<◌, ℕ, [], List, length};
ghost use Rattle.disk.specs.Crash.{Image};
ghost use Rattle.nfs_spec.specs.Model.Tree.{Tree};
ghost use Rattle.layout.specs.declared.geometry.Geometry.{Geometry};
ghost use Rattle.txn_law.specs.Core.{CoreState};
ghost use Rattle.txn_law.specs.Fetch.{Fetch};
ghost use Rattle.store_promise.specs.Headline.{PreservesPromise};
ghost use Rattle.store_promise.specs.OpenSince.{file_blocks};
ghost use Rattle.store_promise.specs.OpenStore.{IsNewOver};
ghost use Rattle.store_promise.specs.Openings.{IsOpened, LeavesImages};
ghost use Rattle.store_promise.specs.Running.{StoreState, at_rest};
ghost use Rattle.store_promise.specs.Schedule.{Setting};
ghost use Rattle.store_promise.specs.Transcript.{Transcript};
ghost use Rattle.store_law.specs.Runs.Tracing.{Traced, with_traced};
ghost use Rattle.store_law.specs.Runs.Run.{Beginning, GoesOn, IsRun};

/// An opening begins a run, of which nothing is told yet, over what is at home.
pub fn a_run_begins()
    ensures { (b : Beginning) (base : Image) (core : CoreState) (position : ℕ)
        → IsOpened b.before b.opened b.tree b.first position → IsNewOver base b.opened core
        → (g : Geometry) × IsRun b
        (record { geometry = g; position = position; blocks = λ place. file_blocks base core })
        (record { boot = b.first + 1; history = []; answers = []; steps = [] }) base (at_rest b.opened core) []
        b.tree }
{
    store_promise::an_opening_begins_a_run();
    store_promise::an_opening_leaves_an_open_store();
    store_promise::a_device_counts_the_calls_of_its_steps();
    store_promise::what_is_held_is_what_the_files_are();
}

/// Each event leaves it going.
pub fn a_run_goes_on()
    ensures { (b : Beginning) (o later : Setting) (t : Transcript) (base home : Image) (store_state new : StoreState)
        (fetches left : List Fetch) (last next : Tree) (traced : Traced)
        → IsRun b o t base store_state fetches last → GoesOn b o t store_state traced later home new left next
        → IsRun b later (with_traced t traced) home new left next }
{
    store_promise::a_stop_leaves_a_beginning();
    store_promise::log_state_has_what_is_settled();
    store_promise::a_device_counts_the_calls_of_its_steps();
    crate::runs::what_is_traced_grows();
}

/// So it keeps its promise, whenever no event comes any more: where each stop leaves some image, as on a
/// device that keeps its model.
pub fn a_run_preserves_its_promise()
    ensures { (b : Beginning) (o : Setting) (t : Transcript) (base : Image) (store_state : StoreState)
        (fetches : List Fetch) (last : Tree) → IsRun b o t base store_state fetches last
        → LeavesImages b.before store_state.device
        → PreservesPromise b.before store_state.device b.tree b.first b.workers b.events t }
{
    store_promise::a_stop_leaves_a_beginning();
    store_promise::log_state_has_what_is_settled();
    nfs_spec::no_stable_answer_tells_a_failure();
}
