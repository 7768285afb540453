//! The store as one: one call by one thread, and whole runs of many workers. It passes on the names of `store_images`
//! and `store_workers`; what a run tells and promises is `store_promise`'s.
#![tactic(auto)]

mod call_laws;
mod one_call;
mod runs;

pub use call_laws::{a_settled_store_stays_open, an_opened_store_is_open};
pub use image_check::{CheckFault, Counts, Progress, Unlinked, check, check_with_progress};
pub use image_contents::{Line, show};
pub use one_call::procedure;
pub use runs::{
    a_call_leaves_the_run_going, a_commit_moves_the_state_by_its_blocks, a_core_at_work_stays_so,
    a_read_leaves_the_run_going, a_worker_leaves_the_run_going, a_workers_step_may_be_made,
    a_workers_step_moves_the_state, can_be_spelled, format_and_run, run, what_was_fetched_stays,
};
pub use store_images::{FormatFault, Store, close, format, open, parts, replay, settle};
pub use store_promise::{
    Answer, CallAnswer, Committed, Committing, Ending, Entry, Event, LockAnswer, OpenFault, Run,
    Step, Verdict,
};
pub use store_workers::Worker;
