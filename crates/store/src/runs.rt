//! Whole runs of a store, and laws on what the steps of its worker leave. What a run tells and promises is
//! `store_promise`'s, and what it keeps from event to event `store_law`'s.

mod at_work;
mod formatted_run;
mod runs;

pub use at_work::{
    a_call_leaves_the_run_going, a_commit_moves_the_state_by_its_blocks, a_core_at_work_stays_so,
    a_read_leaves_the_run_going, a_worker_leaves_the_run_going, a_workers_step_may_be_made,
    a_workers_step_moves_the_state, what_was_fetched_stays,
};
pub use formatted_run::format_and_run;
pub use runs::{can_be_spelled, run};
