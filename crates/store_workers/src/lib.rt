//! A worker, which runs one procedure as steps of the core, and laws on what it tells, on one that is alone in
//! its store, and on workers that share one.
#![tactic(auto)]

mod concurrent_workers;
mod lone_worker;
mod options;
mod workers;

pub use concurrent_workers::{
    a_step_counts_what_was_refused, a_step_leaves_what_others_have, a_worker_has_what_it_takes,
    workers_share_a_core,
};
pub use lone_worker::{a_lone_worker_is_never_deferred, a_lone_worker_stays_single};
pub use options::put;
pub use workers::{
    Worker, a_run_traces_its_workers_steps, a_worker_tells_its_call, a_worker_tells_its_read,
    a_worker_tells_its_steps,
};
