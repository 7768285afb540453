//! Laws on a run as it goes on, event by event: what is told of it grows, and each stop so far leaves a
//! prefix of its procedures. They are contracts of functions that do nothing; `run` of `store` stands on
//! them.

mod runs;
mod trace_laws;

pub use runs::{a_run_begins, a_run_goes_on, a_run_preserves_its_promise};
pub use trace_laws::{only_work_tells, what_is_traced_grows};
