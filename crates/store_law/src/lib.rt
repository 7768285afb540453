//! Laws on runs and on the life of an image: what is told of a run grows event by event, and each stop so far leaves
//! a prefix of its procedures; and from run to run a handle names one file. They are contracts of functions that do
//! nothing. `run` of `store` stands on them.
#![tactic(auto)]

mod lives;
mod runs;

pub use lives::{
    a_fresh_image_can_be_held, a_handle_names_one_file_for_good, a_life_counts_up_to_each_crash,
    a_life_may_go_on, a_stopped_recovery_preserves_the_tree, each_image_has_its_births,
    each_tree_has_its_births,
};
pub use runs::{
    a_run_begins, a_run_goes_on, a_run_preserves_its_promise, only_work_tells, what_is_traced_grows,
};
