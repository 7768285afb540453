//! The procedures as plans: what is to be read for a call, what comes of it, and what shows that a plan was of its
//! call.
#![tactic(auto)]

mod above;
mod ahead;
mod asks;
mod commit_witnesses;
mod done;
mod ends;
mod entering;
mod first_file;
mod free;
mod free_slots;
mod freeing;
mod next;
mod pieces;
mod planner;
mod pointers;
mod query_calls;
mod refused;
mod restarted;
mod rules;
mod searched;
mod shrinking;
mod untested_plan;
mod update_calls;
mod work;
mod writing;

pub use asks::{
    a_plan_asks_for_few, a_plan_claims_few, what_is_asked_for_counts,
    what_is_claimed_was_asked_for, what_is_read_was_asked_for,
};
pub use commit_witnesses::CommitWitness;
pub use done::Done;
pub use ends::{a_reply_that_no_step_has_is_no_plan, other_bytes_than_the_files_are_no_plan};
pub use inode::Snap;
pub use next::Plan;
pub use planner::Planner;
pub use refused::refused_reply;
pub use restarted::plan;
pub use rules::{begins_transaction, is_answered_stable, reading_mode};
