//! The sequential server with all its procedures computed over a tree in memory: one call after another,
//! each proved to be a step.
#![tactic(auto)]

mod answers;
mod query_answers;
mod tree_files;
mod update_answers;

pub use answers::answer;
