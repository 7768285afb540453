//! Files that are cut or filled up.
#![tactic(auto)]

mod blocks;
mod cuts;
mod doubles;
mod numbers;
mod size_changes;

pub use size_changes::resize;
