//! What was read for a call, looked through for what the layout refuses.
#![tactic(auto)]

mod blocks;
mod read_inodes;
mod refusal_laws;

pub use read_inodes::is_refused;
pub use refusal_laws::what_is_refused_is_in_no_tree;
