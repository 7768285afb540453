//! The blocks that objects make when they are laid over what is current: a group of the log.
#![tactic(auto)]

mod group;

pub use group::{Blocks, are_sized, blocks_of_objects, group_of, pointers_to};
