//! The procedures that change one file, and those that make one, over any files.
#![tactic(auto)]

mod creates;
mod writes;

pub use creates::{create, make_directory, make_link};
pub use writes::{
    Done, changed, refused, set_attributes, set_file, set_inode_attributes, set_refusal,
    touched_inode_attributes, unfound, write,
};
