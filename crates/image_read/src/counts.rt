//! What one file adds to what is counted of an image: the blocks that it owns, and the names in its slots; and whether
//! the files make a tree, by what was counted.

mod blocks;
mod links;
mod name_counts;
mod reached;

pub use blocks::meet_blocks;
pub use links::{Links, are_linked};
pub use name_counts::count_names;
