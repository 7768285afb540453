//! Bytes that are written to regular files.
#![tactic(auto)]

mod added_blocks;
mod blocks;
mod doubles;
mod inodes;
mod mapped_blocks;
mod pieces;
mod writes;

pub use added_blocks::unmapped;
pub use blocks::put_block;
pub use inodes::{naming, sized, store, store_indirect, with_indirect_block};
pub use writes::write;
