//! The bitmaps of an image, one of its blocks and one of its numbers: how many are free, and their bits, set and
//! cleared; and inodes that are made and freed by them.
#![tactic(auto)]

mod allocation;
mod enough_free;
mod free_bit_laws;
mod free_search;
mod inodes;
mod mark;
mod pieces;
mod unmark;

pub use allocation::take_block;
pub use enough_free::are_enough_free;
pub use free_bit_laws::the_clear_bits_are_what_is_free;
pub use free_search::{new_block, new_number};
pub use inodes::{emptied, free_all, make_empty, make_link, remove};
pub use mark::{mark_block, mark_number};
pub use pieces::{free_blocks, free_numbers};
pub use unmark::unmark_blocks;
