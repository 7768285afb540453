//! Records in the blocks in which they lie: the objects of an image by their addresses, the bits of the bitmaps,
//! and blocks in which a slot or a number is another.
#![tactic(auto)]

mod bit_counts;
mod bits;
mod grid;
mod within;

pub use bit_counts::clear_in;
pub use bits::{piece_addr, put_bit};
pub use grid::{inode_number, is_on_grid};
pub use within::{first_slot, with_number, with_piece, with_slot};
