//! What was read of an image for a call, the inodes in it, and what a call writes over it.
#![tactic(auto)]

mod bytes;
mod exclusives;
mod index;
mod inodes;
mod lookup;
mod map;
mod read;
mod snap;
mod suspend;
mod write_sets;

pub use bytes::{ask_block, piece, target};
pub use index::AddressIndex;
pub use inodes::{file_kind, held, pointer_used, used_of};
pub use map::{
    block_number, data_block, double_numbers, indirect_numbers, inner_number, pointer_numbers,
};
pub use read::{bytes_at, inode_of};
pub use snap::Snap;
pub use suspend::Suspend;
pub use write_sets::{WriteSet, attributed};
