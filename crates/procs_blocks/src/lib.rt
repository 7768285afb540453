//! The files on the blocks of an image, as far as these were read.
#![tactic(auto)]

mod added_blocks;
mod attributes;
mod block_files;
mod contents;
mod heads;
mod inode_refresh;
mod insertion;
mod name_slots;
mod new_file;
mod removal;
mod size_changes;
mod space;
mod update_files;
mod write_set_files;
mod writes;

pub use added_blocks::unmapped;
pub use attributes::set;
pub use bitmap::remove;
pub use block_files::BlockFiles;
pub use heads::inode_attributes_of;
pub use inode_refresh::refresh;
pub use insertion::enter;
pub use new_file::{make, new_number};
pub use removal::depart;
pub use size_changes::resize;
pub use write_set_files::WriteSetFiles;
pub use writes::write;
