//! How files are spelled in blocks: where the parts of an image lie, inodes, slots of directories, indirect
//! blocks, and the tree that blocks stand for.
#![tactic(auto)]

mod fault;
mod fields;
mod fresh;
mod fresh_image;
mod geometry;
mod grid;
mod inode;
mod inode_bytes;
mod inode_fields;
mod inode_rules;
mod name_pattern;
mod numbers;
mod slot;
mod spellings;
mod super_block;
mod version;

pub use fault::LayoutFault;
pub use fresh::{
    a_fresh_image_stands_for_the_format_tree, a_super_block_is_its_bytes,
    an_image_is_read_alike_in_the_newest_version, blocks_stand_for_one_tree,
    there_is_a_fresh_image,
};
pub use fresh_image::FreshImage;
pub use geometry::{Geometry, GeometryFault};
pub use grid::{
    PIECE_BITS, PIECE_BYTES, PIECES_PER_BLOCK, objects_are_one_or_apart, objects_lie_at_home,
};
pub use inode::{Inode, InodeKind};
pub use name_pattern::NamePattern;
pub use numbers::{NUMBER_BYTES, Numbers};
pub use slot::{SLOT_BYTES, Slot, SlotProbe};
pub use spellings::{
    a_block_is_one_super_block, a_slot_is_its_bytes, a_super_block_has_one_spelling,
    a_written_inode_is_read, an_indirect_block_is_its_bytes, an_inode_is_its_bytes,
    counts_make_one_geometry, other_bytes_are_no_indirect_block, other_bytes_are_no_inode,
    other_bytes_are_no_slot,
};
pub use super_block::Super;
pub use version::FormatVersion;
