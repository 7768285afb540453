//! The parts of an image as a whole, read block by block through its log:
//! the table of its inodes, and its bitmaps.

mod fault;
mod marks;
mod table;

pub use fault::PartFault;
pub use marks::are_marked;
pub use table::read_table;
