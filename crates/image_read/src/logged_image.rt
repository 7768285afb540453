//! An image as its log makes it: blocks that are read from the log where it has them, or else from their homes.

mod overlay;

pub use overlay::Overlay;
