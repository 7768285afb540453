//! What was read of an image for a call, with what the call writes laid over it.

mod attributes;
mod inodes;
mod write_set;

pub use attributes::attributed;
pub use write_set::WriteSet;
