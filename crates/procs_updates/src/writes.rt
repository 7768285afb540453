//! The procedures that change one file, over any files: SETATTR and WRITE.

mod attributes;
mod data_writes;
mod done;
mod refusals;
mod set_attr;
mod texts;

pub use attributes::{set_inode_attributes, touched_inode_attributes};
pub use data_writes::write;
pub use done::{Done, changed, refused, unfound};
pub use refusals::set_refusal;
pub use set_attr::{set_attributes, set_file};
