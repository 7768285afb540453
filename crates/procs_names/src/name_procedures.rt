//! The procedures that make and remove names, over any files.

mod hard_links;
mod removals;

pub use hard_links::{LinkReplyParts, link};
pub use removals::{remove, remove_directory};
