//! RENAME over any files: why a file isn't renamed, and how it is moved.
#![tactic(auto)]

mod ancestors;
mod moves;
mod places;
mod refusals;
mod renames;
mod slots;

pub use ancestors::is_within;
pub use moves::move_file;
pub use places::{places_refusal, source_file};
pub use refusals::{is_named, move_refusal};
pub use renames::{RenameReplyParts, rename};
