//! Whether an image is good, and how much of it is in use.
#![tactic(auto)]

mod fault;
mod first;
mod judgement;
mod passes;

pub use fault::{CheckFault, Unlinked};
pub use image_contents::Progress;
pub use judgement::Counts;
pub use passes::{check, check_with_progress};
