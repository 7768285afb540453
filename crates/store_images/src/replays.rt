//! Calls planned one by one over an image, whose writes go home: without core, log and locks.

mod entry_replay;
mod home_writes;
mod plans;
mod start;

pub use entry_replay::replay;
