//! What a plan says.
use crate::done::Done;
use disk::BlockNo;
use objects::{Addr, Mode};
use std::alloc::AllocError;

/// What a call needs next: an object to be read, in a mode, a block to be claimed; or what comes of it; or memory,
/// which was refused.
#[derive(Drop)]
pub enum Plan {
    Need(Addr, Mode),
    Claim(BlockNo),
    Done(Done),
    NoMemory(AllocError),
}
