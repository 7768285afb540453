//! What the memory log answers.

use std::alloc::AllocError;

/// The place of a commit. They count from 1 at each opening.
#[derive(Clone, Copy, Debug, PartialEq, Eq, PartialOrd, Ord)]
pub struct Seq(pub u64);

/// What came of an append.
#[derive(Clone, Copy, Debug, PartialEq, Eq)]
pub enum Append {
    /// The group is the newest of the tail, and has the next place.
    Appended,
    /// The tail and the group don't fit in the slots of the log.
    Full,
    /// There was no memory for it.
    NoMemory(AllocError),
}

/// Whether there is room for a group.
#[derive(Clone, Copy, Debug, PartialEq, Eq)]
pub enum Room {
    Fits,
    /// No place is left, or too few log positions.
    Spent,
    /// The tail and the group don't fit in the slots of the log.
    Full,
}
