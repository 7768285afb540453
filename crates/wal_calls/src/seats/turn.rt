//! What a step did.

/// What a step did.
#[derive(Clone, Copy, Debug, PartialEq, Eq)]
pub enum Turn {
    /// Nothing: it has to wait.
    Idle,
    /// It went on.
    Moved,
    /// Nothing, and it never will: the store is broken.
    Broken,
}
