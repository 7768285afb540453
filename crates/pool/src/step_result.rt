//! What a step was told.

/// What the last step of a worker was told, as far as its thread has to know.
#[derive(Clone, Copy, Debug, PartialEq, Eq)]
pub enum StepResult {
    /// Nothing that the thread has to know.
    Nothing,
    /// Its change was committed: the logger has something to do, where that changes something.
    Committed,
    /// Another transaction, or a fetch, keeps it off: it tries again with its next step.
    LockDeferred,
    /// The log has no room for its change: it tries again with its next step.
    Full,
}
