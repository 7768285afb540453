//! What a step did.

use wal::IoCall;

/// What a step of the logger or of the installer did.
#[derive(Clone, Copy, Debug, PartialEq, Eq)]
pub enum Stepped {
    /// It took this device call, its next.
    Next(IoCall),
    /// It gave back the one that was made, with whether it was answered Ok.
    Done(bool),
}
