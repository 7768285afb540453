//! Why the stops of a script aren't tried to their end.

use std::alloc::{AllocError, AllocFailed};
use store::{FormatFault, OpenFault};

/// Why the stops of a script aren't tried to their end.
#[derive(Drop)]
pub enum StopsFault {
    /// Its image can't be made.
    Format(FormatFault),
    /// Its image can't be opened, or the calls can't be replayed.
    Open(OpenFault),
    /// What a stop leaves isn't what it is to leave: where, and what differs.
    Torn(String),
    NoMemory,
}

impl From<AllocError> for StopsFault {
    fn from(_e: AllocError) -> StopsFault {
        StopsFault::NoMemory
    }
}

impl<T: Drop> From<AllocFailed<T>> for StopsFault {
    fn from(_e: AllocFailed<T>) -> StopsFault {
        StopsFault::NoMemory
    }
}

impl From<FormatFault> for StopsFault {
    fn from(fault: FormatFault) -> StopsFault {
        match fault {
            FormatFault::NoMemory(_) => StopsFault::NoMemory,
            other => StopsFault::Format(other),
        }
    }
}

impl From<OpenFault> for StopsFault {
    fn from(fault: OpenFault) -> StopsFault {
        match fault {
            OpenFault::NoMemory(_) => StopsFault::NoMemory,
            other => StopsFault::Open(other),
        }
    }
}
