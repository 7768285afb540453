//! Why a script isn't run to its end.
ghost use Rattle.std.specs.Prelude.{◌≡◌};
ghost use Rattle.sim.specs.declared.fault.SimFault.TheVariants.{NoMemory};

use std::alloc::{AllocError, AllocFailed};

/// Why a script isn't run to its end.
#[derive(Clone, Copy, Debug, PartialEq, Eq)]
pub enum SimFault {
    /// A line can't be printed.
    Output,
    NoMemory,
}

impl From<AllocError> for SimFault {
    ghost from_gives = { λ _ e. e ≡ NoMemory };

    fn from(_e: AllocError) -> SimFault {
        SimFault::NoMemory
    }
}

impl<T: Drop> From<AllocFailed<T>> for SimFault {
    ghost from_gives = { λ _ e. e ≡ NoMemory };

    fn from(_e: AllocFailed<T>) -> SimFault {
        SimFault::NoMemory
    }
}
