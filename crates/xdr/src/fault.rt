//! Why bytes are no spelling of what was to be read.
ghost use Rattle.std.specs.Prelude.{◌≡◌, alloc_error};
ghost use Rattle.xdr.specs.Numbers.{fault_number};
ghost use Rattle.xdr.specs.declared.fault.XdrFault.TheVariants.{NoMemory};

use std::alloc::{AllocError, AllocFailed};
use thiserror::Error;

/// The first item from the left that has no spelling, or no memory for it. Within an item `Length` comes
/// before `Short`, and that before `Padding` or `Value`. `NoMemory` has the error of the allocation that failed.
#[derive(Clone, Copy, Debug, PartialEq, Eq, Error)]
pub enum XdrFault {
    #[error("the bytes end inside an item")]
    Short,
    #[error("padding that isn't zero")]
    Padding,
    #[error("a value that isn't listed")]
    Value,
    #[error("a length past its bound")]
    Length,
    #[error("bytes are left over")]
    Left,
    #[error("no memory")]
    NoMemory(AllocError),
}

impl XdrFault {
    /// The number that tells of it.
    pub fn number(self) -> u32
        ensures { result ≡ fault_number self }
    {
        match self {
            XdrFault::Short => 1,
            XdrFault::Padding => 2,
            XdrFault::Value => 3,
            XdrFault::Length => 4,
            XdrFault::Left => 5,
            XdrFault::NoMemory(_) => 6,
        }
    }
}

impl From<AllocError> for XdrFault {
    ghost from_gives = { λ _ e. e ≡ NoMemory alloc_error };

    fn from(error: AllocError) -> XdrFault {
        XdrFault::NoMemory(error)
    }
}

impl<T: Drop> From<AllocFailed<T>> for XdrFault {
    ghost from_gives = { λ _ e. e ≡ NoMemory alloc_error };

    fn from(failed: AllocFailed<T>) -> XdrFault {
        XdrFault::NoMemory(AllocError::from(failed))
    }
}
