//! Why a store isn't opened.

use std::alloc::AllocError;
use thiserror::Error;

/// Why an image isn't opened.
#[derive(Clone, Copy, Debug, PartialEq, Eq, Error)]
pub enum OpenFault {
    /// The image has no blocks, or its first one doesn't begin as that of an image does.
    #[error("Magic")]
    Magic,
    /// The format's version isn't the one that is read here.
    #[error("Version")]
    Version,
    /// The sizes of the super block aren't lawful or aren't the device's, a byte that no field has isn't zero,
    /// or no boot number is left.
    #[error("Range")]
    Range,
    /// The headers of the log aren't those of a log.
    #[error("Log")]
    Log,
    /// A call of the device failed.
    #[error("Device")]
    Device,
    /// An allocation failed: it bears the refusal.
    #[error("NoMemory")]
    NoMemory(AllocError),
}

impl From<AllocError> for OpenFault {
    ghost use Rattle.std.specs.Prelude.{◌≡◌, alloc_error};
    ghost use Rattle.store_promise.specs.declared.fault.OpenFault.TheVariants.{NoMemory};

    ghost from_gives = { λ _ fault. fault ≡ NoMemory alloc_error };

    fn from(error: AllocError) -> OpenFault {
        OpenFault::NoMemory(error)
    }
}
