//! Why a part of an image isn't read.
use disk::Failed;
use layout::LayoutFault;
use std::alloc::AllocError;
use thiserror::Error;

/// What is wrong with a part of an image, or why it couldn't be read.
#[derive(Clone, Copy, Debug, PartialEq, Eq, Error)]
pub enum PartFault {
    /// An allocation failed: it bears the refusal.
    #[error("no memory")]
    NoMemory(AllocError),
    /// A call of the device failed.
    #[error("the device failed")]
    Device,
    /// The layout refuses it.
    #[error("refused by the layout")]
    Range,
}

impl From<AllocError> for PartFault {
    ghost use Rattle.std.specs.Prelude.{◌≡◌, alloc_error};
    ghost use Rattle.image_read.specs.declared.parts.fault.PartFault.TheVariants.{NoMemory};

    ghost from_gives = { λ _ fault. fault ≡ NoMemory alloc_error };

    fn from(error: AllocError) -> PartFault {
        PartFault::NoMemory(error)
    }
}

impl From<Failed> for PartFault {
    ghost use Rattle.std.specs.Prelude.{◌≡◌};
    ghost use Rattle.image_read.specs.declared.parts.fault.PartFault.TheVariants.{Device};

    ghost from_gives = { λ _ fault. fault ≡ Device };

    fn from(_: Failed) -> PartFault {
        PartFault::Device
    }
}

impl From<LayoutFault> for PartFault {
    ghost use Rattle.std.specs.Prelude.{◌≡◌};
    ghost use Rattle.image_read.specs.declared.parts.fault.PartFault.TheVariants.{Range};

    ghost from_gives = { λ _ fault. fault ≡ Range };

    fn from(_: LayoutFault) -> PartFault {
        PartFault::Range
    }
}
