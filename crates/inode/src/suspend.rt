//! Why a plan goes no further.
use disk::BlockNo;
use objects::{Addr, Mode};
use std::alloc::AllocError;

/// What stands in a plan's way: an object that wasn't asked for yet in this mode, a block that wasn't claimed yet, an object
/// that the layout refuses, or want of memory, with the refusal.
#[derive(Clone, Copy, Debug, PartialEq, Eq)]
pub enum Suspend {
    Need(Addr, Mode),
    Claim(BlockNo),
    Io,
    NoMemory(AllocError),
}

impl From<AllocError> for Suspend {
    ghost use Rattle.std.specs.Prelude.{◌≡◌, alloc_error};
    ghost use Rattle.inode.specs.declared.suspend.Suspend.TheVariants.{NoMemory};

    ghost from_gives = { λ _ suspend. suspend ≡ NoMemory alloc_error };

    fn from(error: AllocError) -> Suspend {
        Suspend::NoMemory(error)
    }
}
