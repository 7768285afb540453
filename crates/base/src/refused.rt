//! Memory that was refused.
ghost use Rattle.std.specs.Prelude.{◌≡◌};

use std::alloc::{AllocError, AllocFailed};

/// The error of an allocation that failed, and what was to lie there. An `AllocFailed` gives up but one of the two, so this
/// makes the error anew of one that it uses up: no other function makes one.
pub fn apart<T>(failed: AllocFailed<T>) -> (AllocError, T)
    ensures { result.1 ≡ failed.value }
{
    let AllocFailed { value } = failed;
    (AllocError, value)
}
