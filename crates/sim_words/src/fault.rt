//! Why a script can't be read.
ghost use Rattle.std.specs.Prelude.{◌≡◌};
ghost use Rattle.sim_words.specs.Faults.{at_line};

use std::alloc::{AllocError, AllocFailed};

/// Why a line is no command.
#[derive(Clone, Copy)]
pub enum LineFault {
    /// It asks for nothing that there is.
    Bad,
    NoMemory,
}

impl From<AllocError> for LineFault {
    ghost use Rattle.sim_words.specs.declared.fault.LineFault.TheVariants.{NoMemory};

    ghost from_gives = { λ _ e. e ≡ NoMemory };

    fn from(_e: AllocError) -> LineFault {
        LineFault::NoMemory
    }
}

impl<T: Drop> From<AllocFailed<T>> for LineFault {
    ghost use Rattle.sim_words.specs.declared.fault.LineFault.TheVariants.{NoMemory};

    ghost from_gives = { λ _ e. e ≡ NoMemory };

    fn from(_e: AllocFailed<T>) -> LineFault {
        LineFault::NoMemory
    }
}

impl LineFault {
    /// What it is to the script, at a line of this number.
    pub fn at_line(self, number: usize) -> ScriptFault
        ensures { result ≡ at_line number self }
    {
        match self {
            LineFault::Bad => ScriptFault::Line(number),
            LineFault::NoMemory => ScriptFault::NoMemory,
        }
    }
}

/// Why a script isn't read.
#[derive(Clone, Copy, Debug, PartialEq, Eq)]
pub enum ScriptFault {
    /// The first line that asks for nothing that there is, or that stands where it may not. Lines count from 1.
    Line(usize),
    NoMemory,
}

impl<T: Drop> From<AllocFailed<T>> for ScriptFault {
    ghost use Rattle.sim_words.specs.declared.fault.ScriptFault.TheVariants.{NoMemory};

    ghost from_gives = { λ _ e. e ≡ NoMemory };

    fn from(_e: AllocFailed<T>) -> ScriptFault {
        ScriptFault::NoMemory
    }
}
