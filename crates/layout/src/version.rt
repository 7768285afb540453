//! The versions of the format.
ghost use Rattle.std.specs.Prelude.{◌≡◌};
ghost use Rattle.layout.specs.Version.{has_double, number_of_version, version_of_number};

use base::{FIRST_VERSION, FORMAT_VERSION};

/// A version of the format: it says how the bytes of an image are read.
#[derive(Clone, Copy, Debug, PartialEq, Eq)]
pub enum FormatVersion {
    First,
    Second,
}

impl FormatVersion {
    /// The version of a number, if there is one.
    pub fn of_number(number: u32) -> Option<FormatVersion>
        ensures { result ≡ version_of_number number }
    {
        if number == FIRST_VERSION {
            Some(FormatVersion::First)
        } else if number == FORMAT_VERSION {
            Some(FormatVersion::Second)
        } else {
            None
        }
    }

    /// Its number in a super block.
    pub fn number(self) -> u32
        ensures { result ≡ number_of_version self }
    {
        match self {
            FormatVersion::First => FIRST_VERSION,
            FormatVersion::Second => FORMAT_VERSION,
        }
    }

    /// Whether an inode of this version has the number of a double indirect block.
    pub fn has_double(self) -> bool
        ensures { result ≡ has_double self }
    {
        match self {
            FormatVersion::First => false,
            FormatVersion::Second => true,
        }
    }
}
