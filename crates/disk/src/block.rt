//! The numbers of blocks, and the two sides of a device.
ghost use Rattle.std.specs.Prelude.{◌≡◌};
ghost use Rattle.disk.specs.Device.{side_of};

use base::{LOG_HEADER_BLOCK, START_BLOCK};

/// The number of a block of an image, from 0.
#[derive(Clone, Copy, Debug, Default, PartialEq, Eq, PartialOrd, Ord)]
pub struct BlockNo(pub u32);

/// A side of a device. A barrier settles the writes of one side.
#[derive(Clone, Copy, Debug, PartialEq, Eq)]
pub enum Side {
    Log,
    Home,
}

impl BlockNo {
    /// The side that the block lies on.
    pub fn side(self) -> Side
        ensures { result ≡ side_of self.0 }
    {
        if self.0 >= LOG_HEADER_BLOCK && self.0 < START_BLOCK {
            Side::Log
        } else {
            Side::Home
        }
    }
}
