//! How a script stands between two commands.

use crate::segment::Segment;
use disk::MemDisk;

/// How a script stands between two commands.
#[derive(Drop)]
pub enum Stage {
    /// No image was made yet.
    First,
    /// The device, as the opening finds it, and what happens from then on.
    Open(MemDisk, Segment),
    /// The device, as a crash left it.
    Stopped(MemDisk),
    /// An image was refused: nothing more is done.
    Refused,
}
