//! The device calls of a log.

use disk::{BlockNo, Side};

/// A device call of the logger or the installer.
#[derive(Clone, Copy, Debug, PartialEq, Eq)]
pub enum IoCall {
    Write(BlockNo),
    Barrier(Side),
}
