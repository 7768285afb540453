//! Why an image isn't good.

use std::alloc::AllocError;
use thiserror::Error;

/// A file whose links aren't the names that it has.
#[derive(Clone, Copy, Debug, PartialEq, Eq)]
pub struct Unlinked {
    pub inode: u32,
    pub links: u32,
    /// How often it is named; where that is more often than a file may have links, only once more than that is told.
    pub named: u32,
}

/// What is wrong with an image, or why it couldn't be checked.
#[derive(Clone, Copy, Debug, PartialEq, Eq, Error)]
pub enum CheckFault {
    /// The image has no blocks, or its first one doesn't begin as that of an image does.
    #[error("Magic")]
    Magic,
    /// The format's version isn't one that is read here.
    #[error("Version")]
    Version,
    /// The sizes of the super block aren't lawful or aren't the device's, no boot number is left; or an inode, a
    /// slot or the blocks of a file aren't as one file alone may have them.
    #[error("Range")]
    Range,
    /// The headers of the log aren't those of a log.
    #[error("Log")]
    Log,
    /// A call of the device failed.
    #[error("Device")]
    Device,
    /// An allocation failed: it bears the refusal.
    #[error("NoMemory")]
    NoMemory(AllocError),
    /// A block has two owners.
    #[error("Shared")]
    Shared,
    /// A bitmap doesn't mark what is in use.
    #[error("Bitmap")]
    Bitmap,
    /// Something lies past a file's size, a name in a directory is none or stands twice, a file was made in a later
    /// boot, or the files make no tree. Where the links alone are wrong, it has the first file that isn't named as
    /// often as it has links, of those that are no directories.
    #[error("Tree")]
    Tree(Option<Unlinked>),
}
