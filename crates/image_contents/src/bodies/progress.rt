//! Who is told how far a look at an image is.

/// Who is told how far a look at an image is. It may tell a person, and changes nothing of the look.
pub trait Progress {
    /// So many of so many numbers of inodes were gone through.
    fn reached(&mut self, done: u32, all: u32);
}

/// Nobody is told.
#[derive(Drop)]
pub struct Untold;

impl Progress for Untold {
    fn reached(&mut self, _done: u32, _all: u32) {}
}
