//! The files of an image, each by itself, read through its log: the numbers of its blocks, the bytes past its end,
//! and the names in a directory.

mod numbers;
mod slots;
mod tail;

pub use numbers::{read_numbers, read_pointers};
pub use slots::read_directory;
pub use tail::is_zero_past;
