//! The files of an image, gone through one after another: what each shows by itself, and what is counted of all.

mod bodies;
mod found;
mod inner;
mod progress;

pub use bodies::scan_all_files;
pub use found::Found;
pub use progress::{Progress, Untold};
