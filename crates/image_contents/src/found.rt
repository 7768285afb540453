//! Laws on what is found in the files of an image: what is counted of it, and that by these counts an image is whole.

mod found_laws;
mod links;

pub use found_laws::{what_is_found_is_counted, what_is_found_is_owned};
pub use links::{what_is_linked_is_whole, what_is_whole_is_linked};
