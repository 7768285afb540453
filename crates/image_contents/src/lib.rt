//! The files of an image, gone through one after another: what each shows by itself, the names in its slots, what is
//! counted of all, and a line about each to print.
#![tactic(auto)]

mod bodies;
mod found;
mod lines;
mod slot_names;

pub use bodies::{Found, Progress, Untold, scan_all_files};
pub use found::{
    what_is_found_is_counted, what_is_found_is_owned, what_is_linked_is_whole,
    what_is_whole_is_linked,
};
pub use lines::{Line, print_lines, read_lines, show};
pub use slot_names::{are_names, names_decide_a_directory, slots_in_use_are_entries};
