//! The names in a directory's slots, and laws on these slots.

mod slot_laws;
mod valid_names;

pub use slot_laws::{names_decide_a_directory, slots_in_use_are_entries};
pub use valid_names::are_names;
