//! What the server is, apart from any code and any disk: files, trees, what a call does to a tree and what is
//! answered (RFC 1813). The definitions stand in `specs/`; the functions here have laws about them as their
//! contracts.

mod handles;
mod rules;
mod setattr;
mod trees;

pub use handles::a_files_handle_names_it;
pub use rules::{
    another_stamp_is_stale, only_a_mode_is_set, only_the_owners_bits_count, the_guard_comes_first,
};
pub use setattr::{
    a_setattr_makes_no_later_stamp, a_setattr_preserves_trees_sound, a_setattr_tells_no_failure,
    each_setattr_has_a_step, setattr_is_determined,
};
pub use trees::the_format_tree_is_sound;
