//! Names for good: over all runs of an image's life, a handle names one file. The functions here have laws
//! as their contracts.

mod handle_laws;

pub use handle_laws::{
    a_handle_names_one_file_for_good, a_handle_once_stale_names_no_file_again,
    each_tree_has_its_births, files_of_equal_handles_have_one_birth,
    the_root_was_there_at_the_start,
};
