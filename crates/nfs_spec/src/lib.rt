//! What the server is, apart from any code and any disk, as definitions in `specs/`: files and trees, what each
//! procedure answers and which tree it leads to (RFC 1813), the step of the sequential server, and names for good
//! over all runs of an image's life. The functions here have laws about them as their contracts.
#![tactic(auto)]

mod lives;
mod model;
mod procedures;

pub use lives::{
    a_handle_names_one_file_for_good, a_handle_once_stale_names_no_file_again,
    each_tree_has_its_births, files_of_equal_handles_have_one_birth,
    the_root_was_there_at_the_start,
};
pub use model::{
    a_files_handle_names_it, a_setattr_makes_no_later_stamp, a_setattr_preserves_trees_sound,
    a_setattr_tells_no_failure, another_stamp_is_stale, each_setattr_has_a_step,
    only_a_mode_is_set, only_the_owners_bits_count, setattr_is_determined,
    the_format_tree_is_sound, the_guard_comes_first,
};
pub use procedures::{
    ACCESS_DELETE, ACCESS_EXECUTE, ACCESS_EXTEND, ACCESS_LOOKUP, ACCESS_MODIFY, ACCESS_READ,
    FIRST_SLOT_COOKIE, HAS_LINKS, HAS_SYMBOLIC_LINKS, IS_HOMOGENEOUS, ITSELF_COOKIE, PARENT_COOKIE,
    SETS_TIMES, a_commit_bears_the_verifier_of_what_was_written, a_hole_is_zeros,
    a_numbered_step_is_determined, a_read_elsewhere_gives_what_was_there,
    a_read_gives_what_was_written, a_refusal_leaves_the_tree, a_stale_handle_stays_stale,
    a_step_that_makes_no_file_is_determined, a_write_of_no_bytes_leaves_the_tree,
    a_write_takes_what_it_needs, an_empty_history_leads_nowhere, each_call_has_a_step,
    each_file_was_there_or_is_made_now, histories_join, histories_keep_trees_sound,
    no_stable_answer_tells_a_failure, no_step_makes_a_file_its_own_ancestor,
    no_step_makes_a_later_stamp, no_step_tells_a_failure, one_file_needs_what_it_adds,
    steps_keep_trees_sound, the_last_name_takes_the_file_with_it, what_is_written_is_read,
    what_lies_before_stays, what_lies_behind_stays, what_only_tells_leaves_the_tree,
};
