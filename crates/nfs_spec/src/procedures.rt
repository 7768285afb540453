//! The procedures of NFS version 3 over trees, as definitions: what each may answer and which tree it leads
//! to (RFC 1813, section 3.3), and the step of the sequential server over all of them. They stand in
//! `specs/`, one file a procedure; the functions here have laws about them as their contracts.

mod bits;
mod calls;
mod cookies;
mod files;
mod handles;
mod histories;
mod steps;
mod trees;

pub use bits::{
    ACCESS_DELETE, ACCESS_EXECUTE, ACCESS_EXTEND, ACCESS_LOOKUP, ACCESS_MODIFY, ACCESS_READ,
    HAS_LINKS, HAS_SYMBOLIC_LINKS, IS_HOMOGENEOUS, SETS_TIMES,
};
pub use calls::no_stable_answer_tells_a_failure;
pub use cookies::{FIRST_SLOT_COOKIE, ITSELF_COOKIE, PARENT_COOKIE};
pub use files::{
    a_commit_bears_the_verifier_of_what_was_written, a_hole_is_zeros,
    a_read_elsewhere_gives_what_was_there, a_read_gives_what_was_written,
    a_write_of_no_bytes_leaves_the_tree, a_write_takes_what_it_needs, one_file_needs_what_it_adds,
    the_last_name_takes_the_file_with_it, what_is_written_is_read, what_lies_before_stays,
    what_lies_behind_stays,
};
pub use handles::a_stale_handle_stays_stale;
pub use histories::{an_empty_history_leads_nowhere, histories_join};
pub use steps::{
    a_numbered_step_is_determined, a_refusal_leaves_the_tree,
    a_step_that_makes_no_file_is_determined, each_call_has_a_step,
    each_file_was_there_or_is_made_now, no_step_makes_a_later_stamp, no_step_tells_a_failure,
    what_only_tells_leaves_the_tree,
};
pub use trees::{
    histories_keep_trees_sound, no_step_makes_a_file_its_own_ancestor, steps_keep_trees_sound,
};
