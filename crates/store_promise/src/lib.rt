//! What a run of a store tells, and what it promises: events and steps, answers, the transcript; in `specs/`
//! the good image, schedules, histories, verdicts and the headline's record.
#![tactic(auto)]

mod answers;
mod events;
mod fault;
mod file_blocks;
mod fresh;
mod lock_requests;
mod log_states;
mod log_steps;
mod open_steps;
mod open_store;
mod promises;
mod refusals;
mod rules;
mod run_laws;
mod steps_made;
mod transcript;
mod waiting_laws;

pub use answers::{CallAnswer, Entry, Verdict};
pub use events::{Cause, Changed, Committing, Ending, Event, LockAnswer, Step};
pub use fault::OpenFault;
pub use file_blocks::{
    earlier_files_keep_their_blocks, only_a_commit_changes_the_files,
    what_is_held_is_what_the_files_are, what_is_settled_stays_settled,
};
pub use fresh::{a_fresh_image_is_good, a_made_image_may_run};
pub use lock_requests::LockRequest;
pub use log_states::{
    log_state_has_the_installers_next_call, log_state_has_the_loggers_next_call,
    log_state_has_what_is_free, log_state_has_what_is_settled, the_installer_stands_at_a_home,
};
pub use log_steps::{
    a_commit_moves_the_log_state, the_installer_moves_the_log_state, the_logger_moves_the_log_state,
};
pub use open_steps::{
    a_commit_leaves_the_store_open, a_read_leaves_the_store_open, a_stop_leaves_a_beginning,
    a_transaction_leaves_the_store_open, an_open_store_preserves_its_files,
    the_installer_leaves_the_store_open, the_logger_leaves_the_store_open,
};
pub use open_store::{
    a_stop_leaves_a_good_image, an_opening_leaves_an_open_store,
    the_files_stay_under_a_new_super_block, whole_groups_are_a_good_image,
};
pub use promises::{
    a_device_call_is_the_one_in_the_steps, a_failure_is_reported_of_its_own_call,
    a_reported_failure_was_counted, a_run_is_of_one_boot, a_run_of_no_events_preserves_the_promise,
    a_stop_leaves_an_image, an_answer_of_io_has_its_failed_call, an_entry_was_called,
    each_procedure_has_a_number_of_its_own, every_event_is_taken, half_a_group_breaks_the_promise,
    no_procedure_is_answered_twice, no_stable_answer_bears_place_0,
    no_stable_answer_comes_with_its_commit, the_boot_number_stays_incremented,
    the_history_is_in_order, what_a_commit_covers_is_preserved,
    what_is_reported_settled_is_preserved, what_is_stable_is_preserved,
};
pub use refusals::{
    a_good_image_is_refused_for_a_cause, a_good_image_shows_no_cause, an_image_shows_one_cause,
    what_shows_a_cause_is_not_opened,
};
pub use rules::the_rules_are_the_steps;
pub use run_laws::{
    a_device_counts_the_calls_of_its_steps, a_worker_preserves_the_run_going,
    an_opening_begins_a_run, what_was_read_is_at_home,
};
pub use steps_made::{
    a_call_changes_no_more_than_it_may, a_call_that_is_out_is_made,
    a_commit_names_what_was_taken_exclusively, a_full_log_is_full,
    a_procedure_changes_only_what_it_names, a_procedure_changes_only_what_it_took,
    a_worker_goes_by_its_plan, a_worker_passes_over_no_event, no_block_in_memory_is_fetched,
    no_call_begins_again_for_nothing, no_two_take_one_byte, nothing_is_asked_for_twice,
    one_worker_is_never_busy, the_installer_comes_to_an_end, the_log_passes_over_no_event,
    the_log_takes_its_next_call, what_was_known_is_taken_again_first, what_was_made_stays,
    who_has_taken_more_above_does_not_wait,
};
pub use transcript::{Answer, Committed, Run};
pub use waiting_laws::{
    lock_requests_rise_with_one_more, waits_make_no_ring, what_is_taken_again_is_not_upgraded,
    what_is_taken_rises,
};
