//! The transactional core: transactions over a log and a device, for any kind of change.
#![tactic(auto)]

mod change;
mod commit;
mod fetch;
mod log_calls;
mod outcomes;
mod receipt;
mod records;
mod refresh;
mod transaction_laws;
mod transactions;
mod tx;
mod want;

pub use change::Change;
pub use objects::Object;
pub use outcomes::{BeginFault, Claim, Commit, Want};
pub use receipt::Receipt;
pub use transaction_laws::{
    a_lone_transaction_is_not_deferred, a_planned_change_is_its_own,
    a_request_is_granted_after_its_fetch, others_keep_what_they_have,
};
pub use transactions::Core;
pub use tx::{FetchIo, Stable, Tx};
pub use txn_law::{
    a_window_has_each_commit_that_is_not_installed, a_window_preserves_what_was_read,
    a_window_reads_one_content,
};
pub use wal::{InstIo, LogIo, RoleIo, Seq};
