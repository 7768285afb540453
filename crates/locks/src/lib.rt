//! Who has taken which part of which block: no two holds share a byte, but those of two transactions that both
//! share it.
#![tactic(auto)]

mod acquire;
mod index;
mod looks;
mod requested_holds;
mod table;

pub use requested_holds::{for_fetching, for_reading, for_writing};
pub use table::{Table, Take};
pub use txn_law::Hold;
