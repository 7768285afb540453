//! Names that come into directories and go.
#![tactic(auto)]

mod growth;
mod insertion;
mod slot_laws;
mod slot_writes;
mod unlink;

pub use insertion::enter;
pub use slot_laws::{a_cleared_slot_loses_its_name, a_filled_slot_gains_its_name};
pub use unlink::lose;
