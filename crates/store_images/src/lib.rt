//! Images of a store: making one, opening it, settling what lies between, and opening what a crash leaves of one.
#![tactic(auto)]

mod formatter;
mod opened;
mod opening;
mod replays;
mod sides;
mod taken_apart;

pub use formatter::{FormatFault, format};
pub use opened::{Store, close, has_too_many_uninstalled, settle};
pub use opening::{open, read_super};
pub use replays::replay;
pub use sides::{a_call_of_a_role_leaves_the_store_open, the_calls_of_a_role_are_steps};
pub use taken_apart::{TakenApart, parts};
