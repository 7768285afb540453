//! Tries each stop of a script's run: what a crash may leave there is opened, and its files are compared with those
//! of the calls before it, planned one by one.
#![tactic(auto)]

mod beginnings;
mod choices;
mod fault;
mod left;
mod openings;
mod runs;
mod script;
mod stops;
mod wanted;

pub use fault::StopsFault;
pub use stops::{Tried, try_stops};
