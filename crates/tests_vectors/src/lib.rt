//! What was worked out by hand from the standards, each spelled once, for tests alone: the arguments of a call and the
//! result of a reply of each procedure, as words and as values (`procedures`).
#![tactic(auto)]

pub mod messages;
pub mod procedures;
