//! A toy change over a device in memory: what no contract says of transactions beside each other and of groups of the log.

mod bench;
mod counts;
mod fake_changes;
mod refused_memory;
mod rows;
mod script;
mod sizes;
mod whole;
