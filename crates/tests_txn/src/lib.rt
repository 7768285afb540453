//! The core driven by hand over a device in memory, with a toy change. No crate stands on this one.
#![tactic(auto)]

#[cfg(test)]
mod tests;
