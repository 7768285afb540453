//! Tests of the devices. No crate stands on this one.
#![tactic(auto)]

#[cfg(test)]
mod tests;
