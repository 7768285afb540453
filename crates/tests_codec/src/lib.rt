//! A worked call and a worked reply of each procedure, there and back. No crate stands on this one.
#![tactic(auto)]

#[cfg(test)]
mod tests;
