//! Planners beside plans that restart, on images in memory. No crate stands on this one.
#![tactic(auto)]

#[cfg(test)]
mod tests;
