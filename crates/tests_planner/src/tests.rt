//! The rows, and what runs them. The page README.md says what they ask.

mod double_indirect;
mod edges;
mod lives;
mod restarts;
