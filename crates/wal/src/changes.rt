//! The changes of the memory log, found by the numbers of their blocks: a list, and an index over it that no contract
//! shows.

mod absorption;
mod changes;
mod index;

pub use changes::Changes;
