//! The files of a tree in memory.

mod contents;
mod heads;
mod next_names;
mod nodes;
mod numbers;
mod overwrites;
mod slots;
mod space;
mod tree_queries;
mod tree_updates;

pub use heads::PlainFiles;
