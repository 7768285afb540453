//! A plain tree in memory: files with their bodies, names and attributes. It knows of no disk.
#![tactic(auto)]

mod tree;

pub use tree::{
    MappedIndexes, NumberedNode, PlainBody, PlainDirent, PlainNames, PlainNode, PlainTree,
    set_length,
};
