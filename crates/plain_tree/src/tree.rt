//! A plain tree in memory: files with their bodies, names and attributes. It knows of no disk.

mod length;
mod mapped;
mod node;
mod plain_names;
mod tree;

pub use length::set_length;
pub use mapped::MappedIndexes;
pub use node::{PlainBody, PlainNode};
pub use plain_names::{PlainDirent, PlainNames};
pub use tree::{NumberedNode, PlainTree};
