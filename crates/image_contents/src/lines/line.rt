//! What is told of a file.

use layout::InodeKind;

/// What is told of a file: the number of its inode, its attributes, and how many blocks its bytes lie in. A regular
/// file's are those that it has, without the one that holds their numbers; a directory's are those that it spans, and a
/// link has one.
#[derive(Clone, Copy, Debug, PartialEq, Eq)]
pub struct Line {
    pub number: u32,
    pub kind: InodeKind,
    pub mode: u32,
    pub uid: u32,
    pub gid: u32,
    pub nlink: u32,
    pub size: u64,
    pub blocks: u64,
}
