//! Files as plain structs.
ghost use Rattle.std.specs.Prelude.{◌≡◌, ◌*◌, ◌^◌, ◌≤◌};
ghost use Rattle.nfs_spec.specs.Model.Attributes.{attributes_of, before_change, kind_of, size_of};
ghost use Rattle.nfs_spec.specs.Model.Cost.{cost};
ghost use Rattle.plain_tree.specs.Tree.Plain.{body_of, node_of};

use crate::tree::{MappedIndexes, PlainNames};
use base::{BLOCK_BYTES, DIRECT_INDEXES, FILE_SYSTEM};
use nfs_types::{
    Attributes, DeviceNumber, FileKind, Moment, Octets, Stamp, Verifier, WeakCacheAttributes,
};
use std::alloc::AllocError;

/// What is in a file.
#[derive(Drop)]
pub enum PlainBody {
    Regular {
        bytes: Vec<u8>,
        mapped: MappedIndexes,
    },
    Directory {
        entries: PlainNames,
        span: u32,
        parent: u32,
    },
    Link {
        target: Octets,
    },
}

/// A file with its attributes.
#[derive(Drop)]
pub struct PlainNode {
    pub mode: u32,
    pub uid: u32,
    pub gid: u32,
    pub nlink: u32,
    pub atime: Moment,
    pub mtime: Moment,
    pub ctime: Moment,
    pub stamp: Stamp,
    pub verifier: Option<Verifier>,
    pub body: PlainBody,
}

impl Clone for PlainBody {
    ghost is_clone = { λ body copy. body_of copy ≡ body_of body };

    fn clone(&self) -> Result<PlainBody, AllocError> {
        match self {
            PlainBody::Regular { bytes, mapped } => Ok(PlainBody::Regular {
                bytes: bytes.clone()?,
                mapped: mapped.clone()?,
            }),
            PlainBody::Directory {
                entries,
                span,
                parent,
            } => Ok(PlainBody::Directory {
                entries: entries.clone()?,
                span: *span,
                parent: *parent,
            }),
            PlainBody::Link { target } => Ok(PlainBody::Link {
                target: target.clone()?,
            }),
        }
    }
}

impl Clone for PlainNode {
    ghost is_clone = { λ node copy. node_of copy ≡ node_of node };

    fn clone(&self) -> Result<PlainNode, AllocError> {
        Ok(PlainNode {
            mode: self.mode,
            uid: self.uid,
            gid: self.gid,
            nlink: self.nlink,
            atime: self.atime,
            mtime: self.mtime,
            ctime: self.ctime,
            stamp: self.stamp,
            verifier: self.verifier,
            body: self.body.clone()?,
        })
    }
}

impl PlainBody {
    /// What kind of file it is the body of.
    pub fn kind(&self) -> FileKind
        ensures { result ≡ kind_of (body_of self.now) }
    {
        match self {
            PlainBody::Regular { .. } => FileKind::Regular,
            PlainBody::Directory { .. } => FileKind::Directory,
            PlainBody::Link { .. } => FileKind::Link,
        }
    }

    /// The size in bytes.
    pub fn size(&self) -> u64
        ensures { result ≡ size_of (body_of self.now) }
    {
        match self {
            PlainBody::Regular { bytes, .. } => bytes.len() as u64,
            PlainBody::Directory { span, .. } => BLOCK_BYTES as u64 * *span as u64,
            PlainBody::Link { target } => target.as_slice().len() as u64,
        }
    }

    /// The blocks that the file uses.
    pub fn cost(&self) -> u64
        ensures cost { result ≡ cost (body_of self.now) }
        ensures small { result ≤ 2 ^ 32 }
    {
        match self {
            PlainBody::Regular { mapped, .. } => mapped.cost(),
            PlainBody::Directory { span, .. } => {
                *span as u64
                    + if *span as usize > DIRECT_INDEXES {
                        1
                    } else {
                        0
                    }
            }
            PlainBody::Link { .. } => 1,
        }
    }

    /// The bytes of the blocks that the file uses.
    pub fn used(&self) -> u64
        ensures { result ≡ BLOCK_BYTES * cost (body_of self.now) }
    {
        BLOCK_BYTES as u64 * self.cost()
    }
}
