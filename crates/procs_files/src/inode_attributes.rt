//! What is known of a file without what is in it.
ghost use Rattle.std.specs.Prelude.{◌≡◌};
ghost use Rattle.nfs_spec.specs.Model.Attributes.{attributes_of, before_change};
ghost use Rattle.nfs_spec.specs.Model.Node.{Body};
ghost use Rattle.procs_files.specs.Heads.{IsBodyOf, node_of};

use base::FILE_SYSTEM;
use nfs_types::{Attributes, DeviceNumber, FileKind, Moment, Stamp, Verifier, WeakCacheAttributes};

/// A file's number and attributes, with its size, the bytes of the blocks that it uses and, of a directory, its parent.
#[derive(Clone, Copy, Debug, PartialEq, Eq)]
pub struct InodeAttributes {
    pub number: u32,
    pub kind: FileKind,
    pub mode: u32,
    pub uid: u32,
    pub gid: u32,
    pub nlink: u32,
    pub size: u64,
    pub used: u64,
    pub parent: u32,
    pub atime: Moment,
    pub mtime: Moment,
    pub ctime: Moment,
    pub stamp: Stamp,
    pub verifier: Option<Verifier>,
}

impl InodeAttributes {
    /// What a reply tells of the file.
    pub fn attributes(&self) -> Attributes
        ensures { (body : Body) → IsBodyOf self.now body
            → result ≡ attributes_of self.now.number (node_of self.now body) }
    {
        Attributes {
            kind: self.kind,
            mode: self.mode,
            nlink: self.nlink,
            uid: self.uid,
            gid: self.gid,
            size: self.size,
            used: self.used,
            device: DeviceNumber { major: 0, minor: 0 },
            file_system: FILE_SYSTEM,
            number: self.number as u64,
            atime: self.atime,
            mtime: self.mtime,
            ctime: self.ctime,
        }
    }

    /// What a reply tells of the file as it was before a change.
    pub fn before_change(&self) -> WeakCacheAttributes
        ensures { (body : Body) → IsBodyOf self.now body
            → result ≡ before_change (node_of self.now body) }
    {
        WeakCacheAttributes {
            size: self.size,
            mtime: self.mtime,
            ctime: self.ctime,
        }
    }
}
