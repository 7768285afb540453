//! The calls of NFS version 3 with their arguments (RFC 1813, section 3.3).

use crate::{DeviceNumber, Handle, Moment, NewAttributes, Octets, SharedOctets, Verifier};

/// A name in a directory (`diropargs3`).
#[derive(Drop)]
pub struct DirectoryName {
    pub directory: Handle,
    pub name: Octets,
}

/// How a WRITE is to be kept (`stable_how`).
#[derive(Clone, Copy, Debug, PartialEq, Eq)]
pub enum Stability {
    Unstable,
    DataSync,
    FileSync,
}

/// How a file is to be made (`createhow3`). EXCLUSIVE bears a create verifier.
#[derive(Clone, Copy, Debug, PartialEq, Eq)]
pub enum CreateHow {
    Unchecked(NewAttributes),
    Guarded(NewAttributes),
    Exclusive(Verifier),
}

/// What MKNOD is to make (`mknoddata3`). The other three kinds carry nothing, and no file is made of them.
#[derive(Clone, Copy, Debug, PartialEq, Eq)]
pub enum SpecialFile {
    CharacterDevice(NewAttributes, DeviceNumber),
    BlockDevice(NewAttributes, DeviceNumber),
    Socket(NewAttributes),
    Fifo(NewAttributes),
    Regular,
    Directory,
    Link,
}

/// A call of program 100003, version 3. Offsets and counts are in bytes.
#[derive(Drop)]
pub enum Call {
    Null,
    GetAttr {
        object: Handle,
    },
    SetAttr {
        object: Handle,
        attributes: NewAttributes,
        guard: Option<Moment>,
    },
    Lookup {
        name: DirectoryName,
    },
    Access {
        object: Handle,
        bits: u32,
    },
    ReadLink {
        link: Handle,
    },
    Read {
        file: Handle,
        offset: u64,
        count: u32,
    },
    Write {
        file: Handle,
        offset: u64,
        count: u32,
        stability: Stability,
        bytes: SharedOctets,
    },
    Create {
        name: DirectoryName,
        how: CreateHow,
    },
    MkDir {
        name: DirectoryName,
        attributes: NewAttributes,
    },
    SymLink {
        name: DirectoryName,
        attributes: NewAttributes,
        target: Octets,
    },
    MkNod {
        name: DirectoryName,
        special: SpecialFile,
    },
    Remove {
        name: DirectoryName,
    },
    RmDir {
        name: DirectoryName,
    },
    Rename {
        source: DirectoryName,
        target: DirectoryName,
    },
    Link {
        file: Handle,
        name: DirectoryName,
    },
    ReadDir {
        directory: Handle,
        cookie: u64,
        verifier: Verifier,
        count: u32,
    },
    ReadDirPlus {
        directory: Handle,
        cookie: u64,
        verifier: Verifier,
        directory_count: u32,
        greatest_count: u32,
    },
    FsStat {
        object: Handle,
    },
    FsInfo {
        object: Handle,
    },
    PathConf {
        object: Handle,
    },
    Commit {
        file: Handle,
        offset: u64,
        count: u32,
    },
}
