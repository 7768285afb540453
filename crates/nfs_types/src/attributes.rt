//! Attributes of files (RFC 1813, section 2.6: `fattr3`, `sattr3`, `wcc_data`).

use crate::Moment;

/// What a file is (`ftype3`).
#[derive(Clone, Copy, Debug, PartialEq, Eq)]
pub enum FileKind {
    Regular,
    Directory,
    BlockDevice,
    CharacterDevice,
    Link,
    Socket,
    Fifo,
}

/// The two numbers of a device file (`specdata3`).
#[derive(Clone, Copy, Debug, PartialEq, Eq)]
pub struct DeviceNumber {
    pub major: u32,
    pub minor: u32,
}

/// What a reply tells of a file (`fattr3`). `size` and `used` are in bytes.
#[derive(Clone, Copy, Debug, PartialEq, Eq)]
pub struct Attributes {
    pub kind: FileKind,
    pub mode: u32,
    pub nlink: u32,
    pub uid: u32,
    pub gid: u32,
    pub size: u64,
    pub used: u64,
    pub device: DeviceNumber,
    pub file_system: u64,
    pub number: u64,
    pub atime: Moment,
    pub mtime: Moment,
    pub ctime: Moment,
}

/// What is to become of a time (`set_atime`, `set_mtime`).
#[derive(Clone, Copy, Debug, PartialEq, Eq)]
pub enum SetTime {
    Unchanged,
    Server,
    Client(Moment),
}

/// The attributes that a call sets (`sattr3`).
#[derive(Clone, Copy, Debug, PartialEq, Eq)]
pub struct NewAttributes {
    pub mode: Option<u32>,
    pub uid: Option<u32>,
    pub gid: Option<u32>,
    pub size: Option<u64>,
    pub atime: SetTime,
    pub mtime: SetTime,
}

/// What a reply tells of a file before its change (`wcc_attr`).
#[derive(Clone, Copy, Debug, PartialEq, Eq)]
pub struct WeakCacheAttributes {
    pub size: u64,
    pub mtime: Moment,
    pub ctime: Moment,
}

/// A file before and after a change (`wcc_data`).
#[derive(Clone, Copy, Debug, PartialEq, Eq)]
pub struct WeakCacheData {
    pub before: Option<WeakCacheAttributes>,
    pub after: Option<Attributes>,
}
