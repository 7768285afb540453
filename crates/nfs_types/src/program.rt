//! The two programs, and their procedures (RFC 1813, sections 3 and 5). What is called and what is replied is
//! a sum over both, so that whatever handles it has a case for each.

use crate::{Call, MountCall, MountReply, Reply};

/// A remote program.
#[derive(Clone, Copy, Debug, PartialEq, Eq)]
pub enum Program {
    Nfs,
    Mount,
}

/// A procedure of program 100003, version 3 (RFC 1813, section 3.3).
#[derive(Clone, Copy, Debug, PartialEq, Eq)]
pub enum Procedure {
    Null,
    GetAttr,
    SetAttr,
    Lookup,
    Access,
    ReadLink,
    Read,
    Write,
    Create,
    MkDir,
    SymLink,
    MkNod,
    Remove,
    RmDir,
    Rename,
    Link,
    ReadDir,
    ReadDirPlus,
    FsStat,
    FsInfo,
    PathConf,
    Commit,
}

/// A procedure of program 100005, version 3, that this server has (RFC 1813, section 5.2).
#[derive(Clone, Copy, Debug, PartialEq, Eq)]
pub enum MountProcedure {
    Null,
    Mount,
    Unmount,
}

/// A procedure of either program.
#[derive(Clone, Copy, Debug, PartialEq, Eq)]
pub enum ProgramProcedure {
    Nfs(Procedure),
    Mount(MountProcedure),
}

/// A call of either program.
#[derive(Drop)]
pub enum ProgramCall {
    Nfs(Call),
    Mount(MountCall),
}

/// A reply of either program.
#[derive(Drop)]
pub enum ProgramReply {
    Nfs(Reply),
    Mount(MountReply),
}
