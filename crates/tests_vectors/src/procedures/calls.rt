//! The worked call of each procedure, and its arguments (RFC 1813, sections 3.3 and 5.2).

use crate::procedures::asked::Asked;
use crate::procedures::parts::{
    DATA, HANDLE, NAME, NEW_NAME, OTHER_HANDLE, SET as SET_WORDS, SOME, TARGET,
    UNSET as UNSET_WORDS, VERIFIER as VERIFIER_WORDS,
};
use crate::procedures::values::{DEVICE, FILE, GUARD, OTHER, SET, UNSET, VERIFIER};
use nfs_types::{CreateHow, MountCall, MountProcedure, Octets, Procedure, SpecialFile, Stability};
use std::alloc::{AllocError, Global};

/// Calls on file 9, or on a name in it. READ of 512 bytes from 2^32 and 2 on, CREATE guarded, MKNOD of a character device.
pub const CALLS: [(Procedure, Asked<'static>, &[&[u32]]); 22] = [
    (Procedure::Null, Asked::Null, &[]),
    (Procedure::GetAttr, Asked::GetAttr(FILE), &[&HANDLE]),
    (
        Procedure::SetAttr,
        Asked::SetAttr(FILE, SET, Some(GUARD)),
        &[&HANDLE, &SET_WORDS, &SOME, &[1000, 7]],
    ),
    (
        Procedure::Lookup,
        Asked::Lookup(FILE, b"file"),
        &[&HANDLE, &NAME],
    ),
    (
        Procedure::Access,
        Asked::Access(FILE, 63),
        &[&HANDLE, &[63]],
    ),
    (Procedure::ReadLink, Asked::ReadLink(FILE), &[&HANDLE]),
    (
        Procedure::Read,
        Asked::Read(FILE, 4_294_967_298, 512),
        &[&HANDLE, &[1, 2, 512]],
    ),
    (
        Procedure::Write,
        Asked::Write(FILE, 4096, 5, Stability::FileSync, b"hello"),
        &[&HANDLE, &[0, 4096, 5, 2], &DATA],
    ),
    (
        Procedure::Create,
        Asked::Create(FILE, b"file", CreateHow::Guarded(SET)),
        &[&HANDLE, &NAME, &[1], &SET_WORDS],
    ),
    (
        Procedure::MkDir,
        Asked::MkDir(FILE, b"file", SET),
        &[&HANDLE, &NAME, &SET_WORDS],
    ),
    (
        Procedure::SymLink,
        Asked::SymLink(FILE, b"file", UNSET, b"a/b"),
        &[&HANDLE, &NAME, &UNSET_WORDS, &TARGET],
    ),
    (
        Procedure::MkNod,
        Asked::MkNod(FILE, b"file", SpecialFile::CharacterDevice(SET, DEVICE)),
        &[&HANDLE, &NAME, &[4], &SET_WORDS, &[11, 12]],
    ),
    (
        Procedure::Remove,
        Asked::Remove(FILE, b"file"),
        &[&HANDLE, &NAME],
    ),
    (
        Procedure::RmDir,
        Asked::RmDir(FILE, b"file"),
        &[&HANDLE, &NAME],
    ),
    (
        Procedure::Rename,
        Asked::Rename(FILE, b"file", OTHER, b"new"),
        &[&HANDLE, &NAME, &OTHER_HANDLE, &NEW_NAME],
    ),
    (
        Procedure::Link,
        Asked::Link(FILE, OTHER, b"new"),
        &[&HANDLE, &OTHER_HANDLE, &NEW_NAME],
    ),
    (
        Procedure::ReadDir,
        Asked::ReadDir(FILE, 3, VERIFIER, 1024),
        &[&HANDLE, &[0, 3], &VERIFIER_WORDS, &[1024]],
    ),
    (
        Procedure::ReadDirPlus,
        Asked::ReadDirPlus(FILE, 3, VERIFIER, 512, 8192),
        &[&HANDLE, &[0, 3], &VERIFIER_WORDS, &[512, 8192]],
    ),
    (Procedure::FsStat, Asked::FsStat(FILE), &[&HANDLE]),
    (Procedure::FsInfo, Asked::FsInfo(FILE), &[&HANDLE]),
    (Procedure::PathConf, Asked::PathConf(FILE), &[&HANDLE]),
    (
        Procedure::Commit,
        Asked::Commit(FILE, 8192, 4096),
        &[&HANDLE, &[0, 8192, 4096]],
    ),
];

/// The arguments of MNT of `/export`, and of UMNT of `/`.
pub const MOUNT_CALLS: [(MountProcedure, &[&[u32]]); 3] = [
    (MountProcedure::Null, &[]),
    (MountProcedure::Mount, &[&[7, 0x2f65_7870, 0x6f72_7400]]),
    (MountProcedure::Unmount, &[&[1, 0x2f00_0000]]),
];

/// These calls.
pub fn mount_call(alloc: Global, procedure: MountProcedure) -> Result<MountCall, AllocError> {
    match procedure {
        MountProcedure::Null => Ok(MountCall::Null),
        MountProcedure::Mount => {
            let path = Octets::copied(alloc, b"/export")?;
            Ok(MountCall::Mount { path })
        }
        MountProcedure::Unmount => {
            let path = Octets::copied(alloc, b"/")?;
            Ok(MountCall::Unmount { path })
        }
    }
}
