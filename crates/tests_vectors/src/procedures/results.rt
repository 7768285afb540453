//! The result of the worked reply to each procedure (RFC 1813, sections 3.3 and 5.2). It begins with its status; NULL's
//! and UMNT's have none.

use crate::procedures::parts::{
    ATTRIBUTES, DATA, ENTRY, HANDLE, INFO, NEW_ENTRY, NONE, OK, SOME, SPACE, TARGET, VERIFIER, WAS,
};
use nfs_types::{MountProcedure, Procedure};

/// Those of NFS.
pub const RESULTS: [(Procedure, &[&[u32]]); 22] = [
    (Procedure::Null, &[]),
    (Procedure::GetAttr, &[&OK, &ATTRIBUTES]),
    // NOT_SYNC, and the file before it
    (Procedure::SetAttr, &[&[10_002], &WAS, &NONE]),
    // the file with its attributes, and nothing of the directory
    (
        Procedure::Lookup,
        &[&OK, &HANDLE, &SOME, &ATTRIBUTES, &NONE],
    ),
    // five of the six bits
    (Procedure::Access, &[&OK, &SOME, &ATTRIBUTES, &[31]]),
    (Procedure::ReadLink, &[&OK, &NONE, &TARGET]),
    // five bytes, and the file's end behind them
    (Procedure::Read, &[&OK, &NONE, &[5, 1], &DATA]),
    // five bytes, whose data are kept (DATA_SYNC)
    (
        Procedure::Write,
        &[&OK, &WAS, &SOME, &ATTRIBUTES, &[5, 1], &VERIFIER],
    ),
    // the file with its attributes, and the directory behind the change
    (
        Procedure::Create,
        &[
            &OK,
            &SOME,
            &HANDLE,
            &SOME,
            &ATTRIBUTES,
            &NONE,
            &SOME,
            &ATTRIBUTES,
        ],
    ),
    // EXIST, and nothing of the directory
    (Procedure::MkDir, &[&[17], &NONE, &NONE]),
    // nothing of the link, and the directory before and behind the change
    (
        Procedure::SymLink,
        &[&OK, &NONE, &NONE, &WAS, &SOME, &ATTRIBUTES],
    ),
    // NOTSUPP, and nothing of the directory
    (Procedure::MkNod, &[&[10_004], &NONE, &NONE]),
    // the directory before and behind the change
    (Procedure::Remove, &[&OK, &WAS, &SOME, &ATTRIBUTES]),
    // NOTEMPTY, and the directory before it
    (Procedure::RmDir, &[&[66], &WAS, &NONE]),
    // the first directory before the change, the second behind it
    (
        Procedure::Rename,
        &[&OK, &WAS, &NONE, &NONE, &SOME, &ATTRIBUTES],
    ),
    // MLINK, the file's attributes, and nothing of the directory
    (Procedure::Link, &[&[31], &SOME, &ATTRIBUTES, &NONE, &NONE]),
    // both entries, and the end
    (
        Procedure::ReadDir,
        &[&OK, &NONE, &VERIFIER, &ENTRY, &NEW_ENTRY, &[0, 1]],
    ),
    // the same, the first with attributes and a handle, and not the end
    (
        Procedure::ReadDirPlus,
        &[
            &OK,
            &SOME,
            &ATTRIBUTES,
            &VERIFIER,
            &ENTRY,
            &SOME,
            &ATTRIBUTES,
            &SOME,
            &HANDLE,
            &NEW_ENTRY,
            &[0, 0, 0, 0],
        ],
    ),
    (Procedure::FsStat, &[&OK, &NONE, &SPACE]),
    (Procedure::FsInfo, &[&OK, &NONE, &INFO]),
    // 32,000 links, names of 255 bytes that aren't cut off and whose case is kept
    (
        Procedure::PathConf,
        &[&OK, &NONE, &[32_000, 255, 1, 0, 0, 1]],
    ),
    (Procedure::Commit, &[&OK, &NONE, &NONE, &VERIFIER]),
];

/// Those of MOUNT: MNT's is the handle, and the flavors 1 and 6.
pub const MOUNT_RESULTS: [(MountProcedure, &[&[u32]]); 3] = [
    (MountProcedure::Null, &[]),
    (MountProcedure::Mount, &[&OK, &HANDLE, &[2, 1, 6]]),
    (MountProcedure::Unmount, &[]),
];
