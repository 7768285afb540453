//! The numbers of RPC version 2 (RFC 5531, sections 8 and 9) and of the programs (RFC 1813).

/// The type of a message that calls.
pub const CALL: u32 = 0;
/// The type of a message that replies.
pub const REPLY: u32 = 1;
/// The version of RPC.
pub const RPC_VERSION: u32 = 2;
/// The flavor of a credential that names nobody.
pub const AUTH_NONE: u32 = 0;
/// The flavor of a credential that names a user and groups.
pub const AUTH_SYS: u32 = 1;
/// The program NFS.
pub const NFS_PROGRAM: u32 = 100_003;
/// The program MOUNT.
pub const MOUNT_PROGRAM: u32 = 100_005;
/// The version of both programs.
pub const NFS_VERSION: u32 = 3;
/// The highest bit of a mark: the fragment is the last of its record (section 11).
pub const LAST_FRAGMENT: u32 = 0x8000_0000;
