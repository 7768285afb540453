//! The calls and replies of MOUNT version 3 (RFC 1813, section 5) that this server has.

use crate::{Handle, NumberList, Octets, Status};

/// The most bytes of a path that is mounted (`MNTPATHLEN`; RFC 1813, section 5.1.4).
pub const PATH_BYTES: usize = 1024;

/// A call of program 100005, version 3.
#[derive(Drop)]
pub enum MountCall {
    Null,
    Mount { path: Octets },
    Unmount { path: Octets },
}

/// What MNT gives: the handle of the root, and the flavors of credentials that are taken.
#[derive(Drop)]
pub struct Mounted {
    pub root: Handle,
    pub flavors: NumberList,
}

/// A reply of program 100005, version 3. The statuses of `mountstat3` are some of `nfsstat3`, under the same
/// numbers (RFC 1813, section 5.1.5).
#[derive(Drop)]
pub enum MountReply {
    Null,
    Mount { outcome: Result<Mounted, Status> },
    Unmount,
}
