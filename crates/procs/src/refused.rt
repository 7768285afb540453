//! Replies that tell nothing but why a call was refused.
ghost use Rattle.std.specs.Prelude.{◌≡◌};
ghost use Rattle.nfs_spec.specs.Model.Attributes.{untold};
ghost use Rattle.nfs_spec.specs.Model.Refused.{refused};

use nfs_types::{Call, Reply, Status, WeakCacheData};

/// Nothing is told of a file.
pub(crate) const UNTOLD: WeakCacheData = WeakCacheData {
    before: None,
    after: None,
};

/// The reply of the call's own procedure with this status and without any optional part (RFC 1813, section
/// 3.3).
pub fn refused_reply(call: &Call, status: Status) -> Reply
    ensures { result ≡ refused status call.now }
{
    match call {
        Call::Null => Reply::Null,
        Call::GetAttr { .. } => Reply::GetAttr {
            outcome: Err(status),
        },
        Call::SetAttr { .. } => Reply::SetAttr {
            outcome: Err(status),
            object: UNTOLD,
        },
        Call::Lookup { .. } => Reply::Lookup {
            outcome: Err(status),
            directory: None,
        },
        Call::Access { .. } => Reply::Access {
            outcome: Err(status),
            object: None,
        },
        Call::ReadLink { .. } => Reply::ReadLink {
            outcome: Err(status),
            link: None,
        },
        Call::Read { .. } => Reply::Read {
            outcome: Err(status),
            file: None,
        },
        Call::Write { .. } => Reply::Write {
            outcome: Err(status),
            file: UNTOLD,
        },
        Call::Create { .. } => Reply::Create {
            outcome: Err(status),
            directory: UNTOLD,
        },
        Call::MkDir { .. } => Reply::MkDir {
            outcome: Err(status),
            directory: UNTOLD,
        },
        Call::SymLink { .. } => Reply::SymLink {
            outcome: Err(status),
            directory: UNTOLD,
        },
        Call::MkNod { .. } => Reply::MkNod {
            outcome: Err(status),
            directory: UNTOLD,
        },
        Call::Remove { .. } => Reply::Remove {
            outcome: Err(status),
            directory: UNTOLD,
        },
        Call::RmDir { .. } => Reply::RmDir {
            outcome: Err(status),
            directory: UNTOLD,
        },
        Call::Rename { .. } => Reply::Rename {
            outcome: Err(status),
            source: UNTOLD,
            target: UNTOLD,
        },
        Call::Link { .. } => Reply::Link {
            outcome: Err(status),
            file: None,
            directory: UNTOLD,
        },
        Call::ReadDir { .. } => Reply::ReadDir {
            outcome: Err(status),
            directory: None,
        },
        Call::ReadDirPlus { .. } => Reply::ReadDirPlus {
            outcome: Err(status),
            directory: None,
        },
        Call::FsStat { .. } => Reply::FsStat {
            outcome: Err(status),
            object: None,
        },
        Call::FsInfo { .. } => Reply::FsInfo {
            outcome: Err(status),
            object: None,
        },
        Call::PathConf { .. } => Reply::PathConf {
            outcome: Err(status),
            object: None,
        },
        Call::Commit { .. } => Reply::Commit {
            outcome: Err(status),
            file: UNTOLD,
        },
    }
}
