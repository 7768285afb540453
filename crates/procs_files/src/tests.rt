//! The tests that come first.
ghost use Rattle.std.specs.Prelude.{◌≡◌};
ghost use Rattle.nfs_spec.specs.Model.SetAttr.{first_of_tests};
ghost use Rattle.nfs_spec.specs.Procedures.FirstTests.{dentry_tests};
ghost use Rattle.procs_files.specs.Heads.{bare, first_of};

use crate::{InodeAttributes, is_no_name};
use base::NAME_BYTES;
use nfs_types::{FileKind, Status};

/// Why a name in a directory is refused, where this is whether the caller may do what is asked.
pub fn dentry_refusal(allowed: bool, directory: &InodeAttributes, name: &[u8]) -> Option<Status>
    ensures { result ≡ first_of_tests (dentry_tests allowed (bare directory.now) name.now) }
{
    if !matches!(directory.kind, FileKind::Directory) {
        Some(Status::NotDir)
    } else if is_no_name(name) {
        Some(Status::Acces)
    } else if name.len() > NAME_BYTES {
        Some(Status::NameTooLong)
    } else if !allowed {
        Some(Status::Acces)
    } else {
        None
    }
}

/// The status of the first test, or else that of the second.
pub fn first_of(first: Option<Status>, second: Option<Status>) -> Option<Status>
    ensures { result ≡ first_of first second }
{
    match first {
        Some(status) => Some(status),
        None => second,
    }
}
