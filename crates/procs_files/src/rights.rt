//! What a caller may do with a file (RFC 1813, sections 2.6 and 4.4).
ghost use Rattle.std.specs.Prelude.{◌≡◌, ◌≤◌};
ghost use Rattle.base.specs.declared.TheConstants.{OWNER_CLASS, READ_RIGHT};
ghost use Rattle.nfs_spec.specs.Model.Permissions.{acts_as_owner, class_of, has_right, is_own_group, is_superuser};
ghost use Rattle.nfs_spec.specs.Model.Permissions.{may_write_file};
ghost use Rattle.nfs_spec.specs.Procedures.FirstTests.{may_change, may_list, may_search};
ghost use Rattle.procs_files.specs.Heads.{bare};

use crate::InodeAttributes;
use base::{EXECUTE_RIGHT, GROUP_CLASS, OWNER_CLASS, READ_RIGHT, WRITE_RIGHT};
use nfs_types::Credential;

/// Whether the caller has the user number 0, whom no permission stops.
pub fn is_superuser(caller: &Credential) -> bool
    ensures { result ≡ is_superuser caller.now }
{
    caller.uid == 0
}

/// Whether the caller is in the group, by its own number or by one of its further groups.
pub fn is_own_group(caller: &Credential, gid: u32) -> bool
    ensures { result ≡ is_own_group caller.now gid }
{
    caller.gid == gid || caller.gids.as_slice().contains(&gid)
}

/// The class whose bits count, as the number by which the bits of others are multiplied.
pub fn class_of(caller: &Credential, inode_attributes: &InodeAttributes) -> u32
    ensures class { result ≡ class_of caller.now (bare inode_attributes.now) }
    ensures small { result ≤ OWNER_CLASS }
{
    if caller.uid == inode_attributes.uid {
        OWNER_CLASS
    } else if is_own_group(caller, inode_attributes.gid) {
        GROUP_CLASS
    } else {
        1
    }
}

/// Whether the caller's class has the right, or the caller is uid 0.
pub fn has_right(right: u32, caller: &Credential, inode_attributes: &InodeAttributes) -> bool
    requires { right ≤ READ_RIGHT }
    ensures { result ≡ has_right right caller.now (bare inode_attributes.now) }
{
    is_superuser(caller)
        || inode_attributes.mode & (right * class_of(caller, inode_attributes)) != 0
}

/// Whether the caller may list a directory.
pub fn may_list(caller: &Credential, directory: &InodeAttributes) -> bool
    ensures { result ≡ may_list caller.now (bare directory.now) }
{
    has_right(READ_RIGHT, caller, directory)
}

/// Whether the caller may find names in a directory.
pub fn may_search(caller: &Credential, directory: &InodeAttributes) -> bool
    ensures { result ≡ may_search caller.now (bare directory.now) }
{
    has_right(EXECUTE_RIGHT, caller, directory)
}

/// Whether the caller may make, change or remove names in a directory.
pub fn may_change(caller: &Credential, directory: &InodeAttributes) -> bool
    ensures { result ≡ may_change caller.now (bare directory.now) }
{
    has_right(WRITE_RIGHT, caller, directory) && may_search(caller, directory)
}

/// Whether the caller is uid 0 or owns the file.
pub fn acts_as_owner(caller: &Credential, file: &InodeAttributes) -> bool
    ensures { result ≡ acts_as_owner caller.now (bare file.now) }
{
    is_superuser(caller) || caller.uid == file.uid
}

/// Whether the caller may write a regular file: its owner always may.
pub fn may_write_file(caller: &Credential, file: &InodeAttributes) -> bool
    ensures { result ≡ may_write_file caller.now (bare file.now) }
{
    has_right(WRITE_RIGHT, caller, file) || caller.uid == file.uid
}
