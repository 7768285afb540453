//! The names of a call.
ghost use Rattle.std.specs.Prelude.{◌≡◌, Some, None, IfNone, IfSome};
ghost use Rattle.dir.specs.Search.Places.{first_dentry, second_dentry};

use nfs_types::{Call, DirectoryName};

/// The first name of a call, with its directory.
pub fn first_dentry(call: &Call) -> Option<&DirectoryName>
    ensures some { IfSome result (λ dentry. first_dentry call.now ≡ Some dentry.now) }
    ensures none { IfNone result (first_dentry call.now ≡ None) }
{
    call.facts().name
}

/// The second name of a call, which RENAME alone has.
pub fn second_dentry(call: &Call) -> Option<&DirectoryName>
    ensures some { IfSome result (λ dentry. second_dentry call.now ≡ Some dentry.now) }
    ensures none { IfNone result (second_dentry call.now ≡ None) }
{
    call.facts().second_name
}
