//! A name that wasn't looked for yet.
ghost use Rattle.std.specs.Prelude.{◌≡◌, Some, None, IfOk};
ghost use Rattle.inode.specs.declared.snap.Snap.{Snap};
ghost use Rattle.dir.specs.SearchCursor.{IsSearchCursor};
ghost use Rattle.dir.specs.Search.Known.{IsOfDentry};
ghost use Rattle.dir.specs.Search.Places.{first_dentry, second_dentry};

use crate::SearchCursor;
use crate::search::places::{first_dentry, second_dentry};
use nfs_types::{Call, DirectoryName, Octets};
use std::alloc::{AllocError, Global};

// The name in the directory of its handle.
fn begun_at(alloc: Global, dentry: &DirectoryName) -> Result<SearchCursor, AllocError>
    ensures knows { IfOk result (λ cursor. (snap : Snap) → IsSearchCursor snap cursor) }
    ensures is { IfOk result (λ cursor. IsOfDentry (Some dentry.now) cursor) }
    ensures none { IfOk result (λ cursor. cursor.blocks ≡ 0) }
{
    let directory = match dentry.directory.parts() {
        Some((number, _)) => number,
        None => 0,
    };
    Ok(SearchCursor::begin(directory, Octets::copied(alloc, dentry.name.as_slice())?))
}

// No name: it is looked for under the number that no file has.
fn none_begun(alloc: Global) -> SearchCursor
    ensures knows { (snap : Snap) → IsSearchCursor snap result }
    ensures is { IsOfDentry None result }
{
    SearchCursor::begin(0, Octets::new(Vec::new(alloc)))
}

/// The first name of a call.
pub(crate) fn first_begun(alloc: Global, call: &Call) -> Result<SearchCursor, AllocError>
    ensures knows { IfOk result (λ cursor. (snap : Snap) → IsSearchCursor snap cursor) }
    ensures is { IfOk result (λ cursor. IsOfDentry (first_dentry call.now) cursor) }
    ensures none { IfOk result (λ cursor. cursor.blocks ≡ 0) }
{
    match first_dentry(call) {
        Some(dentry) => begun_at(alloc, dentry),
        None => Ok(none_begun(alloc)),
    }
}

/// The second name of a call.
pub(crate) fn second_begun(alloc: Global, call: &Call) -> Result<SearchCursor, AllocError>
    ensures knows { IfOk result (λ cursor. (snap : Snap) → IsSearchCursor snap cursor) }
    ensures is { IfOk result (λ cursor. IsOfDentry (second_dentry call.now) cursor) }
    ensures none { IfOk result (λ cursor. cursor.blocks ≡ 0) }
{
    match second_dentry(call) {
        Some(dentry) => begun_at(alloc, dentry),
        None => Ok(none_begun(alloc)),
    }
}
