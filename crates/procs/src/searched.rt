//! What a call asks for behind the search for its name, without another run: a REMOVE and an RMDIR for what the file
//! frees to which the name leads, and a CREATE for what a new name takes. These are positions, of which nothing is
//! claimed.
ghost use Rattle.std.specs.Prelude.{◌≡◌, IfErr, IfSome};
ghost use Rattle.inode.specs.Over.{MaySuspend};

use crate::ahead::{Ahead, entering, freed};
use crate::shrinking::{named, unnamed};
use base::LARGEST_FILE;
use dir::Names;
use inode::{Snap, Suspend};
use nfs_types::{Call, CreateHow, DirectoryName, NewAttributes, SetTime};
use procs_files::is_own_name;
use std::alloc::Global;

// Whether it is no time of the caller's own.
fn is_plain_time(time: &SetTime) -> bool {
    match time {
        SetTime::Unchanged | SetTime::Server => true,
        SetTime::Client(_) => false,
    }
}

// Whether a new file may get these attributes, whoever the caller is, as it is the caller's.
fn are_plain(wanted: &NewAttributes) -> bool {
    wanted.uid.is_none()
        && wanted.gid.is_none()
        && wanted.size.unwrap_or(0) <= LARGEST_FILE
        && is_plain_time(&wanted.atime)
        && is_plain_time(&wanted.mtime)
}

// Whether a new file is made in this way, whoever the caller is.
fn is_plain(how: &CreateHow) -> bool {
    match how {
        CreateHow::Unchecked(wanted) | CreateHow::Guarded(wanted) => are_plain(wanted),
        CreateHow::Exclusive(_) => true,
    }
}

// What a CREATE asks for whose name leads to no file.
fn making(
    alloc: Global,
    snap: &Snap,
    names: &Names,
    name: &DirectoryName,
    how: &CreateHow,
) -> Result<Ahead, Suspend>
    ensures { IfErr result (λ why. MaySuspend snap.now why) }
{
    if !is_plain(how) || is_own_name(name.name.as_slice()) {
        return Ok(Ahead::Nothing);
    }
    match named(snap, names, name)? {
        Some(_) => Ok(Ahead::Nothing),
        None => entering(alloc, snap, name, true, false),
    }
}

// What a call asks for whose name was looked for, as far as no more than the name and what it leads to decides that.
fn behind_search(alloc: Global, call: &Call, snap: &Snap, names: &Names) -> Result<Ahead, Suspend>
    ensures { IfErr result (λ why. MaySuspend snap.now why) }
{
    match call {
        Call::Create { name, how } => making(alloc, snap, names, name, how),
        Call::Remove { name } => freed(alloc, unnamed(snap, names, name, false)?),
        Call::RmDir { name } => freed(alloc, unnamed(snap, names, name, true)?),
        _ => Ok(Ahead::Nothing),
    }
}

// Whether it is a call that goes on behind the search for its name.
fn goes_on(call: &Call) -> bool {
    matches!(
        call,
        Call::Create { .. } | Call::Remove { .. } | Call::RmDir { .. }
    )
}

// The position behind the search begins. It stands apart, so that a plan that goes on elsewhere has no room for it.
#[inline(never)]
fn begin(
    alloc: Global,
    call: &Call,
    snap: &Snap,
    names: &Names,
    searches: &mut Option<bool>,
    ahead: &mut Ahead,
) -> Result<(), Suspend>
    ensures { IfErr result (λ why. MaySuspend snap.now why) }
{
    match behind_search(alloc, call, snap, names) {
        Ok(position) => {
            *searches = None;
            *ahead = position;
            Ok(())
        }
        Err(suspend) => Err(suspend),
    }
}

/// The next object or block that is asked for without a run. Where the last run stopped for what the search for the
/// call's names stopped for, and the search has ended, the position behind it begins.
pub(crate) fn go_on_behind(
    alloc: Global,
    call: &Call,
    snap: &Snap,
    names: &Names,
    search: &Result<(), Suspend>,
    searches: &mut Option<bool>,
    ahead: &mut Ahead,
) -> Option<Suspend>
    ensures { IfSome result (λ why. MaySuspend snap.now why) }
{
    if searches.is_some() && search.is_ok() && goes_on(call) {
        if let Err(suspend) = begin(alloc, call, snap, names, searches, ahead) {
            return Some(suspend);
        }
    }
    ahead.next(alloc, snap)
}
