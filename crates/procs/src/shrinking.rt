//! Which files free blocks by a call: those that it cuts, and those whose last name it takes.
ghost use Rattle.std.specs.Prelude.{◌≡◌, IfErr};
ghost use Rattle.inode.specs.Over.{MaySuspend};

use crate::freeing::Freeing;
use dir::Names;
use inode::{Snap, Suspend, held};
use nfs_types::{CreateHow, DirectoryName, Handle};
use procs_files::is_own_name;

/// What the file of a handle asks for that gets a size, if one is given and is smaller.
pub(crate) fn cut_at(
    snap: &Snap,
    file: &Handle,
    size: Option<u64>,
) -> Result<Option<Freeing>, Suspend> {
    match (file.parts(), size) {
        (Some((number, _)), Some(size)) => Freeing::cut(snap, number, size),
        _ => Ok(None),
    }
}

/// What the file of a number asks for that is there when it is to be made.
pub(crate) fn cut_for(
    snap: &Snap,
    number: u32,
    how: &CreateHow,
) -> Result<Option<Freeing>, Suspend> {
    match how {
        CreateHow::Unchecked(wanted) => match wanted.size {
            Some(size) => Freeing::cut(snap, number, size),
            None => Ok(None),
        },
        CreateHow::Guarded(_) | CreateHow::Exclusive(_) => Ok(None),
    }
}

/// The number of the file to which a name leads, by what is known of the names of the call.
pub(crate) fn named(
    snap: &Snap,
    names: &Names,
    name: &DirectoryName,
) -> Result<Option<u32>, Suspend>
    ensures { IfErr result (λ why. MaySuspend snap.now why) }
{
    let Some((number, _)) = name.directory.parts() else {
        return Ok(None);
    };
    let Some(directory) = held(snap, number)? else {
        return Ok(None);
    };
    match names.dirent(snap, number, &directory, name.name.as_slice())? {
        Some(dirent) => Ok(Some(dirent.number)),
        None => Ok(None),
    }
}

/// What the file asks for that loses a name, where it is a directory or where it is none.
pub(crate) fn unnamed(
    snap: &Snap,
    names: &Names,
    name: &DirectoryName,
    is_directory: bool,
) -> Result<Option<Freeing>, Suspend>
    ensures { IfErr result (λ why. MaySuspend snap.now why) }
{
    let Some(number) = named(snap, names, name)? else {
        return Ok(None);
    };
    let Some(freeing) = Freeing::gone(snap, number)? else {
        return Ok(None);
    };
    if freeing.is_of_directory() == is_directory && !is_own_name(name.name.as_slice()) {
        Ok(Some(freeing))
    } else {
        Ok(None)
    }
}
