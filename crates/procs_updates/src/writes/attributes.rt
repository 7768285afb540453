//! The attributes of a file as they are set (RFC 1813, section 3.3.2).
ghost use Rattle.std.specs.Prelude.{◌≡◌};
ghost use Rattle.nfs_spec.specs.Model.SetAttr.{mode_of, set_time, with_size};
ghost use Rattle.procs_updates.specs.Writes.Acting.{set_inode_attributes, touched_inode_attributes};

use base::MODE_BITS;
use nfs_types::{Moment, NewAttributes, SetTime};
use procs_files::InodeAttributes;

fn set_time(moment: &Moment, time: &SetTime, old: &Moment) -> Moment
    ensures { result ≡ set_time moment.now time.now old.now }
{
    match time {
        SetTime::Unchanged => *old,
        SetTime::Server => *moment,
        SetTime::Client(time) => *time,
    }
}

// A size that is given changes the file.
fn with_size(size: &Option<u64>, time: &SetTime) -> SetTime
    ensures { result ≡ with_size size.now time.now }
{
    match (size, time) {
        (Some(_), SetTime::Unchanged) => SetTime::Server,
        _ => *time,
    }
}

fn mode_of(mode: &Option<u32>, old: u32) -> u32
    ensures { result ≡ mode_of mode.now old }
{
    match mode {
        Some(mode) => *mode & MODE_BITS,
        None => old,
    }
}

/// The head with the attributes that are given, but for the size.
pub fn set_inode_attributes(
    moment: &Moment,
    wanted: &NewAttributes,
    file: &InodeAttributes,
) -> InodeAttributes
    ensures { result ≡ set_inode_attributes moment.now wanted.now file.now }
{
    let mtime = with_size(&wanted.size, &wanted.mtime);
    InodeAttributes {
        mode: mode_of(&wanted.mode, file.mode),
        uid: wanted.uid.unwrap_or(file.uid),
        gid: wanted.gid.unwrap_or(file.gid),
        atime: set_time(moment, &wanted.atime, &file.atime),
        mtime: set_time(moment, &mtime, &file.mtime),
        ctime: *moment,
        ..*file
    }
}

/// The head of a file whose bytes or names change at this moment.
pub fn touched_inode_attributes(moment: &Moment, file: &InodeAttributes) -> InodeAttributes
    ensures { result ≡ touched_inode_attributes moment.now file.now }
{
    InodeAttributes {
        mtime: *moment,
        ctime: *moment,
        ..*file
    }
}
