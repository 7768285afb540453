//! Why the attributes of a file aren't set (RFC 1813, section 3.3.2).
ghost use Rattle.std.specs.Prelude.{◌≡◌, ◌||◌, ◌&&◌, not, nat_eq, nat_lt};
ghost use Rattle.nfs_spec.specs.Model.SetAttr.{fails_guard, given, is_client, is_given_away, is_invalid, is_no_access};
ghost use Rattle.nfs_spec.specs.Model.SetAttr.{is_no_time, is_not_permitted, is_server, needs_owner, refusal};
ghost use Rattle.nfs_spec.specs.Model.SetAttr.{same_moment};
ghost use Rattle.nfs_spec.specs.Model.Permissions.{is_own_group};
ghost use Rattle.procs_files.specs.Heads.{bare};

use base::{LARGEST_FILE, NANOSECONDS, WRITE_RIGHT};
use nfs_types::{Credential, Ctx, FileKind, Moment, NewAttributes, SetTime, Status};
use procs_files::{
    InodeAttributes, acts_as_owner, has_right, is_own_group, is_superuser, may_write_file,
};

fn is_client(time: &SetTime) -> bool
    ensures { result ≡ is_client time.now }
{
    matches!(time, SetTime::Client(_))
}

fn is_server(time: &SetTime) -> bool
    ensures { result ≡ is_server time.now }
{
    matches!(time, SetTime::Server)
}

fn is_no_time(time: &SetTime) -> bool
    ensures { result ≡ is_no_time time.now }
{
    match time {
        SetTime::Client(moment) => moment.nanoseconds >= NANOSECONDS,
        SetTime::Server | SetTime::Unchanged => false,
    }
}

fn same_moment(a: &Moment, b: &Moment) -> bool
    ensures { result ≡ same_moment a.now b.now }
{
    a.seconds == b.seconds && a.nanoseconds == b.nanoseconds
}

fn fails_guard(guard: &Option<Moment>, file: &InodeAttributes) -> bool
    ensures { result ≡ fails_guard guard.now (bare file.now) }
{
    match guard {
        Some(time) => !same_moment(time, &file.ctime),
        None => false,
    }
}

fn is_invalid(wanted: &NewAttributes, file: &InodeAttributes) -> bool
    ensures { result ≡ is_invalid wanted.now (bare file.now) }
{
    is_no_time(&wanted.atime)
        || is_no_time(&wanted.mtime)
        || wanted.size.is_some() && !matches!(file.kind, FileKind::Regular)
}

fn needs_owner(wanted: &NewAttributes) -> bool
    ensures { result ≡ needs_owner wanted.now }
{
    wanted.mode.is_some() || is_client(&wanted.atime) || is_client(&wanted.mtime)
}

fn gives_user_away(wanted: &NewAttributes, file: &InodeAttributes) -> bool
    ensures { result ≡ given wanted.now.uid (λ uid. not (nat_eq uid file.now.uid)) }
{
    match wanted.uid {
        Some(uid) => uid != file.uid,
        None => false,
    }
}

fn gives_group_away(caller: &Credential, wanted: &NewAttributes, file: &InodeAttributes) -> bool
    ensures { result ≡ given wanted.now.gid (λ gid. not (nat_eq gid file.now.gid
        || nat_eq caller.now.uid file.now.uid && is_own_group caller.now gid)) }
{
    match wanted.gid {
        Some(gid) => { !(gid == file.gid || caller.uid == file.uid && is_own_group(caller, gid)) }
        None => false,
    }
}

fn is_given_away(caller: &Credential, wanted: &NewAttributes, file: &InodeAttributes) -> bool
    ensures { result ≡ is_given_away caller.now wanted.now (bare file.now) }
{
    !is_superuser(caller)
        && (gives_user_away(wanted, file) || gives_group_away(caller, wanted, file))
}

fn is_not_permitted(caller: &Credential, wanted: &NewAttributes, file: &InodeAttributes) -> bool
    ensures { result ≡ is_not_permitted caller.now wanted.now (bare file.now) }
{
    needs_owner(wanted) && !acts_as_owner(caller, file) || is_given_away(caller, wanted, file)
}

fn is_no_access(caller: &Credential, wanted: &NewAttributes, file: &InodeAttributes) -> bool
    ensures { result ≡ is_no_access caller.now wanted.now (bare file.now) }
{
    (is_server(&wanted.atime) || is_server(&wanted.mtime))
        && !(acts_as_owner(caller, file) || has_right(WRITE_RIGHT, caller, file))
        || wanted.size.is_some() && !may_write_file(caller, file)
}

fn is_too_large(wanted: &NewAttributes) -> bool
    ensures { result ≡ given wanted.now.size (λ size. nat_lt LARGEST_FILE size) }
{
    match wanted.size {
        Some(size) => size > LARGEST_FILE,
        None => false,
    }
}

/// The status of the first test that refuses the call, if one does: it looks at the file's kind, and not at what
/// is in it.
pub fn set_refusal(
    ctx: &Ctx,
    wanted: &NewAttributes,
    guard: &Option<Moment>,
    file: &InodeAttributes,
) -> Option<Status>
    ensures { result ≡ refusal ctx.now wanted.now guard.now (bare file.now) }
{
    if fails_guard(guard, file) {
        Some(Status::NotSync)
    } else if is_invalid(wanted, file) {
        Some(Status::Inval)
    } else if is_not_permitted(&ctx.credential, wanted, file) {
        Some(Status::Perm)
    } else if is_no_access(&ctx.credential, wanted, file) {
        Some(Status::Acces)
    } else if is_too_large(wanted) {
        Some(Status::FBig)
    } else {
        None
    }
}
