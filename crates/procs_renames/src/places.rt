//! The tests of two directories and of a name in each.
ghost use Rattle.std.specs.Prelude.{◌≡◌, IfErr, IfOk};
ghost use Rattle.nfs_spec.specs.Model.Node.{Body};
ghost use Rattle.nfs_spec.specs.Model.SetAttr.{first_of_tests};
ghost use Rattle.nfs_spec.specs.Model.Tree.{Tree};
ghost use Rattle.procs_files.specs.Heads.{IsFileIn, bare, barely, first_of};
ghost use Rattle.procs_renames.specs.Moves.{IsSourceFile, dentry_of};
ghost use Rattle.nfs_spec.specs.Procedures.Rename.{path_tests, right_tests};

use base::NAME_BYTES;
use nfs_types::{Credential, FileKind, Status};
use procs_files::{
    Files, InodeAttributes, first_of, is_no_name, is_own_name, may_change, named_file,
};

// The tests of both directories and of both names.
fn path_refusal(
    source: &InodeAttributes,
    name: &[u8],
    target: &InodeAttributes,
    new_name: &[u8],
) -> Option<Status>
    ensures { result ≡ first_of_tests (path_tests (bare source.now) name.now (bare target.now)
        new_name.now) }
{
    if !matches!(source.kind, FileKind::Directory) {
        Some(Status::NotDir)
    } else if !matches!(target.kind, FileKind::Directory) {
        Some(Status::NotDir)
    } else if is_no_name(name) {
        Some(Status::Acces)
    } else if name.len() > NAME_BYTES {
        Some(Status::NameTooLong)
    } else if is_no_name(new_name) {
        Some(Status::Acces)
    } else if new_name.len() > NAME_BYTES {
        Some(Status::NameTooLong)
    } else {
        None
    }
}

// The tests of what the caller may do in both directories, and of what the first name leads to.
fn right_refusal(
    caller: &Credential,
    source: &InodeAttributes,
    name: &[u8],
    target: &InodeAttributes,
    new_name: &[u8],
    file: &Option<InodeAttributes>,
) -> Option<Status>
    ensures { result ≡ first_of_tests (right_tests caller.now (bare source.now) name.now (bare target.now)
        new_name.now (barely file.now)) }
{
    if !may_change(caller, source) {
        Some(Status::Acces)
    } else if !may_change(caller, target) {
        Some(Status::Acces)
    } else if is_own_name(name) || is_own_name(new_name) {
        Some(Status::Inval)
    } else if file.is_none() {
        Some(Status::NoEnt)
    } else {
        None
    }
}

/// Why what the names lead to isn't looked at; the file is what the first of them leads to.
pub fn places_refusal(
    caller: &Credential,
    source: &InodeAttributes,
    name: &[u8],
    target: &InodeAttributes,
    new_name: &[u8],
    file: &Option<InodeAttributes>,
) -> Option<Status>
    ensures { result ≡ first_of
        (first_of_tests (path_tests (bare source.now) name.now (bare target.now) new_name.now))
        (first_of_tests (right_tests caller.now (bare source.now) name.now (bare target.now) new_name.now
        (barely file.now))) }
{
    first_of(
        path_refusal(source, name, target, new_name),
        right_refusal(caller, source, name, target, new_name, file),
    )
}

/// The file that the first name leads to, where no test of the two places refuses the call.
pub fn source_file<F: Files>(
    files: &F,
    caller: &Credential,
    source: &InodeAttributes,
    name: &[u8],
    target: &InodeAttributes,
    new_name: &[u8],
) -> Result<Result<InodeAttributes, Status>, F::Suspend>
    ensures err { IfErr result (λ suspend. F.may_suspend (F.source files.now) suspend) }
    ensures resumable { IfErr result (λ suspend. (world : F.World) (tree : Tree) → F.stands files.now world tree
        → F.is_resumable suspend) }
    ensures ok { IfOk result (λ source_found. (world : F.World) (tree : Tree) (body other : Body)
        → F.stands files.now world tree → IsFileIn tree source.now body → IsFileIn tree target.now other
        → IsSourceFile tree caller.now (dentry_of source.now body name.now)
        (dentry_of target.now other new_name.now) source_found) }
{
    let found = named_file(files, source, name)?;
    match places_refusal(caller, source, name, target, new_name, &found) {
        Some(status) => Ok(Err(status)),
        None => match found {
            Some(file) => Ok(Ok(file)),
            None => Ok(Err(Status::NoEnt)),
        },
    }
}
