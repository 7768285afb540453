//! Why a file doesn't go to another place.
ghost use Rattle.std.specs.Prelude.{◌≡◌, ◌&&◌, [], ◌∷◌, ℕ, IfErr, IfOk, Option, nat_eq};
ghost use Rattle.nfs_types.specs.declared.status.Status.TheVariants as status;
ghost use Rattle.nfs_spec.specs.Model.Names.{is_directory};
ghost use Rattle.nfs_spec.specs.Model.Node.{Body, Node};
ghost use Rattle.nfs_spec.specs.Model.SetAttr.{first_of_tests, given};
ghost use Rattle.nfs_spec.specs.Model.Tree.{Tree};
ghost use Rattle.nfs_spec.specs.Procedures.Rename.{is_other_sort, is_within};
ghost use Rattle.nfs_spec.specs.Procedures.RmDir.{is_found_filled};
ghost use Rattle.procs_files.specs.Heads.{IsFileIn, IsFound, bare, barely, node_of};
ghost use Rattle.nfs_spec.specs.Procedures.Rename.{has_no_link, move_tests};

use crate::ancestors::is_within;
use base::MOST_LINKS;
use nfs_types::{FileKind, Status};
use procs_files::{Files, InodeAttributes, WritableFiles};

/// Whether a name leads to the file already.
pub fn is_named(file: &InodeAttributes, other: &Option<InodeAttributes>) -> bool
    ensures { result ≡ given (barely other.now) (λ found. nat_eq found.0 file.now.number) }
{
    match other {
        Some(other) => other.number == file.number,
        None => false,
    }
}

fn is_directory(file: &InodeAttributes) -> bool
    ensures { result ≡ is_directory (bare file.now).body }
{
    matches!(file.kind, FileKind::Directory)
}

// What would be replaced is a directory and the file is none, or the other way round.
fn is_other_sort(file: &InodeAttributes, replaced: &Option<InodeAttributes>) -> bool
    ensures { result ≡ is_other_sort (bare file.now) (barely replaced.now) }
{
    match replaced {
        None => false,
        Some(other) => is_directory(file) != is_directory(other),
    }
}

fn has_no_link(
    source: u32,
    file: &InodeAttributes,
    target: &InodeAttributes,
    replaced: &Option<InodeAttributes>,
) -> bool
    ensures { result ≡ has_no_link (bare file.now) source (target.now.number, bare target.now)
        (barely replaced.now) }
{
    is_directory(file)
        && replaced.is_none()
        && source != target.number
        && target.nlink >= MOST_LINKS
}

// Some name lies in what would be replaced.
fn is_filled<F: WritableFiles>(
    files: &F,
    replaced: &Option<InodeAttributes>,
) -> Result<bool, F::Suspend>
    ensures err { IfErr result (λ suspend. F.may_suspend (F.source files.now) suspend) }
    ensures resumable { IfErr result (λ suspend. (world : F.World) (tree : Tree) → F.stands files.now world tree
        → F.is_resumable suspend) }
    ensures ok { IfOk result (λ filled. (world : F.World) (tree : Tree) (found : Option (ℕ × Node))
        → F.stands files.now world tree → IsFound tree found replaced.now → filled ≡ is_found_filled found) }
{
    match replaced {
        Some(file) => Ok(!files.is_empty(file)?),
        None => Ok(false),
    }
}

// A directory would become its own ancestor.
fn goes_below<F: Files>(files: &F, file: &InodeAttributes, target: u32) -> Result<bool, F::Suspend>
    ensures err { IfErr result (λ suspend. F.may_suspend (F.source files.now) suspend) }
    ensures resumable { IfErr result (λ suspend. (world : F.World) (tree : Tree) → F.stands files.now world tree
        → F.is_resumable suspend) }
    ensures ok { IfOk result (λ below. (world : F.World) (tree : Tree) (body : Body)
        → F.stands files.now world tree → IsFileIn tree file.now body
        → below ≡ (is_directory body && is_within tree file.now.number target)) }
{
    if is_directory(file) {
        is_within(files, file.number, target)
    } else {
        Ok(false)
    }
}

// The first of these that says why a file doesn't go there.
fn first_refusal(below: bool, other: bool, filled: bool, full: bool) -> Option<Status>
    ensures { result ≡ first_of_tests (
        (below, status.Inval) ∷ (other, status.Exist) ∷ (filled, status.Exist) ∷ (full, status.MLink) ∷ []) }
{
    if below {
        Some(Status::Inval)
    } else if other || filled {
        Some(Status::Exist)
    } else if full {
        Some(Status::MLink)
    } else {
        None
    }
}

/// Why a file doesn't go from one directory to another, or within one.
pub fn move_refusal<F: WritableFiles>(
    files: &F,
    source: u32,
    file: &InodeAttributes,
    target: &InodeAttributes,
    replaced: &Option<InodeAttributes>,
) -> Result<Option<Status>, F::Suspend>
    ensures err { IfErr result (λ suspend. F.may_suspend (F.source files.now) suspend) }
    ensures resumable { IfErr result (λ suspend. (world : F.World) (tree : Tree) → F.stands files.now world tree
        → F.is_resumable suspend) }
    ensures ok { IfOk result (λ refusal. (world : F.World) (tree : Tree) (body goal : Body)
        (found : Option (ℕ × Node)) → F.stands files.now world tree → IsFileIn tree file.now body
        → IsFileIn tree target.now goal → IsFound tree found replaced.now
        → refusal ≡ first_of_tests (move_tests tree (file.now.number, node_of file.now body) source
        (target.now.number, node_of target.now goal) found)) }
{
    let below = goes_below(files, file, target.number)?;
    let other = is_other_sort(file, replaced);
    let filled = is_filled(files, replaced)?;
    let full = has_no_link(source, file, target, replaced);
    Ok(first_refusal(below, other, filled, full))
}
