//! CREATE under a name that leads to a file (RFC 1813, section 3.3.8).
ghost use Rattle.std.specs.Prelude.{◌≡◌, ◌+◌, ◌≤◌, ◌<◌, ◌^◌, IfErr, IfOk, IfSome};
ghost use Rattle.std.specs.Cmp.Lexicographic.{slice_cmp};
ghost use Rattle.std.specs.Ordering.{eq_by_cmp, nat_cmp};
ghost use Rattle.nfs_types.specs.Fits.{CreateHowFits};
ghost use Rattle.nfs_spec.specs.Model.Node.{Body};
ghost use Rattle.nfs_spec.specs.Model.SetAttr.{is_regular};
ghost use Rattle.nfs_spec.specs.Model.Sound.{Sound, SoundCtx};
ghost use Rattle.nfs_spec.specs.Model.Tree.{Tree};
ghost use Rattle.nfs_spec.specs.Procedures.Create.{create_over, is_made_with, only_size, resize};
ghost use Rattle.nfs_spec.specs.Procedures.Fresh.{nothing_given};
ghost use Rattle.procs_files.specs.Heads.{IsDone, IsFileIn, bare, node_of, shell};

use crate::creates::new_names::created;
use crate::writes::{set_file, set_refusal};
use nfs_types::{CreateHow, Created, Ctx, FileKind, NewAttributes, SetTime, Status, Verifier};
use procs_files::{InodeAttributes, WritableFiles};
use std::alloc::Global;

/// No attribute is given.
pub fn nothing_given() -> NewAttributes
    ensures { result ≡ nothing_given }
{
    NewAttributes {
        mode: None,
        uid: None,
        gid: None,
        size: None,
        atime: SetTime::Unchanged,
        mtime: SetTime::Unchanged,
    }
}

fn only_size(size: u64) -> NewAttributes
    ensures { result ≡ only_size size }
{
    NewAttributes {
        size: Some(size),
        ..nothing_given()
    }
}

fn is_regular(file: &InodeAttributes) -> bool
    ensures { result ≡ is_regular (shell file.now) }
{
    matches!(file.kind, FileKind::Regular)
}

fn is_same(one: &[u8], other: &[u8]) -> bool
    ensures { result ≡ eq_by_cmp (slice_cmp nat_cmp) one.now other.now }
{
    one.cmp(other).is_eq()
}

// A regular file that an exclusive CREATE with this verifier made.
fn is_made_with(verifier: &Verifier, file: &InodeAttributes) -> bool
    ensures { result ≡ is_made_with verifier.now (bare file.now) }
{
    is_regular(file)
        && match &file.verifier {
            Some(held) => is_same(&verifier.bytes, &held.bytes),
            None => false,
        }
}

// A file that is there gets this size, if one is given.
fn resize<F: WritableFiles>(
    alloc: Global,
    files: &mut F,
    ctx: &Ctx,
    size: Option<u64>,
    file: &InodeAttributes,
) -> Result<Result<Created, Status>, F::Suspend>
    ensures err { IfErr result (λ suspend. F.may_suspend (F.source files.old) suspend) }
    ensures source { F.source files.new ≡ F.source files.old }
    ensures dirty_count { F.dirty_count files.new ≤ F.dirty_count files.old + 5 }
    ensures resumable { IfErr result (λ suspend. (world : F.World) (tree : Tree) → F.stands files.old world tree
        → F.is_resumable suspend) }
    ensures ok { IfOk result (λ r. (world : F.World) (tree : Tree) (body : Body)
        → F.stands files.old world tree → IsFileIn tree file.now body → Sound tree → SoundCtx ctx.now
        → IfSome size (λ n. n < 2 ^ 64) → IsDone (F.stands files.new world) tree
        (resize tree ctx.now size file.now.number (node_of file.now body)) r) }
{
    let Some(size) = size else {
        return Ok(Ok(created(alloc, file)?));
    };
    let wanted = only_size(size);
    if let Some(status) = set_refusal(ctx, &wanted, &None, file) {
        return Ok(Err(status));
    }
    let last = set_file(files, &ctx.moment, &wanted, file)?;
    Ok(Ok(created(alloc, &last)?))
}

/// What becomes of a file that is there.
pub fn create_over<F: WritableFiles>(
    alloc: Global,
    files: &mut F,
    ctx: &Ctx,
    how: &CreateHow,
    file: &InodeAttributes,
) -> Result<Result<Created, Status>, F::Suspend>
    ensures err { IfErr result (λ suspend. F.may_suspend (F.source files.old) suspend) }
    ensures source { F.source files.new ≡ F.source files.old }
    ensures dirty_count { F.dirty_count files.new ≤ F.dirty_count files.old + 5 }
    ensures resumable { IfErr result (λ suspend. (world : F.World) (tree : Tree) → F.stands files.old world tree
        → F.is_resumable suspend) }
    ensures ok { IfOk result (λ r. (world : F.World) (tree : Tree) (body : Body)
        → F.stands files.old world tree → IsFileIn tree file.now body → Sound tree → SoundCtx ctx.now
        → CreateHowFits how.now → IsDone (F.stands files.new world) tree
        (create_over tree ctx.now how.now file.now.number (node_of file.now body)) r) }
{
    match how {
        CreateHow::Unchecked(wanted) => {
            if is_regular(file) {
                resize(alloc, files, ctx, wanted.size, file)
            } else {
                Ok(Err(Status::Exist))
            }
        }
        CreateHow::Guarded(_) => Ok(Err(Status::Exist)),
        CreateHow::Exclusive(verifier) => {
            if is_made_with(verifier, file) {
                resize(alloc, files, ctx, None, file)
            } else {
                Ok(Err(Status::Exist))
            }
        }
    }
}
