//! RENAME (RFC 1813, section 3.3.14).
ghost use Rattle.std.specs.Prelude.{◌≡◌, ◌+◌, ◌≤◌, IfErr, IfOk, Err};
ghost use Rattle.nfs_types.specs.Fits.{AreBytes};
ghost use Rattle.nfs_spec.specs.Model.Attributes.{untold};
ghost use Rattle.nfs_spec.specs.Model.Node.{Body};
ghost use Rattle.nfs_spec.specs.Model.Sound.{Sound, SoundCtx};
ghost use Rattle.nfs_spec.specs.Model.Tree.{Tree};
ghost use Rattle.nfs_spec.specs.Procedures.Rename.{RenameStep, rename};
ghost use Rattle.procs_files.specs.Heads.{IsBodyOf, IsDone, IsFileIn};
ghost use Rattle.procs_renames.specs.Moves.{dentry_of};
ghost use Rattle.procs_renames.specs.Renames.{CanRename};
ghost use Rattle.procs_renames.specs.Tells.{IsChangeSince};

use crate::moves::move_file;
use crate::places::source_file;
use crate::refusals::{is_named, move_refusal};
use crate::slots::roomy_slot;
use nfs_types::{Ctx, DirectoryName, Status, WeakCacheData};
use procs_files::{Files, InodeAttributes, WritableFiles, find, named_file, untold};
use procs_names::change_since;
use std::alloc::Global;

/// What RENAME answers, and what is told of both directories.
#[derive(Drop)]
pub struct RenameReplyParts {
    pub outcome: Result<(), Status>,
    pub source: WeakCacheData,
    pub target: WeakCacheData,
}

// The file of the first place gets the name of the second.
fn rename_file<F: WritableFiles>(
    alloc: Global,
    files: &mut F,
    ctx: &Ctx,
    source: &InodeAttributes,
    name: &[u8],
    target: &InodeAttributes,
    new_name: &[u8],
    file: &InodeAttributes,
) -> Result<Result<(), Status>, F::Suspend>
    ensures err { IfErr result (λ suspend. F.may_suspend (F.source files.old) suspend) }
    ensures source { F.source files.new ≡ F.source files.old }
    ensures dirty_count { F.dirty_count files.new ≤ F.dirty_count files.old + 10 }
    ensures resumable { IfErr result (λ suspend. (world : F.World) (tree : Tree) (body goal inside : Body)
        → F.stands files.old world tree → IsFileIn tree source.now body → IsFileIn tree target.now goal
        → CanRename tree ctx.now (dentry_of source.now body name.now) (dentry_of target.now goal new_name.now)
        file.now inside → F.is_resumable suspend) }
    ensures ok { IfOk result (λ r. (world : F.World) (tree : Tree) (body goal inside : Body)
        → F.stands files.old world tree → IsFileIn tree source.now body → IsFileIn tree target.now goal
        → CanRename tree ctx.now (dentry_of source.now body name.now) (dentry_of target.now goal new_name.now)
        file.now inside → IsDone (F.stands files.new world) tree
        (rename tree ctx.now (dentry_of source.now body name.now) (dentry_of target.now goal new_name.now)) r) }
{
    let replaced = named_file(files, target, new_name)?;
    if is_named(file, &replaced) {
        return Ok(Ok(()));
    }
    if let Some(status) = move_refusal(files, source.number, file, target, &replaced)? {
        return Ok(Err(status));
    }
    let Some(slot) = roomy_slot(files, source, name, target, new_name)? else {
        return Ok(Err(Status::NoSpc));
    };
    let (from, to) = (source.number, target.number);
    move_file(
        alloc, files, ctx.moment, from, name, to, new_name, file, &replaced, slot,
    )?;
    Ok(Ok(()))
}

fn rename_in<F: WritableFiles>(
    alloc: Global,
    files: &mut F,
    ctx: &Ctx,
    source: &InodeAttributes,
    name: &[u8],
    target: &InodeAttributes,
    new_name: &[u8],
) -> Result<Result<(), Status>, F::Suspend>
    ensures err { IfErr result (λ suspend. F.may_suspend (F.source files.old) suspend) }
    ensures source { F.source files.new ≡ F.source files.old }
    ensures dirty_count { F.dirty_count files.new ≤ F.dirty_count files.old + 10 }
    ensures resumable { IfErr result (λ suspend. (world : F.World) (tree : Tree) (body goal : Body)
        → F.stands files.old world tree → IsFileIn tree source.now body → IsFileIn tree target.now goal
        → Sound tree → SoundCtx ctx.now → AreBytes new_name.now → F.is_resumable suspend) }
    ensures ok { IfOk result (λ r. (world : F.World) (tree : Tree) (body goal : Body)
        → F.stands files.old world tree → IsFileIn tree source.now body → IsFileIn tree target.now goal
        → Sound tree → SoundCtx ctx.now → AreBytes new_name.now → IsDone (F.stands files.new world) tree
        (rename tree ctx.now (dentry_of source.now body name.now) (dentry_of target.now goal new_name.now)) r) }
{
    match source_file(files, &ctx.credential, source, name, target, new_name)? {
        Err(status) => Ok(Err(status)),
        Ok(file) => rename_file(alloc, files, ctx, source, name, target, new_name, &file),
    }
}

// What is told of a directory that was so before the call.
fn directory_change<F: Files>(
    files: &F,
    directory: &InodeAttributes,
) -> Result<WeakCacheData, F::Suspend>
    ensures err { IfErr result (λ suspend. F.may_suspend (F.source files.now) suspend) }
    ensures resumable { IfErr result (λ suspend. (world : F.World) (tree : Tree) → F.stands files.now world tree
        → F.is_resumable suspend) }
    ensures ok { IfOk result (λ file_attributes. (world : F.World) (tree : Tree) (body : Body)
        → F.stands files.now world tree → IsBodyOf directory.now body
        → IsChangeSince tree directory.now body file_attributes) }
{
    change_since(files, directory.number, directory.before_change())
}

// What RENAME answers of the directories that were found.
fn renamed<F: Files>(
    files: &F,
    source: &InodeAttributes,
    target: &InodeAttributes,
    outcome: Result<(), Status>,
) -> Result<RenameReplyParts, F::Suspend>
    ensures err { IfErr result (λ suspend. F.may_suspend (F.source files.now) suspend) }
    ensures resumable { IfErr result (λ suspend. (world : F.World) (tree : Tree) → F.stands files.now world tree
        → F.is_resumable suspend) }
    ensures answer { IfOk result (λ r. r.outcome ≡ outcome) }
    ensures source { IfOk result (λ r. (world : F.World) (tree : Tree) (body : Body)
        → F.stands files.now world tree → IsBodyOf source.now body
        → IsChangeSince tree source.now body r.source) }
    ensures target { IfOk result (λ r. (world : F.World) (tree : Tree) (body : Body)
        → F.stands files.now world tree → IsBodyOf target.now body
        → IsChangeSince tree target.now body r.target) }
{
    let source = directory_change(files, source)?;
    let target = directory_change(files, target)?;
    Ok(RenameReplyParts {
        outcome,
        source,
        target,
    })
}

// What RENAME answers where a handle names no file: what is told of the first, if there is one.
fn not_renamed(status: Status, source: WeakCacheData) -> RenameReplyParts
    ensures outcome { result.outcome ≡ Err status }
    ensures file_attributes { result.source ≡ source }
    ensures target { result.target ≡ untold }
{
    RenameReplyParts {
        outcome: Err(status),
        source,
        target: untold(),
    }
}

/// Gives a file another name, in its directory or in another. What the name led to before loses it.
pub fn rename<F: WritableFiles>(
    alloc: Global,
    files: &mut F,
    ctx: &Ctx,
    source: &DirectoryName,
    target: &DirectoryName,
) -> Result<RenameReplyParts, F::Suspend>
    ensures err { IfErr result (λ suspend. F.may_suspend (F.source files.old) suspend) }
    ensures source { F.source files.new ≡ F.source files.old }
    ensures dirty_count { F.dirty_count files.new ≤ F.dirty_count files.old + 10 }
    ensures resumable { IfErr result (λ suspend. (world : F.World) (tree : Tree) → F.stands files.old world tree
        → Sound tree → SoundCtx ctx.now → AreBytes target.now.name → F.is_resumable suspend) }
    ensures step { IfOk result (λ r. (world : F.World) (tree : Tree) → F.stands files.old world tree
        → Sound tree → SoundCtx ctx.now → AreBytes target.now.name
        → (next : Tree) × RenameStep tree ctx.now source.now.directory.bytes source.now.name
        target.now.directory.bytes target.now.name r.outcome r.source r.target next
        × F.stands files.new world next) }
{
    let from = match find(files, &source.directory)? {
        Err(status) => return Ok(not_renamed(status, untold())),
        Ok(from) => from,
    };
    let to = match find(files, &target.directory)? {
        Err(status) => return Ok(not_renamed(status, directory_change(files, &from)?)),
        Ok(to) => to,
    };
    let (name, new_name) = (source.name.as_slice(), target.name.as_slice());
    let outcome = rename_in(alloc, files, ctx, &from, name, &to, new_name)?;
    renamed(files, &from, &to, outcome)
}
