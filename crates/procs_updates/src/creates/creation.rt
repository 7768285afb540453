//! CREATE (RFC 1813, section 3.3.8).
ghost use Rattle.std.specs.Prelude.{◌≡◌, ◌+◌, ◌≤◌, ℕ, IfErr, IfOk, Option};
ghost use Rattle.nfs_types.specs.Fits.{AreBytes, CallFits, CreateHowFits};
ghost use Rattle.nfs_types.specs.declared.call.Call.TheVariants as call;
ghost use Rattle.nfs_spec.specs.Model.Node.{Body};
ghost use Rattle.nfs_spec.specs.Model.Sound.{Sound, SoundCtx};
ghost use Rattle.nfs_spec.specs.Model.Tree.{Tree};
ghost use Rattle.nfs_spec.specs.Procedures.Create.{CreateStep, create, create_new};
ghost use Rattle.nfs_spec.specs.Procedures.Fresh.{IsNewNumber};
ghost use Rattle.procs_files.specs.Heads.{IsFileIn, node_of};
ghost use Rattle.procs_updates.specs.Creates.Making.{IsMade, IsNewName};

use crate::creates::blank_files::blank_file;
use crate::creates::existing_file::{create_over, nothing_given};
use crate::creates::new_file::make;
use base::{EXCLUSIVE_MODE, NEW_FILE_MODE};
use nfs_types::{CreateHow, Created, Ctx, DirectoryName, Status};
use procs_files::{Changed, InodeAttributes, WritableFiles, find, is_own_name};
use procs_names::{changed_to, lookup_for_change, refused};
use std::alloc::Global;

fn create_new<F: WritableFiles>(
    alloc: Global,
    files: &mut F,
    ctx: &Ctx,
    directory: &InodeAttributes,
    name: &[u8],
    how: &CreateHow,
) -> Result<Result<Created, Status>, F::Suspend>
    ensures err { IfErr result (λ suspend. F.may_suspend (F.source files.old) suspend) }
    ensures source { F.source files.new ≡ F.source files.old }
    ensures dirty_count { F.dirty_count files.new ≤ F.dirty_count files.old + 11 }
    ensures resumable { IfErr result (λ suspend. (world : F.World) (tree : Tree) (inside : Body)
        → F.stands files.old world tree → IsFileIn tree directory.now inside → Sound tree → SoundCtx ctx.now
        → IsNewName tree (node_of directory.now inside) name.now → CreateHowFits how.now → F.is_resumable suspend) }
    ensures ok { IfOk result (λ r. (world : F.World) (tree : Tree) (inside : Body)
        → F.stands files.old world tree → IsFileIn tree directory.now inside → Sound tree → SoundCtx ctx.now
        → IsNewName tree (node_of directory.now inside) name.now → CreateHowFits how.now
        → IsMade (F.stands files.new world) tree
        (λ new. create_new tree ctx.now new directory.now.number (node_of directory.now inside) name.now
        how.now) r) }
{
    match how {
        CreateHow::Unchecked(wanted) => {
            let blank = blank_file(ctx, NEW_FILE_MODE, None);
            make(alloc, files, ctx, directory, name, wanted, &blank, &[])
        }
        CreateHow::Guarded(wanted) => {
            let blank = blank_file(ctx, NEW_FILE_MODE, None);
            make(alloc, files, ctx, directory, name, wanted, &blank, &[])
        }
        CreateHow::Exclusive(verifier) => {
            let blank = blank_file(ctx, EXCLUSIVE_MODE, Some(*verifier));
            make(
                alloc,
                files,
                ctx,
                directory,
                name,
                &nothing_given(),
                &blank,
                &[],
            )
        }
    }
}

fn create_in<F: WritableFiles>(
    alloc: Global,
    files: &mut F,
    ctx: &Ctx,
    directory: &InodeAttributes,
    name: &[u8],
    how: &CreateHow,
) -> Result<Result<Created, Status>, F::Suspend>
    ensures err { IfErr result (λ suspend. F.may_suspend (F.source files.old) suspend) }
    ensures source { F.source files.new ≡ F.source files.old }
    ensures dirty_count { F.dirty_count files.new ≤ F.dirty_count files.old + 11 }
    ensures resumable { IfErr result (λ suspend. (world : F.World) (tree : Tree) (inside : Body)
        → F.stands files.old world tree → IsFileIn tree directory.now inside → Sound tree → SoundCtx ctx.now
        → AreBytes name.now → CreateHowFits how.now → F.is_resumable suspend) }
    ensures ok { IfOk result (λ r. (world : F.World) (tree : Tree) (inside : Body)
        → F.stands files.old world tree → IsFileIn tree directory.now inside → Sound tree → SoundCtx ctx.now
        → AreBytes name.now → CreateHowFits how.now → IsMade (F.stands files.new world) tree
        (λ new. create tree ctx.now name.now how.now new directory.now.number
        (node_of directory.now inside)) r) }
{
    let found = match lookup_for_change(files, &ctx.credential, directory, name)? {
        Err(status) => return Ok(Err(status)),
        Ok(found) => found,
    };
    if is_own_name(name) {
        return Ok(Err(Status::Exist));
    }
    match found {
        None => create_new(alloc, files, ctx, directory, name, how),
        Some(file) => create_over(alloc, files, ctx, how, &file),
    }
}

/// Makes a regular file, or finds one, as it is asked for.
pub fn create<F: WritableFiles>(
    alloc: Global,
    files: &mut F,
    ctx: &Ctx,
    name: &DirectoryName,
    how: &CreateHow,
) -> Result<Changed<Created>, F::Suspend>
    ensures err { IfErr result (λ suspend. F.may_suspend (F.source files.old) suspend) }
    ensures source { F.source files.new ≡ F.source files.old }
    ensures dirty_count { F.dirty_count files.new ≤ F.dirty_count files.old + 11 }
    ensures resumable { IfErr result (λ suspend. (world : F.World) (tree : Tree) → F.stands files.old world tree
        → Sound tree → SoundCtx ctx.now → CallFits (call.Create name.now how.now) → F.is_resumable suspend) }
    ensures step { IfOk result (λ r. (world : F.World) (tree : Tree) → F.stands files.old world tree
        → Sound tree → SoundCtx ctx.now → CallFits (call.Create name.now how.now)
        → (new : Option ℕ) × IsNewNumber tree new × (next : Tree)
        × CreateStep tree ctx.now name.now.directory.bytes name.now.name how.now new r.outcome r.file next
        × F.stands files.new world next) }
{
    let directory = match find(files, &name.directory)? {
        Err(status) => return Ok(refused(status)),
        Ok(directory) => directory,
    };
    let outcome = create_in(alloc, files, ctx, &directory, name.name.as_slice(), how)?;
    changed_to(files, &directory, outcome)
}
