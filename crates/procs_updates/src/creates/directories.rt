//! MKDIR (RFC 1813, section 3.3.9).
ghost use Rattle.std.specs.Prelude.{◌≡◌, ◌+◌, ◌≤◌, ℕ, IfErr, IfOk, Option};
ghost use Rattle.nfs_types.specs.Fits.{AreBytes, CallFits, NewAttributesFit};
ghost use Rattle.nfs_types.specs.declared.call.Call.TheVariants as call;
ghost use Rattle.nfs_spec.specs.Model.Node.{Body, Node};
ghost use Rattle.nfs_spec.specs.Model.SetAttr.{first_of_tests};
ghost use Rattle.nfs_spec.specs.Model.Sound.{Sound, SoundCtx};
ghost use Rattle.nfs_spec.specs.Model.Tree.{Tree};
ghost use Rattle.nfs_spec.specs.Procedures.Fresh.{IsNewNumber};
ghost use Rattle.nfs_spec.specs.Procedures.MkDir.{MkDirStep, make_directory};
ghost use Rattle.procs_files.specs.Heads.{IsFileIn, IsFound, node_of};
ghost use Rattle.procs_updates.specs.Creates.Making.{IsMade};
ghost use Rattle.nfs_spec.specs.Procedures.MkDir.{mkdir_tests};

use crate::creates::blank_files::{blank_directory, without_size};
use crate::creates::new_file::make;
use base::MOST_LINKS;
use nfs_types::{Created, Ctx, DirectoryName, NewAttributes, Status};
use procs_files::{Changed, InodeAttributes, WritableFiles, find, is_own_name};
use procs_names::{changed_to, lookup_for_change, refused};
use std::alloc::Global;

// Why no directory is made under a name that leads to this.
fn directory_refusal(
    name: &[u8],
    directory: &InodeAttributes,
    found: &Option<InodeAttributes>,
) -> Option<Status>
    ensures { (tree : Tree) (named : Option (ℕ × Node)) (inside : Body) → IsFound tree named found.now
        → result ≡ first_of_tests (mkdir_tests name.now (node_of directory.now inside) named) }
{
    if is_own_name(name) || found.is_some() {
        Some(Status::Exist)
    } else if directory.nlink >= MOST_LINKS {
        Some(Status::MLink)
    } else {
        None
    }
}

fn make_directory_in<F: WritableFiles>(
    alloc: Global,
    files: &mut F,
    ctx: &Ctx,
    directory: &InodeAttributes,
    name: &[u8],
    wanted: &NewAttributes,
) -> Result<Result<Created, Status>, F::Suspend>
    ensures err { IfErr result (λ suspend. F.may_suspend (F.source files.old) suspend) }
    ensures source { F.source files.new ≡ F.source files.old }
    ensures dirty_count { F.dirty_count files.new ≤ F.dirty_count files.old + 11 }
    ensures resumable { IfErr result (λ suspend. (world : F.World) (tree : Tree) (inside : Body)
        → F.stands files.old world tree → IsFileIn tree directory.now inside → Sound tree → SoundCtx ctx.now
        → AreBytes name.now → NewAttributesFit wanted.now → F.is_resumable suspend) }
    ensures ok { IfOk result (λ r. (world : F.World) (tree : Tree) (inside : Body)
        → F.stands files.old world tree → IsFileIn tree directory.now inside → Sound tree → SoundCtx ctx.now
        → AreBytes name.now → NewAttributesFit wanted.now → IsMade (F.stands files.new world) tree
        (λ new. make_directory tree ctx.now name.now wanted.now new directory.now.number
        (node_of directory.now inside)) r) }
{
    let found = match lookup_for_change(files, &ctx.credential, directory, name)? {
        Err(status) => return Ok(Err(status)),
        Ok(found) => found,
    };
    if let Some(status) = directory_refusal(name, directory, &found) {
        return Ok(Err(status));
    }
    let blank = blank_directory(ctx, directory.number);
    let wanted = without_size(wanted);
    make(alloc, files, ctx, directory, name, &wanted, &blank, &[])
}

/// Makes a directory.
pub fn make_directory<F: WritableFiles>(
    alloc: Global,
    files: &mut F,
    ctx: &Ctx,
    name: &DirectoryName,
    wanted: &NewAttributes,
) -> Result<Changed<Created>, F::Suspend>
    ensures err { IfErr result (λ suspend. F.may_suspend (F.source files.old) suspend) }
    ensures source { F.source files.new ≡ F.source files.old }
    ensures dirty_count { F.dirty_count files.new ≤ F.dirty_count files.old + 11 }
    ensures resumable { IfErr result (λ suspend. (world : F.World) (tree : Tree) → F.stands files.old world tree
        → Sound tree → SoundCtx ctx.now → CallFits (call.MkDir name.now wanted.now) → F.is_resumable suspend) }
    ensures step { IfOk result (λ r. (world : F.World) (tree : Tree) → F.stands files.old world tree
        → Sound tree → SoundCtx ctx.now → CallFits (call.MkDir name.now wanted.now)
        → (new : Option ℕ) × IsNewNumber tree new × (next : Tree)
        × MkDirStep tree ctx.now name.now.directory.bytes name.now.name wanted.now new r.outcome r.file next
        × F.stands files.new world next) }
{
    let directory = match find(files, &name.directory)? {
        Err(status) => return Ok(refused(status)),
        Ok(directory) => directory,
    };
    let outcome = make_directory_in(alloc, files, ctx, &directory, name.name.as_slice(), wanted)?;
    changed_to(files, &directory, outcome)
}
