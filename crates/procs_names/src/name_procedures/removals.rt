//! REMOVE and RMDIR (RFC 1813, sections 3.3.12 and 3.3.13).
ghost use Rattle.std.specs.Prelude.{◌≡◌, ◌+◌, ◌≤◌, ℕ, IfErr, IfOk, Option};
ghost use Rattle.nfs_spec.specs.Model.Node.{Body, Node};
ghost use Rattle.nfs_spec.specs.Model.SetAttr.{first_of_tests};
ghost use Rattle.nfs_spec.specs.Model.Sound.{Sound, SoundCtx};
ghost use Rattle.nfs_spec.specs.Model.Tree.{Tree};
ghost use Rattle.nfs_spec.specs.Procedures.Remove.{RemoveStep, remove};
ghost use Rattle.nfs_spec.specs.Procedures.RmDir.{RmDirStep, remove_directory};
ghost use Rattle.procs_files.specs.Heads.{IsDone, IsFileIn, IsFound, node_of};
ghost use Rattle.procs_names.specs.Links.Outcomes.{IsLet};
ghost use Rattle.nfs_spec.specs.Procedures.Remove.{remove_tests};
ghost use Rattle.nfs_spec.specs.Procedures.RmDir.{rmdir_tests};

use crate::links::{changed_to, is_directory, lookup_for_change, refused, take_name};
use nfs_types::{Ctx, DirectoryName, Status};
use procs_files::{Changed, InodeAttributes, WritableFiles, find, is_own_name};

// The file that REMOVE takes a name of, or why it takes none.
fn removable(name: &[u8], found: Option<InodeAttributes>) -> Result<InodeAttributes, Status>
    ensures { (tree : Tree) (file : Option (ℕ × Node)) → IsFound tree file found
        → IsLet (first_of_tests (remove_tests name.now file)) found result }
{
    if is_own_name(name) {
        return Err(Status::IsDir);
    }
    match found {
        None => Err(Status::NoEnt),
        Some(file) => {
            if is_directory(&file) {
                Err(Status::IsDir)
            } else {
                Ok(file)
            }
        }
    }
}

fn remove_from<F: WritableFiles>(
    files: &mut F,
    ctx: &Ctx,
    directory: &InodeAttributes,
    name: &[u8],
) -> Result<Result<(), Status>, F::Suspend>
    ensures err { IfErr result (λ suspend. F.may_suspend (F.source files.old) suspend) }
    ensures source { F.source files.new ≡ F.source files.old }
    ensures dirty_count { F.dirty_count files.new ≤ F.dirty_count files.old + 3 }
    ensures resumable { IfErr result (λ suspend. (world : F.World) (tree : Tree) (body : Body)
        → F.stands files.old world tree → IsFileIn tree directory.now body → Sound tree → SoundCtx ctx.now
        → F.is_resumable suspend) }
    ensures ok { IfOk result (λ r. (world : F.World) (tree : Tree) (body : Body)
        → F.stands files.old world tree → IsFileIn tree directory.now body → Sound tree → SoundCtx ctx.now
        → IsDone (F.stands files.new world) tree
        (remove tree ctx.now name.now directory.now.number (node_of directory.now body)) r) }
{
    let found = match lookup_for_change(files, &ctx.credential, directory, name)? {
        Err(status) => return Ok(Err(status)),
        Ok(found) => found,
    };
    let file = match removable(name, found) {
        Err(status) => return Ok(Err(status)),
        Ok(file) => file,
    };
    take_name(files, ctx.moment, directory.number, name, &file)?;
    Ok(Ok(()))
}

/// Takes a name of a file away, and with its last name the file.
pub fn remove<F: WritableFiles>(
    files: &mut F,
    ctx: &Ctx,
    name: &DirectoryName,
) -> Result<Changed<()>, F::Suspend>
    ensures err { IfErr result (λ suspend. F.may_suspend (F.source files.old) suspend) }
    ensures source { F.source files.new ≡ F.source files.old }
    ensures dirty_count { F.dirty_count files.new ≤ F.dirty_count files.old + 3 }
    ensures resumable { IfErr result (λ suspend. (world : F.World) (tree : Tree) → F.stands files.old world tree
        → Sound tree → SoundCtx ctx.now → F.is_resumable suspend) }
    ensures step { IfOk result (λ r. (world : F.World) (tree : Tree) → F.stands files.old world tree
        → Sound tree → SoundCtx ctx.now
        → (next : Tree) × RemoveStep tree ctx.now name.now.directory.bytes name.now.name r.outcome r.file next
        × F.stands files.new world next) }
{
    let directory = match find(files, &name.directory)? {
        Err(status) => return Ok(refused(status)),
        Ok(directory) => directory,
    };
    let outcome = remove_from(files, ctx, &directory, name.name.as_slice())?;
    changed_to(files, &directory, outcome)
}

// The directory that RMDIR takes away, or why it takes none.
fn removable_directory<F: WritableFiles>(
    files: &F,
    name: &[u8],
    found: Option<InodeAttributes>,
) -> Result<Result<InodeAttributes, Status>, F::Suspend>
    ensures err { IfErr result (λ suspend. F.may_suspend (F.source files.now) suspend) }
    ensures resumable { IfErr result (λ suspend. (world : F.World) (tree : Tree) → F.stands files.now world tree
        → F.is_resumable suspend) }
    ensures ok { IfOk result (λ r. (world : F.World) (tree : Tree) (file : Option (ℕ × Node))
        → F.stands files.now world tree → IsFound tree file found
        → IsLet (first_of_tests (rmdir_tests name.now file)) found r) }
{
    if is_own_name(name) {
        return Ok(Err(Status::Inval));
    }
    match found {
        None => Ok(Err(Status::NoEnt)),
        Some(file) => {
            if !is_directory(&file) {
                Ok(Err(Status::NotDir))
            } else if !files.is_empty(&file)? {
                Ok(Err(Status::NotEmpty))
            } else {
                Ok(Ok(file))
            }
        }
    }
}

fn remove_directory_from<F: WritableFiles>(
    files: &mut F,
    ctx: &Ctx,
    directory: &InodeAttributes,
    name: &[u8],
) -> Result<Result<(), Status>, F::Suspend>
    ensures err { IfErr result (λ suspend. F.may_suspend (F.source files.old) suspend) }
    ensures source { F.source files.new ≡ F.source files.old }
    ensures dirty_count { F.dirty_count files.new ≤ F.dirty_count files.old + 3 }
    ensures resumable { IfErr result (λ suspend. (world : F.World) (tree : Tree) (body : Body)
        → F.stands files.old world tree → IsFileIn tree directory.now body → Sound tree → SoundCtx ctx.now
        → F.is_resumable suspend) }
    ensures ok { IfOk result (λ r. (world : F.World) (tree : Tree) (body : Body)
        → F.stands files.old world tree → IsFileIn tree directory.now body → Sound tree → SoundCtx ctx.now
        → IsDone (F.stands files.new world) tree
        (remove_directory tree ctx.now name.now directory.now.number (node_of directory.now body)) r) }
{
    let found = match lookup_for_change(files, &ctx.credential, directory, name)? {
        Err(status) => return Ok(Err(status)),
        Ok(found) => found,
    };
    let file = match removable_directory(files, name, found)? {
        Err(status) => return Ok(Err(status)),
        Ok(file) => file,
    };
    take_name(files, ctx.moment, directory.number, name, &file)?;
    Ok(Ok(()))
}

/// Takes a directory without names away.
pub fn remove_directory<F: WritableFiles>(
    files: &mut F,
    ctx: &Ctx,
    name: &DirectoryName,
) -> Result<Changed<()>, F::Suspend>
    ensures err { IfErr result (λ suspend. F.may_suspend (F.source files.old) suspend) }
    ensures source { F.source files.new ≡ F.source files.old }
    ensures dirty_count { F.dirty_count files.new ≤ F.dirty_count files.old + 3 }
    ensures resumable { IfErr result (λ suspend. (world : F.World) (tree : Tree) → F.stands files.old world tree
        → Sound tree → SoundCtx ctx.now → F.is_resumable suspend) }
    ensures step { IfOk result (λ r. (world : F.World) (tree : Tree) → F.stands files.old world tree
        → Sound tree → SoundCtx ctx.now
        → (next : Tree) × RmDirStep tree ctx.now name.now.directory.bytes name.now.name r.outcome r.file next
        × F.stands files.new world next) }
{
    let directory = match find(files, &name.directory)? {
        Err(status) => return Ok(refused(status)),
        Ok(directory) => directory,
    };
    let outcome = remove_directory_from(files, ctx, &directory, name.name.as_slice())?;
    changed_to(files, &directory, outcome)
}
