//! LINK (RFC 1813, section 3.3.15).
ghost use Rattle.std.specs.Prelude.{◌≡◌, ◌+◌, ◌≤◌, ℕ, IfErr, IfOk, OnOk, Err, Option, Some};
ghost use Rattle.nfs_types.specs.Fits.{AreBytes};
ghost use Rattle.nfs_spec.specs.Model.Attributes.{before_change, untold};
ghost use Rattle.nfs_spec.specs.Model.Node.{Body, Node};
ghost use Rattle.nfs_spec.specs.Model.SetAttr.{first_of_tests};
ghost use Rattle.nfs_spec.specs.Model.Sound.{Sound, SoundCtx};
ghost use Rattle.nfs_spec.specs.Model.Tree.{Tree};
ghost use Rattle.nfs_spec.specs.Procedures.Changes.{changed_at, entered};
ghost use Rattle.nfs_spec.specs.Procedures.Link.{LinkStep, link, linked};
ghost use Rattle.nfs_spec.specs.Procedures.StepForms.{attributes_at};
ghost use Rattle.procs_files.specs.Heads.{IsBodyOf, IsDone, IsFileIn, IsFound, node_of};
ghost use Rattle.procs_names.specs.Links.Shapes.{CanChange, CanEnterAt};
ghost use Rattle.nfs_spec.specs.Procedures.Link.{link_tests};

use crate::links::{
    change_since, enter_name, gain_link, is_directory, lookup_for_change, slot_with_blocks,
};
use base::MOST_LINKS;
use nfs_types::{Attributes, Ctx, DirectoryName, Handle, Moment, Status, WeakCacheData};
use procs_files::{Files, InodeAttributes, SlotDirent, WritableFiles, find, is_own_name, untold};
use std::alloc::Global;

/// What LINK answers, and what is told of the file and of the directory.
#[derive(Drop)]
pub struct LinkReplyParts {
    pub outcome: Result<(), Status>,
    pub file: Option<Attributes>,
    pub directory: WeakCacheData,
}

// Why a file isn't linked under a name that leads to this.
fn link_refusal(
    name: &[u8],
    file: &InodeAttributes,
    found: &Option<InodeAttributes>,
) -> Option<Status>
    ensures { (tree : Tree) (named : Option (ℕ × Node)) (body : Body) → IsFound tree named found.now
        → IsBodyOf file.now body
        → result ≡ first_of_tests (link_tests name.now (node_of file.now body) named) }
{
    if is_directory(file) {
        Some(Status::Inval)
    } else if is_own_name(name) {
        Some(Status::Exist)
    } else if found.is_some() {
        Some(Status::Exist)
    } else if file.nlink >= MOST_LINKS {
        Some(Status::MLink)
    } else {
        None
    }
}

// The name in its directory, and the file with it.
fn add_link<F: WritableFiles>(
    alloc: Global,
    files: &mut F,
    moment: Moment,
    directory: u32,
    name: &[u8],
    slot: u32,
    file: &InodeAttributes,
) -> Result<(), F::Suspend>
    ensures err { IfErr result (λ suspend. F.may_suspend (F.source files.old) suspend) }
    ensures source { F.source files.new ≡ F.source files.old }
    ensures dirty_count { F.dirty_count files.new ≤ F.dirty_count files.old + 5 }
    ensures resumable { IfErr result (λ suspend. (world : F.World) (tree : Tree) (body : Body)
        → F.stands files.old world tree → IsBodyOf file.now body
        → CanEnterAt tree moment directory name.now (record { number = file.now.number; slot = slot }) body
        → F.is_resumable suspend) }
    ensures ok { OnOk result ((world : F.World) (tree : Tree) (body : Body) → F.stands files.old world tree
        → IsBodyOf file.now body
        → CanEnterAt tree moment directory name.now (record { number = file.now.number; slot = slot }) body
        → CanChange (changed_at tree directory
        (entered moment name.now (record { number = file.now.number; slot = slot }) body)) file.now.number
        (linked moment)
        → F.stands files.new world (changed_at (changed_at tree directory
        (entered moment name.now (record { number = file.now.number; slot = slot }) body)) file.now.number
        (linked moment))) }
{
    let dirent = SlotDirent {
        number: file.number,
        slot,
    };
    enter_name(alloc, files, moment, directory, name, dirent, file)?;
    gain_link(files, moment, file.number)
}

fn link_in<F: WritableFiles>(
    alloc: Global,
    files: &mut F,
    ctx: &Ctx,
    name: &[u8],
    file: &InodeAttributes,
    directory: &InodeAttributes,
) -> Result<Result<(), Status>, F::Suspend>
    ensures err { IfErr result (λ suspend. F.may_suspend (F.source files.old) suspend) }
    ensures source { F.source files.new ≡ F.source files.old }
    ensures dirty_count { F.dirty_count files.new ≤ F.dirty_count files.old + 5 }
    ensures resumable { IfErr result (λ suspend. (world : F.World) (tree : Tree) (body inside : Body)
        → F.stands files.old world tree → IsFileIn tree file.now body → IsFileIn tree directory.now inside
        → Sound tree → SoundCtx ctx.now → AreBytes name.now → F.is_resumable suspend) }
    ensures ok { IfOk result (λ r. (world : F.World) (tree : Tree) (body inside : Body)
        → F.stands files.old world tree → IsFileIn tree file.now body → IsFileIn tree directory.now inside
        → Sound tree → SoundCtx ctx.now → AreBytes name.now → IsDone (F.stands files.new world) tree
        (link tree ctx.now name.now file.now.number (node_of file.now body) directory.now.number
        (node_of directory.now inside)) r) }
{
    let found = match lookup_for_change(files, &ctx.credential, directory, name)? {
        Err(status) => return Ok(Err(status)),
        Ok(found) => found,
    };
    if let Some(status) = link_refusal(name, file, &found) {
        return Ok(Err(status));
    }
    match slot_with_blocks(files, directory, 0)? {
        None => Ok(Err(Status::NoSpc)),
        Some(slot) => {
            add_link(alloc, files, ctx.moment, directory.number, name, slot, file)?;
            Ok(Ok(()))
        }
    }
}

// What is told of a file that a call changed.
fn attributes_after<F: WritableFiles>(
    files: &F,
    number: u32,
) -> Result<Option<Attributes>, F::Suspend>
    ensures err { IfErr result (λ suspend. F.may_suspend (F.source files.now) suspend) }
    ensures resumable { IfErr result (λ suspend. (world : F.World) (tree : Tree) → F.stands files.now world tree
        → F.is_resumable suspend) }
    ensures ok { IfOk result (λ file_attributes. (world : F.World) (tree : Tree) → F.stands files.now world tree
        → file_attributes ≡ attributes_at tree number) }
{
    match files.file(number)? {
        Some(inode_attributes) => Ok(Some(inode_attributes.attributes())),
        None => Ok(None),
    }
}

// What LINK answers of the file and the directory that were found.
fn linked_to<F: WritableFiles>(
    files: &F,
    file: &InodeAttributes,
    directory: &InodeAttributes,
    outcome: Result<(), Status>,
) -> Result<LinkReplyParts, F::Suspend>
    ensures err { IfErr result (λ suspend. F.may_suspend (F.source files.now) suspend) }
    ensures resumable { IfErr result (λ suspend. (world : F.World) (tree : Tree) → F.stands files.now world tree
        → F.is_resumable suspend) }
    ensures answer { IfOk result (λ r. r.outcome ≡ outcome) }
    ensures file { IfOk result (λ r. (world : F.World) (tree : Tree) → F.stands files.now world tree
        → r.file ≡ attributes_at tree file.now.number) }
    ensures directory { IfOk result (λ r. (world : F.World) (tree : Tree) (body : Body)
        → F.stands files.now world tree → IsBodyOf directory.now body
        → r.directory ≡ record {
          before = Some (before_change (node_of directory.now body));
          after = attributes_at tree directory.now.number;
        }) }
{
    let file_attributes = attributes_after(files, file.number)?;
    let since = change_since(files, directory.number, directory.before_change())?;
    Ok(LinkReplyParts {
        outcome,
        file: file_attributes,
        directory: since,
    })
}

// What LINK answers where a handle names no file: the other file's attributes, if there is one.
fn not_linked(status: Status, file: Option<Attributes>) -> LinkReplyParts
    ensures outcome { result.outcome ≡ Err status }
    ensures file_attributes { result.file ≡ file }
    ensures directory { result.directory ≡ untold }
{
    LinkReplyParts {
        outcome: Err(status),
        file,
        directory: untold(),
    }
}

/// Gives a file one name more.
pub fn link<F: WritableFiles>(
    alloc: Global,
    files: &mut F,
    ctx: &Ctx,
    file: &Handle,
    name: &DirectoryName,
) -> Result<LinkReplyParts, F::Suspend>
    ensures err { IfErr result (λ suspend. F.may_suspend (F.source files.old) suspend) }
    ensures source { F.source files.new ≡ F.source files.old }
    ensures dirty_count { F.dirty_count files.new ≤ F.dirty_count files.old + 5 }
    ensures resumable { IfErr result (λ suspend. (world : F.World) (tree : Tree) → F.stands files.old world tree
        → Sound tree → SoundCtx ctx.now → AreBytes name.now.name → F.is_resumable suspend) }
    ensures step { IfOk result (λ r. (world : F.World) (tree : Tree) → F.stands files.old world tree
        → Sound tree → SoundCtx ctx.now → AreBytes name.now.name
        → (next : Tree) × LinkStep tree ctx.now file.now.bytes name.now.directory.bytes name.now.name r.outcome
        r.file r.directory next × F.stands files.new world next) }
{
    let file = match find(files, file)? {
        Err(status) => return Ok(not_linked(status, None)),
        Ok(file) => file,
    };
    let directory = match find(files, &name.directory)? {
        Err(status) => return Ok(not_linked(status, Some(file.attributes()))),
        Ok(directory) => directory,
    };
    let outcome = link_in(alloc, files, ctx, name.name.as_slice(), &file, &directory)?;
    linked_to(files, &file, &directory, outcome)
}
