//! A new file of a directory, with its number, its slot and its room.
ghost use Rattle.std.specs.Prelude.{◌≡◌, ◌+◌, ◌≤◌, ℕ, Option, IfErr, IfOk};
ghost use Rattle.nfs_types.specs.declared.verifier.Verifier.{Verifier};
ghost use Rattle.nfs_spec.specs.Model.Node.{Body};
ghost use Rattle.nfs_spec.specs.Model.Sound.{Sound, SoundCtx};
ghost use Rattle.nfs_spec.specs.Model.Tree.{Tree};
ghost use Rattle.nfs_spec.specs.Procedures.Fresh.{fresh, make};
ghost use Rattle.procs_files.specs.Heads.{IsFileIn, node_of};
ghost use Rattle.procs_updates.specs.Creates.Making.{CanMake, IsFresh, IsMade};

use crate::creates::blank_files::first_blocks;
use crate::creates::new_names::{add, created};
use crate::writes::{set_inode_attributes, set_refusal};
use nfs_types::{Created, Ctx, NewAttributes, Status};
use procs_files::{InodeAttributes, WritableFiles};
use procs_names::slot_with_blocks;
use std::alloc::Global;

/// A new file, where its attributes may be set so, and there are a number, a slot and the blocks for it. All
/// of these are asked for before the first change.
pub fn make<F: WritableFiles>(
    alloc: Global,
    files: &mut F,
    ctx: &Ctx,
    directory: &InodeAttributes,
    name: &[u8],
    wanted: &NewAttributes,
    blank: &InodeAttributes,
    target: &[u8],
) -> Result<Result<Created, Status>, F::Suspend>
    ensures err { IfErr result (λ suspend. F.may_suspend (F.source files.old) suspend) }
    ensures source { F.source files.new ≡ F.source files.old }
    ensures dirty_count { F.dirty_count files.new ≤ F.dirty_count files.old + 11 }
    ensures resumable { IfErr result (λ suspend. (world : F.World) (tree : Tree) (inside : Body) (mode : ℕ)
        (verifier : Option Verifier) (body : Body)
        → F.stands files.old world tree → IsFileIn tree directory.now inside → Sound tree → SoundCtx ctx.now
        → IsFresh ctx.now blank.now target.now mode verifier body
        → CanMake tree directory.now.number (node_of directory.now inside) name.now wanted.now mode verifier
        body
        → F.is_resumable suspend) }
    ensures ok { IfOk result (λ r. (world : F.World) (tree : Tree) (inside : Body) (mode : ℕ)
        (verifier : Option Verifier) (body : Body)
        → F.stands files.old world tree → IsFileIn tree directory.now inside → Sound tree → SoundCtx ctx.now
        → IsFresh ctx.now blank.now target.now mode verifier body
        → CanMake tree directory.now.number (node_of directory.now inside) name.now wanted.now mode verifier
        body
        → IsMade (F.stands files.new world) tree
        (λ new. make tree ctx.now new directory.now.number (node_of directory.now inside) name.now wanted.now
        (fresh ctx.now mode verifier body)) r) }
{
    if let Some(status) = set_refusal(ctx, wanted, &None, blank) {
        return Ok(Err(status));
    }
    let Some(number) = files.new_number()? else {
        return Ok(Err(Status::NoSpc));
    };
    let Some(slot) = slot_with_blocks(files, directory, first_blocks(blank))? else {
        return Ok(Err(Status::NoSpc));
    };
    let inode_attributes = set_inode_attributes(
        &ctx.moment,
        wanted,
        &InodeAttributes { number, ..*blank },
    );
    let at = directory.number;
    let last = add(
        alloc,
        files,
        ctx.moment,
        at,
        name,
        slot,
        &inode_attributes,
        target,
        wanted.size,
    )?;
    Ok(Ok(created(alloc, &last)?))
}
