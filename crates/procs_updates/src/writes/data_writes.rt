//! WRITE (RFC 1813, section 3.3.7).
ghost use Rattle.std.specs.Prelude.{◌≡◌, ◌+◌, ◌<◌, ◌≤◌, length, IfErr, IfOk};
ghost use Rattle.base.specs.declared.TheConstants.{LARGEST_FILE, TRANSFER_BYTES};
ghost use Rattle.nfs_types.specs.Fits.{CallFits};
ghost use Rattle.nfs_types.specs.declared.call.Call.TheVariants as call;
ghost use Rattle.nfs_spec.specs.Model.Node.{Body};
ghost use Rattle.nfs_spec.specs.Model.Sound.{Sound, SoundCtx};
ghost use Rattle.nfs_spec.specs.Model.Tree.{Tree};
ghost use Rattle.nfs_spec.specs.Procedures.StepForms.{tree_after};
ghost use Rattle.nfs_spec.specs.Procedures.Write.{WriteStep, write};
ghost use Rattle.procs_files.specs.Writable.{SoundInodeAttributes};
ghost use Rattle.procs_files.specs.Heads.{IsFileIn, node_of};
ghost use Rattle.procs_updates.specs.Writes.Acting.{IsActed, IsWritten, touched_inode_attributes};

use crate::writes::attributes::touched_inode_attributes;
use crate::writes::done::{Done, changed, refused, unfound};
use crate::writes::texts::{write_refusal, written_reply};
use nfs_types::{Ctx, Handle, Moment, Stability, Status, Written};
use procs_files::{Changed, InodeAttributes, WritableFiles, find};
use std::alloc::Global;

// Writes bytes, where the blocks that are free suffice: the head of the file then.
fn write_text<F: WritableFiles>(
    alloc: Global,
    files: &mut F,
    moment: &Moment,
    offset: u64,
    text: &[u8],
    file: &InodeAttributes,
) -> Result<Option<InodeAttributes>, F::Suspend>
    requires some { 0 < length text.now }
    requires small { offset + length text.now ≤ LARGEST_FILE }
    ensures err { IfErr result (λ suspend. F.may_suspend (F.source files.old) suspend) }
    ensures source { F.source files.new ≡ F.source files.old }
    ensures dirty_count { length text.now ≤ TRANSFER_BYTES → F.dirty_count files.new ≤ F.dirty_count files.old + 71 }
    ensures resumable { IfErr result (λ suspend. (world : F.World) (tree : Tree) → F.stands files.old world tree
        → F.is_resumable suspend) }
    ensures ok { IfOk result (λ next. (world : F.World) (tree : Tree) (body : Body)
        → F.stands files.old world tree → IsFileIn tree file.now body
        → SoundInodeAttributes tree.geometry.inodes (touched_inode_attributes moment.now file.now)
        → IsWritten (F.stands files.new world) tree moment.now offset text.now file.now body next) }
{
    let blocks = files.unmapped(file, offset, text.len())?;
    if !files.has_free_blocks(blocks)? {
        return Ok(None);
    }
    let inode_attributes = touched_inode_attributes(moment, file);
    Ok(Some(files.write(alloc, &inode_attributes, offset, text)?))
}

fn write_in<F: WritableFiles>(
    alloc: Global,
    files: &mut F,
    ctx: &Ctx,
    offset: u64,
    count: u32,
    stability: Stability,
    text: &[u8],
    file: &InodeAttributes,
) -> Result<Done<Written>, F::Suspend>
    ensures err { IfErr result (λ suspend. F.may_suspend (F.source files.old) suspend) }
    ensures source { F.source files.new ≡ F.source files.old }
    ensures dirty_count { F.dirty_count files.new ≤ F.dirty_count files.old + 71 }
    ensures resumable { IfErr result (λ suspend. (world : F.World) (tree : Tree) → F.stands files.old world tree
        → F.is_resumable suspend) }
    ensures ok { IfOk result (λ done. (world : F.World) (tree : Tree) (body : Body)
        → F.stands files.old world tree → IsFileIn tree file.now body
        → SoundInodeAttributes tree.geometry.inodes (touched_inode_attributes ctx.now.moment file.now)
        → IsActed (F.stands files.new world) tree file.now.number
        (write tree ctx.now offset count stability text.now file.now.number (node_of file.now body))
        done.outcome done.inode_attributes) }
{
    if let Some(status) = write_refusal(&ctx.credential, offset, count, text, file) {
        return Ok(refused(status, file));
    }
    let reply = written_reply(ctx, count, stability);
    if text.len() == 0 {
        return Ok(Done {
            outcome: Ok(reply),
            inode_attributes: *file,
        });
    }
    match write_text(alloc, files, &ctx.moment, offset, text, file)? {
        Some(inode_attributes) => Ok(Done {
            outcome: Ok(reply),
            inode_attributes,
        }),
        None => Ok(refused(Status::NoSpc, file)),
    }
}

/// Writes the file that a handle names, or says why not.
pub fn write<F: WritableFiles>(
    alloc: Global,
    files: &mut F,
    ctx: &Ctx,
    handle: &Handle,
    offset: u64,
    count: u32,
    stability: Stability,
    text: &[u8],
) -> Result<Changed<Written>, F::Suspend>
    ensures err { IfErr result (λ suspend. F.may_suspend (F.source files.old) suspend) }
    ensures source { F.source files.new ≡ F.source files.old }
    ensures dirty_count { F.dirty_count files.new ≤ F.dirty_count files.old + 71 }
    ensures resumable { IfErr result (λ suspend. (world : F.World) (tree : Tree) → F.stands files.old world tree
        → F.is_resumable suspend) }
    ensures ok { IfOk result (λ done. (world : F.World) (tree : Tree) → F.stands files.old world tree
        → Sound tree → SoundCtx ctx.now → (next : Tree)
        × WriteStep tree ctx.now handle.now.bytes offset count stability text.now done.outcome done.file next
        × F.stands files.new world next) }
{
    match find(files, handle)? {
        Err(status) => Ok(unfound(status)),
        Ok(file) => {
            let done = write_in(alloc, files, ctx, offset, count, stability, text, &file)?;
            Ok(changed(&file, done))
        }
    }
}
