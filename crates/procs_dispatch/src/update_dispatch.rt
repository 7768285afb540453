//! Calls that change files: which procedure answers which call.
ghost use Rattle.std.specs.Prelude.{◌≡◌, ◌+◌, ◌≤◌, IfErr, IfOk, IfSome, is_some};
ghost use Rattle.nfs_types.specs.Fits.{CallFits};
ghost use Rattle.nfs_spec.specs.Model.Sound.{Sound, SoundCtx};
ghost use Rattle.nfs_spec.specs.Model.Tree.{Tree};
ghost use Rattle.procs_dispatch.specs.Kinds.{changes};
ghost use Rattle.procs_dispatch.specs.Leads.{IsStepTo};

use nfs_types::{Call, Ctx, Reply};
use procs_files::WritableFiles;
use procs_names::{link, remove, remove_directory};
use procs_renames::rename;
use procs_updates::{create, make_directory, make_link, set_attributes, write};
use std::alloc::Global;

/// What a call that changes files is answered. The other calls have no answer here.
pub fn change<F: WritableFiles>(
    alloc: Global,
    files: &mut F,
    ctx: &Ctx,
    call: &Call,
) -> Result<Option<Reply>, F::Suspend>
    ensures err { IfErr result (λ suspend. F.may_suspend (F.source files.old) suspend) }
    ensures source { F.source files.new ≡ F.source files.old }
    ensures dirty_count { F.dirty_count files.new ≤ F.dirty_count files.old + 71 }
    ensures resumable { IfErr result (λ suspend. (world : F.World) (tree : Tree) → F.stands files.old world tree
        → Sound tree → SoundCtx ctx.now → CallFits call.now → F.is_resumable suspend) }
    ensures step { IfOk result (λ r. IfSome r (λ reply. (world : F.World) (tree : Tree)
        → F.stands files.old world tree → Sound tree → SoundCtx ctx.now → CallFits call.now
        → IsStepTo (F.stands files.new world) tree ctx.now call.now reply)) }
    ensures known { IfOk result (λ r. is_some r ≡ changes call.now) }
{
    match call {
        Call::SetAttr {
            object,
            attributes,
            guard,
        } => {
            let done = set_attributes(files, ctx, object, attributes, guard)?;
            Ok(Some(Reply::SetAttr {
                outcome: done.outcome,
                object: done.file,
            }))
        }
        Call::Write {
            file,
            offset,
            count,
            stability,
            bytes,
        } => {
            let text = bytes.as_slice();
            let done = write(alloc, files, ctx, file, *offset, *count, *stability, text)?;
            Ok(Some(Reply::Write {
                outcome: done.outcome,
                file: done.file,
            }))
        }
        Call::Create { name, how } => {
            let done = create(alloc, files, ctx, name, how)?;
            Ok(Some(Reply::Create {
                outcome: done.outcome,
                directory: done.file,
            }))
        }
        Call::MkDir { name, attributes } => {
            let done = make_directory(alloc, files, ctx, name, attributes)?;
            Ok(Some(Reply::MkDir {
                outcome: done.outcome,
                directory: done.file,
            }))
        }
        Call::SymLink {
            name,
            attributes,
            target,
        } => {
            let done = make_link(alloc, files, ctx, name, attributes, target)?;
            Ok(Some(Reply::SymLink {
                outcome: done.outcome,
                directory: done.file,
            }))
        }
        Call::Remove { name } => {
            let done = remove(files, ctx, name)?;
            Ok(Some(Reply::Remove {
                outcome: done.outcome,
                directory: done.file,
            }))
        }
        Call::RmDir { name } => {
            let done = remove_directory(files, ctx, name)?;
            Ok(Some(Reply::RmDir {
                outcome: done.outcome,
                directory: done.file,
            }))
        }
        Call::Rename { source, target } => {
            let done = rename(alloc, files, ctx, source, target)?;
            Ok(Some(Reply::Rename {
                outcome: done.outcome,
                source: done.source,
                target: done.target,
            }))
        }
        Call::Link { file, name } => {
            let done = link(alloc, files, ctx, file, name)?;
            Ok(Some(Reply::Link {
                outcome: done.outcome,
                file: done.file,
                directory: done.directory,
            }))
        }
        _ => Ok(None),
    }
}
