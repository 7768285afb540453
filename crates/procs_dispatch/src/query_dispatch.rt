//! Calls that only tell something: which procedure answers which call.
ghost use Rattle.std.specs.Prelude.{◌≡◌, ℕ, IfErr, IfOk, IfSome, Option, is_some};
ghost use Rattle.nfs_spec.specs.Model.Tree.{Tree};
ghost use Rattle.nfs_spec.specs.Procedures.Step.{numbered_step};
ghost use Rattle.procs_dispatch.specs.Kinds.{tells};

use nfs_types::{Call, Ctx, Reply};
use procs_files::Files;
use procs_queries::{
    access, commit, file_system_info, file_system_space, get_attributes, lookup_name, make_special,
    path_limits, read, read_directory, read_directory_plus, read_link,
};
use std::alloc::Global;

/// What a call that only tells something is answered. The other calls and NULL have no answer here.
pub fn tell<F: Files>(
    alloc: Global,
    files: &F,
    ctx: &Ctx,
    call: &Call,
) -> Result<Option<Reply>, F::Suspend>
    ensures err { IfErr result (λ suspend. F.may_suspend (F.source files.now) suspend) }
    ensures resumable { IfErr result (λ suspend. (world : F.World) (tree : Tree) → F.stands files.now world tree
        → F.is_resumable suspend) }
    ensures step { IfOk result (λ r. IfSome r (λ reply. (world : F.World) (tree : Tree) (new : Option ℕ)
        → F.stands files.now world tree → numbered_step tree ctx.now new call.now reply tree)) }
    ensures known { IfOk result (λ r. is_some r ≡ tells call.now) }
{
    match call {
        Call::GetAttr { object } => {
            let outcome = get_attributes(files, object)?;
            Ok(Some(Reply::GetAttr { outcome }))
        }
        Call::Lookup { name } => {
            let query_reply = lookup_name(alloc, files, ctx, name)?;
            Ok(Some(Reply::Lookup {
                outcome: query_reply.outcome,
                directory: query_reply.object,
            }))
        }
        Call::Access { object, bits } => {
            let query_reply = access(files, ctx, object, *bits)?;
            Ok(Some(Reply::Access {
                outcome: query_reply.outcome,
                object: query_reply.object,
            }))
        }
        Call::ReadLink { link } => {
            let query_reply = read_link(alloc, files, link)?;
            Ok(Some(Reply::ReadLink {
                outcome: query_reply.outcome,
                link: query_reply.object,
            }))
        }
        Call::Read {
            file,
            offset,
            count,
        } => {
            let query_reply = read(alloc, files, ctx, file, *offset, *count)?;
            Ok(Some(Reply::Read {
                outcome: query_reply.outcome,
                file: query_reply.object,
            }))
        }
        Call::MkNod { name, .. } => {
            let query_reply = make_special(files, &name.directory)?;
            Ok(Some(Reply::MkNod {
                outcome: query_reply.outcome,
                directory: query_reply.file,
            }))
        }
        Call::ReadDir {
            directory,
            cookie,
            verifier,
            count,
        } => {
            let query_reply = read_directory(
                alloc, files, ctx, directory, *cookie, verifier, *count,
            )?;
            Ok(Some(Reply::ReadDir {
                outcome: query_reply.outcome,
                directory: query_reply.object,
            }))
        }
        Call::ReadDirPlus {
            directory,
            cookie,
            verifier,
            directory_count,
            greatest_count,
        } => {
            let query_reply = read_directory_plus(
                alloc,
                files,
                ctx,
                directory,
                *cookie,
                verifier,
                *directory_count,
                *greatest_count,
            )?;
            Ok(Some(Reply::ReadDirPlus {
                outcome: query_reply.outcome,
                directory: query_reply.object,
            }))
        }
        Call::FsStat { object } => {
            let query_reply = file_system_space(files, object)?;
            Ok(Some(Reply::FsStat {
                outcome: query_reply.outcome,
                object: query_reply.object,
            }))
        }
        Call::FsInfo { object } => {
            let query_reply = file_system_info(files, object)?;
            Ok(Some(Reply::FsInfo {
                outcome: query_reply.outcome,
                object: query_reply.object,
            }))
        }
        Call::PathConf { object } => {
            let query_reply = path_limits(files, object)?;
            Ok(Some(Reply::PathConf {
                outcome: query_reply.outcome,
                object: query_reply.object,
            }))
        }
        Call::Commit { file, .. } => {
            let query_reply = commit(files, ctx, file)?;
            Ok(Some(Reply::Commit {
                outcome: query_reply.outcome,
                file: query_reply.file,
            }))
        }
        _ => Ok(None),
    }
}
