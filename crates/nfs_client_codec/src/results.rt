//! Reading the results of replies (RFC 1813, sections 3.3 and 5.2).
ghost use Rattle.std.specs.Prelude.{◌≡◌};
ghost use Rattle.nfs_types.specs.declared.program.ProgramProcedure.TheVariants as procedures;
ghost use Rattle.xdr.specs.Reading.{Gives};
ghost use Rattle.nfs_results.specs.Results as codes;

use crate::by_status::{decode_before, decode_behind, decode_default_void};
use nfs_types::{
    Attributes, Created, FileSystemInfo, FileSystemSpace, Listed, ListedPlus, LookupResult,
    MountProcedure, MountReply, Mounted, Octets, PathLimits, Procedure, ProgramProcedure,
    ProgramReply, ReadBytes, Reply, Verifier, WeakCacheData, Written,
};
use std::alloc::Global;
use xdr::{Reader, XdrFault};

/// The reply to a procedure whose result all of these bytes spell.
pub fn decode_reply(
    alloc: Global,
    procedure: ProgramProcedure,
    bytes: &[u8],
) -> Result<ProgramReply, XdrFault>
    ensures { Gives (λ r. r) result (codes.reply_of procedure bytes.now) }
{
    let mut reader = Reader::new(bytes);
    let reply = read_result(alloc, procedure, &mut reader)?;
    reader.end()?;
    Ok(reply)
}

/// The reply to a procedure whose result comes next.
pub fn read_result(
    alloc: Global,
    procedure: ProgramProcedure,
    reader: &mut Reader,
) -> Result<ProgramReply, XdrFault>
    ensures { Gives (λ r. (r, reader.new)) result (codes.reply_at procedure reader.old) }
{
    match procedure {
        ProgramProcedure::Nfs(procedure) => Ok(ProgramReply::Nfs(read_nfs_result(
            alloc, procedure, reader,
        )?)),
        ProgramProcedure::Mount(procedure) => Ok(ProgramReply::Mount(read_mount_result(
            alloc, procedure, reader,
        )?)),
    }
}

#[tactic(auto, unfolding(nfs_results::specs::Results::get_attr, nfs_results::specs::Results::set_attr, nfs_results::specs::Results::lookup, nfs_results::specs::Results::access, nfs_results::specs::Results::read_link, nfs_results::specs::Results::read, nfs_results::specs::Results::write, nfs_results::specs::Results::create, nfs_results::specs::Results::remove, nfs_results::specs::Results::rename, nfs_results::specs::Results::link, nfs_results::specs::Results::read_dir, nfs_results::specs::Results::read_dir_plus, nfs_results::specs::Results::fs_stat, nfs_results::specs::Results::fs_info, nfs_results::specs::Results::path_conf, nfs_results::specs::Results::commit, nfs_codec::specs::Items::optional_attributes,))]
fn read_nfs_result(
    alloc: Global,
    procedure: Procedure,
    reader: &mut Reader,
) -> Result<Reply, XdrFault>
    ensures { Gives (λ r. (r, reader.new)) result (codes.nfs_reply_at procedure reader.old) }
{
    match procedure {
        Procedure::Null => Ok(Reply::Null),
        Procedure::GetAttr => Ok(Reply::GetAttr {
            outcome: decode_default_void::<Attributes>(alloc, reader)?,
        }),
        Procedure::SetAttr => {
            let (outcome, object) = decode_behind::<WeakCacheData, ()>(alloc, reader)?;
            Ok(Reply::SetAttr { outcome, object })
        }
        Procedure::Lookup => {
            let (outcome, directory) = decode_before::<LookupResult, Option<Attributes>>(
                alloc, reader,
            )?;
            Ok(Reply::Lookup { outcome, directory })
        }
        Procedure::Access => {
            let (outcome, object) = decode_behind::<Option<Attributes>, u32>(alloc, reader)?;
            Ok(Reply::Access { outcome, object })
        }
        Procedure::ReadLink => {
            let (outcome, link) = decode_behind::<Option<Attributes>, Octets>(alloc, reader)?;
            Ok(Reply::ReadLink { outcome, link })
        }
        Procedure::Read => {
            let (outcome, file) = decode_behind::<Option<Attributes>, ReadBytes>(alloc, reader)?;
            Ok(Reply::Read { outcome, file })
        }
        Procedure::Write => {
            let (outcome, file) = decode_behind::<WeakCacheData, Written>(alloc, reader)?;
            Ok(Reply::Write { outcome, file })
        }
        Procedure::Create => {
            let (outcome, directory) = decode_before::<Created, WeakCacheData>(alloc, reader)?;
            Ok(Reply::Create { outcome, directory })
        }
        Procedure::MkDir => {
            let (outcome, directory) = decode_before::<Created, WeakCacheData>(alloc, reader)?;
            Ok(Reply::MkDir { outcome, directory })
        }
        Procedure::SymLink => {
            let (outcome, directory) = decode_before::<Created, WeakCacheData>(alloc, reader)?;
            Ok(Reply::SymLink { outcome, directory })
        }
        Procedure::MkNod => {
            let (outcome, directory) = decode_before::<Created, WeakCacheData>(alloc, reader)?;
            Ok(Reply::MkNod { outcome, directory })
        }
        Procedure::Remove => {
            let (outcome, directory) = decode_behind::<WeakCacheData, ()>(alloc, reader)?;
            Ok(Reply::Remove { outcome, directory })
        }
        Procedure::RmDir => {
            let (outcome, directory) = decode_behind::<WeakCacheData, ()>(alloc, reader)?;
            Ok(Reply::RmDir { outcome, directory })
        }
        Procedure::Rename => {
            let (outcome, (source, target)) = decode_behind::<(WeakCacheData, WeakCacheData), ()>(
                alloc, reader,
            )?;
            Ok(Reply::Rename {
                outcome,
                source,
                target,
            })
        }
        Procedure::Link => {
            let (outcome, (file, directory)) = decode_behind::<
                (Option<Attributes>, WeakCacheData),
                (),
            >(alloc, reader)?;
            Ok(Reply::Link {
                outcome,
                file,
                directory,
            })
        }
        Procedure::ReadDir => {
            let (outcome, directory) = decode_behind::<Option<Attributes>, Listed>(alloc, reader)?;
            Ok(Reply::ReadDir { outcome, directory })
        }
        Procedure::ReadDirPlus => {
            let (outcome, directory) = decode_behind::<Option<Attributes>, ListedPlus>(
                alloc, reader,
            )?;
            Ok(Reply::ReadDirPlus { outcome, directory })
        }
        Procedure::FsStat => {
            let (outcome, object) = decode_behind::<Option<Attributes>, FileSystemSpace>(
                alloc, reader,
            )?;
            Ok(Reply::FsStat { outcome, object })
        }
        Procedure::FsInfo => {
            let (outcome, object) = decode_behind::<Option<Attributes>, FileSystemInfo>(
                alloc, reader,
            )?;
            Ok(Reply::FsInfo { outcome, object })
        }
        Procedure::PathConf => {
            let (outcome, object) = decode_behind::<Option<Attributes>, PathLimits>(alloc, reader)?;
            Ok(Reply::PathConf { outcome, object })
        }
        Procedure::Commit => {
            let (outcome, file) = decode_behind::<WeakCacheData, Verifier>(alloc, reader)?;
            Ok(Reply::Commit { outcome, file })
        }
    }
}

#[tactic(auto, unfolding(nfs_results::specs::Results::mount_root))]
fn read_mount_result(
    alloc: Global,
    procedure: MountProcedure,
    reader: &mut Reader,
) -> Result<MountReply, XdrFault>
    ensures { Gives (λ r. (r, reader.new)) result (codes.mount_reply_at procedure reader.old) }
{
    match procedure {
        MountProcedure::Null => Ok(MountReply::Null),
        MountProcedure::Mount => Ok(MountReply::Mount {
            outcome: decode_default_void::<Mounted>(alloc, reader)?,
        }),
        MountProcedure::Unmount => Ok(MountReply::Unmount),
    }
}
