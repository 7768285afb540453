//! Writing the results of calls (RFC 1813, sections 3.3 and 5.2).
ghost use Rattle.std.specs.Prelude.{◌≡◌, ◌⊎◌, ◌++◌, ◌+◌, ◌-◌, ◌^◌, ◌≤◌, length, min, true, false, IfOk, IfErr};
ghost use Rattle.std.specs.Prelude.{IfSome, IfNone, alloc_error};
ghost use Rattle.xdr.specs.Writing.{Writes, WritesBytes};
ghost use Rattle.xdr.specs.declared.fault.XdrFault.TheVariants.{Length, NoMemory};
ghost use Rattle.xdr.specs.Items.{word};
ghost use Rattle.nfs_results.specs.Results as codes;
ghost use Rattle.nfs_results.specs.Results.{nfs_result_bytes, mount_result_bytes, nfs_result_header};
ghost use Rattle.nfs_results.specs.Results.{read_result_header};
ghost use Rattle.nfs_results.specs.Results.{nfs_too_long, mount_too_long};
ghost use Rattle.nfs_codec.specs.Statuses.{status_number};

use crate::data::{data_len, put_data};
use crate::entries::{put_listed, put_listed_plus};
use crate::file_attributes::{put_attributes, put_optional_attributes, put_weak_cache};
use crate::outcomes::{
    put_created, put_info, put_limits, put_lookup_result, put_mounted, put_space, put_written,
};
use nfs_codec::{number_of_status, put_text, put_verifier};
use nfs_types::{
    Attributes, Created, FileSystemInfo, FileSystemSpace, Listed, ListedPlus, LookupResult,
    MountReply, Mounted, Octets, PathLimits, ReadBytes, Reply, Status, Verifier, WeakCacheData,
    Written,
};
use std::alloc::Global;
use xdr::{Writer, XdrFault};

/// Writes the result of a procedure of NFS behind what is there.
pub fn put_reply(out: &mut Writer, reply: &Reply) -> Result<(), XdrFault>
    ensures { WritesBytes result out.old out.new (nfs_result_bytes reply.now) (nfs_too_long reply.now) }
{
    put_result_header(out, reply)?;
    put_data(out, reply)
}

/// Writes the same where the writer has the capacity for it: that takes no memory.
pub fn encode_into(reply: &Reply, out: &mut Writer)
    requires short { nfs_too_long reply.now ≡ false }
    requires capacity { length out.old.bytes + length (nfs_result_bytes reply.now) ≤ out.old.capacity }
    ensures written { out.new.bytes ≡ out.old.bytes ++ nfs_result_bytes reply.now }
    ensures capacity { out.old.capacity ≤ out.new.capacity }
    ensures counts { out.new.counts ≡ out.old.counts }
{
    match put_reply(out, reply) {
        Ok(()) => {}
        Err(_) => unreachable!(),
    }
}

/// How many bytes the result of a procedure of NFS has, or 2^64 - 1 where they are more. None where it has a length that
/// four bytes can't tell. It takes no memory.
pub fn reply_len(alloc: Global, reply: &Reply) -> Option<usize>
    ensures some { IfSome result (λ n. (n ≡ min (length (nfs_result_bytes reply.now)) (2 ^ 64 - 1))
        × (nfs_too_long reply.now ≡ false)) }
    ensures none { IfNone result (nfs_too_long reply.now ≡ true) }
{
    let mut out = Writer::counting(alloc);
    match put_result_header(&mut out, reply) {
        Ok(()) => Some(out.count().saturating_add(data_len(reply))),
        Err(_) => None,
    }
}

/// The result of a procedure of NFS.
pub fn encode_reply(alloc: Global, reply: &Reply) -> Result<Vec<u8>, XdrFault>
    ensures ok { IfOk result (λ bytes. (bytes.items ≡ nfs_result_bytes reply.now) × (nfs_too_long reply.now ≡ false)) }
    ensures err { IfErr result (λ e. ((e ≡ Length) × (nfs_too_long reply.now ≡ true)) ⊎ (e ≡ NoMemory alloc_error)) }
{
    let mut out = Writer::new(alloc);
    put_reply(&mut out, reply)?;
    Ok(out.into_bytes())
}

// All of it but the data of a READ.
fn put_result_header(out: &mut Writer, reply: &Reply) -> Result<(), XdrFault>
    ensures { WritesBytes result out.old out.new (nfs_result_header reply.now) (nfs_too_long reply.now) }
{
    match reply {
        Reply::Null => Ok(()),
        Reply::GetAttr { outcome } => put_get_attr(out, outcome),
        Reply::SetAttr { outcome, object } => put_set_attr(out, outcome, object),
        Reply::Lookup { outcome, directory } => put_lookup(out, outcome, directory),
        Reply::Access { outcome, object } => put_access(out, outcome, object),
        Reply::ReadLink { outcome, link } => put_read_link(out, outcome, link),
        Reply::Read { outcome, file } => put_read(out, outcome, file),
        Reply::Write { outcome, file } => put_write(out, outcome, file),
        Reply::Create { outcome, directory } => put_create(out, outcome, directory),
        Reply::MkDir { outcome, directory } => put_create(out, outcome, directory),
        Reply::SymLink { outcome, directory } => put_create(out, outcome, directory),
        Reply::MkNod { outcome, directory } => put_create(out, outcome, directory),
        Reply::Remove { outcome, directory } => put_remove(out, outcome, directory),
        Reply::RmDir { outcome, directory } => put_remove(out, outcome, directory),
        Reply::Rename {
            outcome,
            source,
            target,
        } => put_rename(out, outcome, source, target),
        Reply::Link {
            outcome,
            file,
            directory,
        } => put_link(out, outcome, file, directory),
        Reply::ReadDir { outcome, directory } => put_read_dir(out, outcome, directory),
        Reply::ReadDirPlus { outcome, directory } => put_read_dir_plus(out, outcome, directory),
        Reply::FsStat { outcome, object } => put_fs_stat(out, outcome, object),
        Reply::FsInfo { outcome, object } => put_fs_info(out, outcome, object),
        Reply::PathConf { outcome, object } => put_path_conf(out, outcome, object),
        Reply::Commit { outcome, file } => put_commit(out, outcome, file),
    }
}

/// Writes the result of a procedure of MOUNT behind what is there.
pub fn put_mount_reply(out: &mut Writer, reply: &MountReply) -> Result<(), XdrFault>
    ensures { WritesBytes result out.old out.new (mount_result_bytes reply.now) (mount_too_long reply.now) }
{
    match reply {
        MountReply::Null => Ok(()),
        MountReply::Mount { outcome } => put_mount_root(out, outcome),
        MountReply::Unmount => Ok(()),
    }
}

#[tactic(auto, unfolding(crate::specs::Results::get_attr))]
fn put_get_attr(out: &mut Writer, outcome: &Result<Attributes, Status>) -> Result<(), XdrFault>
    ensures { Writes codes.get_attr result out.old out.new outcome.now }
{
    match outcome {
        Ok(done) => {
            out.unsigned(0)?;
            put_attributes(out, done)
        }
        Err(status) => out.unsigned(number_of_status(*status)),
    }
}

#[tactic(auto, unfolding(crate::specs::Results::set_attr))]
fn put_set_attr(
    out: &mut Writer,
    outcome: &Result<(), Status>,
    object: &WeakCacheData,
) -> Result<(), XdrFault>
    ensures { Writes codes.set_attr result out.old out.new (outcome.now, object.now) }
{
    match outcome {
        Ok(()) => {
            out.unsigned(0)?;
            put_weak_cache(out, object)
        }
        Err(status) => {
            out.unsigned(number_of_status(*status))?;
            put_weak_cache(out, object)
        }
    }
}

#[tactic(auto, unfolding(crate::specs::Results::lookup))]
fn put_lookup(
    out: &mut Writer,
    outcome: &Result<LookupResult, Status>,
    directory: &Option<Attributes>,
) -> Result<(), XdrFault>
    ensures { Writes codes.lookup result out.old out.new (outcome.now, directory.now) }
{
    match outcome {
        Ok(done) => {
            out.unsigned(0)?;
            put_lookup_result(out, done)?;
            put_optional_attributes(out, directory)
        }
        Err(status) => {
            out.unsigned(number_of_status(*status))?;
            put_optional_attributes(out, directory)
        }
    }
}

#[tactic(auto, unfolding(crate::specs::Results::access))]
fn put_access(
    out: &mut Writer,
    outcome: &Result<u32, Status>,
    object: &Option<Attributes>,
) -> Result<(), XdrFault>
    ensures { Writes codes.access result out.old out.new (outcome.now, object.now) }
{
    match outcome {
        Ok(done) => {
            out.unsigned(0)?;
            put_optional_attributes(out, object)?;
            out.unsigned(*done)
        }
        Err(status) => {
            out.unsigned(number_of_status(*status))?;
            put_optional_attributes(out, object)
        }
    }
}

#[tactic(auto, unfolding(crate::specs::Results::read_link))]
fn put_read_link(
    out: &mut Writer,
    outcome: &Result<Octets, Status>,
    link: &Option<Attributes>,
) -> Result<(), XdrFault>
    ensures { Writes codes.read_link result out.old out.new (outcome.now, link.now) }
{
    match outcome {
        Ok(done) => {
            out.unsigned(0)?;
            put_optional_attributes(out, link)?;
            put_text(out, done)
        }
        Err(status) => {
            out.unsigned(number_of_status(*status))?;
            put_optional_attributes(out, link)
        }
    }
}

// All but the data.
#[tactic(auto, unfolding(crate::specs::Results::read, crate::specs::Results::read_bytes, nfs_codec::specs::Items::text))]
fn put_read(
    out: &mut Writer,
    outcome: &Result<ReadBytes, Status>,
    file: &Option<Attributes>,
) -> Result<(), XdrFault>
    ensures { WritesBytes result out.old out.new (read_result_header outcome.now file.now)
        (codes.read.too_long (outcome.now, file.now)) }
{
    match outcome {
        Ok(done) => {
            out.unsigned(0)?;
            put_optional_attributes(out, file)?;
            out.unsigned(done.count)?;
            out.flag(done.eof)?;
            out.length(done.bytes.len())
        }
        Err(status) => {
            out.unsigned(number_of_status(*status))?;
            put_optional_attributes(out, file)
        }
    }
}

#[tactic(auto, unfolding(crate::specs::Results::write))]
fn put_write(
    out: &mut Writer,
    outcome: &Result<Written, Status>,
    file: &WeakCacheData,
) -> Result<(), XdrFault>
    ensures { Writes codes.write result out.old out.new (outcome.now, file.now) }
{
    match outcome {
        Ok(done) => {
            out.unsigned(0)?;
            put_weak_cache(out, file)?;
            put_written(out, done)
        }
        Err(status) => {
            out.unsigned(number_of_status(*status))?;
            put_weak_cache(out, file)
        }
    }
}

#[tactic(auto, unfolding(crate::specs::Results::create))]
fn put_create(
    out: &mut Writer,
    outcome: &Result<Created, Status>,
    directory: &WeakCacheData,
) -> Result<(), XdrFault>
    ensures { Writes codes.create result out.old out.new (outcome.now, directory.now) }
{
    match outcome {
        Ok(done) => {
            out.unsigned(0)?;
            put_created(out, done)?;
            put_weak_cache(out, directory)
        }
        Err(status) => {
            out.unsigned(number_of_status(*status))?;
            put_weak_cache(out, directory)
        }
    }
}

#[tactic(auto, unfolding(crate::specs::Results::remove))]
fn put_remove(
    out: &mut Writer,
    outcome: &Result<(), Status>,
    directory: &WeakCacheData,
) -> Result<(), XdrFault>
    ensures { Writes codes.remove result out.old out.new (outcome.now, directory.now) }
{
    match outcome {
        Ok(()) => {
            out.unsigned(0)?;
            put_weak_cache(out, directory)
        }
        Err(status) => {
            out.unsigned(number_of_status(*status))?;
            put_weak_cache(out, directory)
        }
    }
}

#[tactic(auto, unfolding(crate::specs::Results::rename))]
fn put_rename(
    out: &mut Writer,
    outcome: &Result<(), Status>,
    source: &WeakCacheData,
    target: &WeakCacheData,
) -> Result<(), XdrFault>
    ensures { Writes codes.rename result out.old out.new (outcome.now, (source.now, target.now)) }
{
    match outcome {
        Ok(()) => {
            out.unsigned(0)?;
            put_weak_cache(out, source)?;
            put_weak_cache(out, target)
        }
        Err(status) => {
            out.unsigned(number_of_status(*status))?;
            put_weak_cache(out, source)?;
            put_weak_cache(out, target)
        }
    }
}

#[tactic(auto, unfolding(crate::specs::Results::link))]
fn put_link(
    out: &mut Writer,
    outcome: &Result<(), Status>,
    file: &Option<Attributes>,
    directory: &WeakCacheData,
) -> Result<(), XdrFault>
    ensures { Writes codes.link result out.old out.new (outcome.now, (file.now, directory.now)) }
{
    match outcome {
        Ok(()) => {
            out.unsigned(0)?;
            put_optional_attributes(out, file)?;
            put_weak_cache(out, directory)
        }
        Err(status) => {
            out.unsigned(number_of_status(*status))?;
            put_optional_attributes(out, file)?;
            put_weak_cache(out, directory)
        }
    }
}

#[tactic(auto, unfolding(crate::specs::Results::read_dir))]
fn put_read_dir(
    out: &mut Writer,
    outcome: &Result<Listed, Status>,
    directory: &Option<Attributes>,
) -> Result<(), XdrFault>
    ensures { Writes codes.read_dir result out.old out.new (outcome.now, directory.now) }
{
    match outcome {
        Ok(done) => {
            out.unsigned(0)?;
            put_optional_attributes(out, directory)?;
            put_listed(out, done)
        }
        Err(status) => {
            out.unsigned(number_of_status(*status))?;
            put_optional_attributes(out, directory)
        }
    }
}

#[tactic(auto, unfolding(crate::specs::Results::read_dir_plus))]
fn put_read_dir_plus(
    out: &mut Writer,
    outcome: &Result<ListedPlus, Status>,
    directory: &Option<Attributes>,
) -> Result<(), XdrFault>
    ensures { Writes codes.read_dir_plus result out.old out.new (outcome.now, directory.now) }
{
    match outcome {
        Ok(done) => {
            out.unsigned(0)?;
            put_optional_attributes(out, directory)?;
            put_listed_plus(out, done)
        }
        Err(status) => {
            out.unsigned(number_of_status(*status))?;
            put_optional_attributes(out, directory)
        }
    }
}

#[tactic(auto, unfolding(crate::specs::Results::fs_stat))]
fn put_fs_stat(
    out: &mut Writer,
    outcome: &Result<FileSystemSpace, Status>,
    object: &Option<Attributes>,
) -> Result<(), XdrFault>
    ensures { Writes codes.fs_stat result out.old out.new (outcome.now, object.now) }
{
    match outcome {
        Ok(done) => {
            out.unsigned(0)?;
            put_optional_attributes(out, object)?;
            put_space(out, done)
        }
        Err(status) => {
            out.unsigned(number_of_status(*status))?;
            put_optional_attributes(out, object)
        }
    }
}

#[tactic(auto, unfolding(crate::specs::Results::fs_info))]
fn put_fs_info(
    out: &mut Writer,
    outcome: &Result<FileSystemInfo, Status>,
    object: &Option<Attributes>,
) -> Result<(), XdrFault>
    ensures { Writes codes.fs_info result out.old out.new (outcome.now, object.now) }
{
    match outcome {
        Ok(done) => {
            out.unsigned(0)?;
            put_optional_attributes(out, object)?;
            put_info(out, done)
        }
        Err(status) => {
            out.unsigned(number_of_status(*status))?;
            put_optional_attributes(out, object)
        }
    }
}

#[tactic(auto, unfolding(crate::specs::Results::path_conf))]
fn put_path_conf(
    out: &mut Writer,
    outcome: &Result<PathLimits, Status>,
    object: &Option<Attributes>,
) -> Result<(), XdrFault>
    ensures { Writes codes.path_conf result out.old out.new (outcome.now, object.now) }
{
    match outcome {
        Ok(done) => {
            out.unsigned(0)?;
            put_optional_attributes(out, object)?;
            put_limits(out, done)
        }
        Err(status) => {
            out.unsigned(number_of_status(*status))?;
            put_optional_attributes(out, object)
        }
    }
}

#[tactic(auto, unfolding(crate::specs::Results::commit))]
fn put_commit(
    out: &mut Writer,
    outcome: &Result<Verifier, Status>,
    file: &WeakCacheData,
) -> Result<(), XdrFault>
    ensures { Writes codes.commit result out.old out.new (outcome.now, file.now) }
{
    match outcome {
        Ok(done) => {
            out.unsigned(0)?;
            put_weak_cache(out, file)?;
            put_verifier(out, done)
        }
        Err(status) => {
            out.unsigned(number_of_status(*status))?;
            put_weak_cache(out, file)
        }
    }
}

#[tactic(auto, unfolding(crate::specs::Results::mount_root))]
fn put_mount_root(out: &mut Writer, outcome: &Result<Mounted, Status>) -> Result<(), XdrFault>
    ensures { Writes codes.mount_root result out.old out.new outcome.now }
{
    match outcome {
        Ok(done) => {
            out.unsigned(0)?;
            put_mounted(out, done)
        }
        Err(status) => out.unsigned(number_of_status(*status)),
    }
}
