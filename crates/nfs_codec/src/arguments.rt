//! Reading the arguments of a call (RFC 1813, sections 3.3 and 5.2). Each is read whole before anything is
//! copied, so that memory is refused only to a call that can be read.
ghost use Rattle.std.specs.Prelude.{◌≡◌, ◌<◌, ◌≤◌, ◌+◌, ◌-◌, ℕ, get_or, take, drop, length, IfOk, IfErr, alloc_error};
ghost use Rattle.nfs_types.specs.declared.call.Call.TheVariants as calls;
ghost use Rattle.nfs_types.specs.declared.program.MountProcedure.TheVariants as mount;
ghost use Rattle.nfs_types.specs.declared.program.Procedure.TheVariants as nfs;
ghost use Rattle.nfs_types.specs.declared.program.ProgramCall.TheVariants as program_calls;
ghost use Rattle.nfs_types.specs.declared.program.ProgramProcedure.TheVariants as procedures;
ghost use Rattle.xdr.specs.Items.{padding};
ghost use Rattle.xdr.specs.Reading.{GivesWhole, Reads};
ghost use Rattle.nfs_codec.specs.Arguments.{EndsWith, call_of, path as path_code};

use crate::items::{
    NameBytes, read_create_how, read_directory_name, read_guard, read_handle, read_new_attributes,
    read_special_file, read_stability, read_text, read_verifier,
};
use bytes::Bytes;
use nfs_types::{
    Call, DirectoryName, Handle, MountCall, MountProcedure, Octets, PATH_BYTES, Procedure,
    ProgramCall, ProgramProcedure, SharedOctets, Stability,
};
use std::alloc::Global;
use xdr::{Reader, XdrFault};

/// The call of a procedure that all bytes of a message from one on spell. The data of a WRITE stay where they lie in the
/// message; all else is copied.
pub fn decode_call(
    alloc: Global,
    procedure: ProgramProcedure,
    message: &Bytes,
    from: usize,
) -> Result<ProgramCall, XdrFault>
    requires { from ≤ length message.now }
    ensures { GivesWhole result (call_of procedure (drop from message.now)) }
{
    match procedure {
        ProgramProcedure::Nfs(procedure) => decode_nfs_call(alloc, procedure, message, from),
        ProgramProcedure::Mount(procedure) => {
            decode_mount_call(alloc, procedure, &message.as_slice()[from..])
        }
    }
}

fn decode_nfs_call(
    alloc: Global,
    procedure: Procedure,
    message: &Bytes,
    from: usize,
) -> Result<ProgramCall, XdrFault>
    requires { from ≤ length message.now }
    ensures { GivesWhole result (call_of (procedures.Nfs procedure) (drop from message.now)) }
{
    let arguments = &message.as_slice()[from..];
    match procedure {
        Procedure::Null => decode_null(arguments),
        Procedure::GetAttr => decode_get_attr(alloc, arguments),
        Procedure::SetAttr => decode_set_attr(alloc, arguments),
        Procedure::Lookup => decode_lookup(alloc, arguments),
        Procedure::Access => decode_access(alloc, arguments),
        Procedure::ReadLink => decode_read_link(alloc, arguments),
        Procedure::Read => decode_read(alloc, arguments),
        Procedure::Write => decode_write(alloc, message, from),
        Procedure::Create => decode_create(alloc, arguments),
        Procedure::MkDir => decode_mk_dir(alloc, arguments),
        Procedure::SymLink => decode_sym_link(alloc, arguments),
        Procedure::MkNod => decode_mk_nod(alloc, arguments),
        Procedure::Remove => decode_remove(alloc, arguments),
        Procedure::RmDir => decode_rm_dir(alloc, arguments),
        Procedure::Rename => decode_rename(alloc, arguments),
        Procedure::Link => decode_link(alloc, arguments),
        Procedure::ReadDir => decode_read_dir(alloc, arguments),
        Procedure::ReadDirPlus => decode_read_dir_plus(alloc, arguments),
        Procedure::FsStat => decode_fs_stat(alloc, arguments),
        Procedure::FsInfo => decode_fs_info(alloc, arguments),
        Procedure::PathConf => decode_path_conf(alloc, arguments),
        Procedure::Commit => decode_commit(alloc, arguments),
    }
}

fn decode_mount_call(
    alloc: Global,
    procedure: MountProcedure,
    arguments: &[u8],
) -> Result<ProgramCall, XdrFault>
    ensures { GivesWhole result (call_of (procedures.Mount procedure) arguments.now) }
{
    match procedure {
        MountProcedure::Null => decode_mount_null(arguments),
        MountProcedure::Mount => decode_mount(alloc, arguments),
        MountProcedure::Unmount => decode_unmount(alloc, arguments),
    }
}

fn decode_null(arguments: &[u8]) -> Result<ProgramCall, XdrFault>
    ensures { GivesWhole result (call_of (procedures.Nfs nfs.Null) arguments.now) }
{
    Reader::new(arguments).end()?;
    Ok(ProgramCall::Nfs(Call::Null))
}

fn decode_get_attr(alloc: Global, arguments: &[u8]) -> Result<ProgramCall, XdrFault>
    ensures { GivesWhole result (call_of (procedures.Nfs nfs.GetAttr) arguments.now) }
{
    let mut reader = Reader::new(arguments);
    let object = read_handle(&mut reader)?;
    reader.end()?;
    Ok(ProgramCall::Nfs(Call::GetAttr {
        object: handle(alloc, object)?,
    }))
}

fn decode_set_attr(alloc: Global, arguments: &[u8]) -> Result<ProgramCall, XdrFault>
    ensures { GivesWhole result (call_of (procedures.Nfs nfs.SetAttr) arguments.now) }
{
    let mut reader = Reader::new(arguments);
    let object = read_handle(&mut reader)?;
    let attributes = read_new_attributes(&mut reader)?;
    let guard = read_guard(&mut reader)?;
    reader.end()?;
    Ok(ProgramCall::Nfs(Call::SetAttr {
        object: handle(alloc, object)?,
        attributes,
        guard,
    }))
}

fn decode_lookup(alloc: Global, arguments: &[u8]) -> Result<ProgramCall, XdrFault>
    ensures { GivesWhole result (call_of (procedures.Nfs nfs.Lookup) arguments.now) }
{
    let mut reader = Reader::new(arguments);
    let name = read_directory_name(&mut reader)?;
    reader.end()?;
    Ok(ProgramCall::Nfs(Call::Lookup {
        name: directory_name(alloc, name)?,
    }))
}

fn decode_access(alloc: Global, arguments: &[u8]) -> Result<ProgramCall, XdrFault>
    ensures { GivesWhole result (call_of (procedures.Nfs nfs.Access) arguments.now) }
{
    let mut reader = Reader::new(arguments);
    let object = read_handle(&mut reader)?;
    let bits = reader.unsigned()?;
    reader.end()?;
    Ok(ProgramCall::Nfs(Call::Access {
        object: handle(alloc, object)?,
        bits,
    }))
}

fn decode_read_link(alloc: Global, arguments: &[u8]) -> Result<ProgramCall, XdrFault>
    ensures { GivesWhole result (call_of (procedures.Nfs nfs.ReadLink) arguments.now) }
{
    let mut reader = Reader::new(arguments);
    let link = read_handle(&mut reader)?;
    reader.end()?;
    Ok(ProgramCall::Nfs(Call::ReadLink {
        link: handle(alloc, link)?,
    }))
}

fn decode_read(alloc: Global, arguments: &[u8]) -> Result<ProgramCall, XdrFault>
    ensures { GivesWhole result (call_of (procedures.Nfs nfs.Read) arguments.now) }
{
    let mut reader = Reader::new(arguments);
    let file = read_handle(&mut reader)?;
    let offset = reader.hyper()?;
    let count = reader.unsigned()?;
    reader.end()?;
    Ok(ProgramCall::Nfs(Call::Read {
        file: handle(alloc, file)?,
        offset,
        count,
    }))
}

// The arguments of a WRITE as they stand in the message.
#[derive(Clone, Copy)]
struct WriteBytes<'a> {
    file: &'a [u8],
    offset: u64,
    count: u32,
    stability: Stability,
    bytes: &'a [u8],
}

fn read_write(arguments: &[u8]) -> Result<WriteBytes<'_>, XdrFault>
    ensures { Reads (λ x. program_calls.Nfs
        (calls.Write (record { bytes = x.file.now }) x.offset x.count x.stability x.bytes.now))
        result (call_of (procedures.Nfs nfs.Write) arguments.now) }
{
    let mut reader = Reader::new(arguments);
    let file = read_handle(&mut reader)?;
    let offset = reader.hyper()?;
    let count = reader.unsigned()?;
    let stability = read_stability(&mut reader)?;
    let bytes = read_text(&mut reader)?;
    reader.end()?;
    Ok(WriteBytes {
        file,
        offset,
        count,
        stability,
        bytes,
    })
}

fn decode_write(alloc: Global, message: &Bytes, from: usize) -> Result<ProgramCall, XdrFault>
    requires { from ≤ length message.now }
    ensures { GivesWhole result (call_of (procedures.Nfs nfs.Write) (drop from message.now)) }
{
    let bytes = message.as_slice();
    are_bytes(bytes);
    let write = read_write(&bytes[from..])?;
    owned_write(alloc, message, write)
}

// Each byte is below 256.
fn are_bytes(bytes: &[u8])
    ensures { (index : ℕ) → get_or bytes.now index 0 < 256 }
{}

// The call of a WRITE whose data a message ends with.
fn owned_write(
    alloc: Global,
    message: &Bytes,
    write: WriteBytes<'_>,
) -> Result<ProgramCall, XdrFault>
    requires { EndsWith message.now write.bytes.now }
    ensures ok { IfOk result (λ c. c ≡ program_calls.Nfs (calls.Write (record { bytes = write.entry.file.now })
        write.entry.offset write.entry.count write.entry.stability write.entry.bytes.now)) }
    ensures err { IfErr result (λ e. e ≡ XdrFault.NoMemory alloc_error) }
{
    Ok(ProgramCall::Nfs(Call::Write {
        file: handle(alloc, write.file)?,
        offset: write.offset,
        count: write.count,
        stability: write.stability,
        bytes: last_of(message, write.bytes.len())?,
    }))
}

// The string of this length that a message ends with, but for its padding. None of its bytes is copied.
fn last_of(message: &Bytes, len: usize) -> Result<SharedOctets, XdrFault>
    requires { len + padding len ≤ length message.now }
    ensures ok { IfOk result (λ s. s ≡ take len (drop (length message.now - (len + padding len)) message.now)) }
    ensures err { IfErr result (λ e. e ≡ XdrFault.NoMemory alloc_error) }
{
    let padding = (4 - len % 4) % 4;
    let from = message.len() - (len + padding);
    Ok(SharedOctets::of_bytes(message.slice(from..from + len)?))
}

fn decode_create(alloc: Global, arguments: &[u8]) -> Result<ProgramCall, XdrFault>
    ensures { GivesWhole result (call_of (procedures.Nfs nfs.Create) arguments.now) }
{
    let mut reader = Reader::new(arguments);
    let name = read_directory_name(&mut reader)?;
    let how = read_create_how(&mut reader)?;
    reader.end()?;
    Ok(ProgramCall::Nfs(Call::Create {
        name: directory_name(alloc, name)?,
        how,
    }))
}

fn decode_mk_dir(alloc: Global, arguments: &[u8]) -> Result<ProgramCall, XdrFault>
    ensures { GivesWhole result (call_of (procedures.Nfs nfs.MkDir) arguments.now) }
{
    let mut reader = Reader::new(arguments);
    let name = read_directory_name(&mut reader)?;
    let attributes = read_new_attributes(&mut reader)?;
    reader.end()?;
    Ok(ProgramCall::Nfs(Call::MkDir {
        name: directory_name(alloc, name)?,
        attributes,
    }))
}

fn decode_sym_link(alloc: Global, arguments: &[u8]) -> Result<ProgramCall, XdrFault>
    ensures { GivesWhole result (call_of (procedures.Nfs nfs.SymLink) arguments.now) }
{
    let mut reader = Reader::new(arguments);
    let name = read_directory_name(&mut reader)?;
    let attributes = read_new_attributes(&mut reader)?;
    let target = read_text(&mut reader)?;
    reader.end()?;
    Ok(ProgramCall::Nfs(Call::SymLink {
        name: directory_name(alloc, name)?,
        attributes,
        target: octets(alloc, target)?,
    }))
}

fn decode_mk_nod(alloc: Global, arguments: &[u8]) -> Result<ProgramCall, XdrFault>
    ensures { GivesWhole result (call_of (procedures.Nfs nfs.MkNod) arguments.now) }
{
    let mut reader = Reader::new(arguments);
    let name = read_directory_name(&mut reader)?;
    let special = read_special_file(&mut reader)?;
    reader.end()?;
    Ok(ProgramCall::Nfs(Call::MkNod {
        name: directory_name(alloc, name)?,
        special,
    }))
}

fn decode_remove(alloc: Global, arguments: &[u8]) -> Result<ProgramCall, XdrFault>
    ensures { GivesWhole result (call_of (procedures.Nfs nfs.Remove) arguments.now) }
{
    let mut reader = Reader::new(arguments);
    let name = read_directory_name(&mut reader)?;
    reader.end()?;
    Ok(ProgramCall::Nfs(Call::Remove {
        name: directory_name(alloc, name)?,
    }))
}

fn decode_rm_dir(alloc: Global, arguments: &[u8]) -> Result<ProgramCall, XdrFault>
    ensures { GivesWhole result (call_of (procedures.Nfs nfs.RmDir) arguments.now) }
{
    let mut reader = Reader::new(arguments);
    let name = read_directory_name(&mut reader)?;
    reader.end()?;
    Ok(ProgramCall::Nfs(Call::RmDir {
        name: directory_name(alloc, name)?,
    }))
}

fn decode_rename(alloc: Global, arguments: &[u8]) -> Result<ProgramCall, XdrFault>
    ensures { GivesWhole result (call_of (procedures.Nfs nfs.Rename) arguments.now) }
{
    let mut reader = Reader::new(arguments);
    let source = read_directory_name(&mut reader)?;
    let target = read_directory_name(&mut reader)?;
    reader.end()?;
    Ok(ProgramCall::Nfs(Call::Rename {
        source: directory_name(alloc, source)?,
        target: directory_name(alloc, target)?,
    }))
}

fn decode_link(alloc: Global, arguments: &[u8]) -> Result<ProgramCall, XdrFault>
    ensures { GivesWhole result (call_of (procedures.Nfs nfs.Link) arguments.now) }
{
    let mut reader = Reader::new(arguments);
    let file = read_handle(&mut reader)?;
    let name = read_directory_name(&mut reader)?;
    reader.end()?;
    Ok(ProgramCall::Nfs(Call::Link {
        file: handle(alloc, file)?,
        name: directory_name(alloc, name)?,
    }))
}

fn decode_read_dir(alloc: Global, arguments: &[u8]) -> Result<ProgramCall, XdrFault>
    ensures { GivesWhole result (call_of (procedures.Nfs nfs.ReadDir) arguments.now) }
{
    let mut reader = Reader::new(arguments);
    let directory = read_handle(&mut reader)?;
    let cookie = reader.hyper()?;
    let verifier = read_verifier(&mut reader)?;
    let count = reader.unsigned()?;
    reader.end()?;
    Ok(ProgramCall::Nfs(Call::ReadDir {
        directory: handle(alloc, directory)?,
        cookie,
        verifier,
        count,
    }))
}

fn decode_read_dir_plus(alloc: Global, arguments: &[u8]) -> Result<ProgramCall, XdrFault>
    ensures { GivesWhole result (call_of (procedures.Nfs nfs.ReadDirPlus) arguments.now) }
{
    let mut reader = Reader::new(arguments);
    let directory = read_handle(&mut reader)?;
    let cookie = reader.hyper()?;
    let verifier = read_verifier(&mut reader)?;
    let directory_count = reader.unsigned()?;
    let greatest_count = reader.unsigned()?;
    reader.end()?;
    Ok(ProgramCall::Nfs(Call::ReadDirPlus {
        directory: handle(alloc, directory)?,
        cookie,
        verifier,
        directory_count,
        greatest_count,
    }))
}

fn decode_fs_stat(alloc: Global, arguments: &[u8]) -> Result<ProgramCall, XdrFault>
    ensures { GivesWhole result (call_of (procedures.Nfs nfs.FsStat) arguments.now) }
{
    let mut reader = Reader::new(arguments);
    let object = read_handle(&mut reader)?;
    reader.end()?;
    Ok(ProgramCall::Nfs(Call::FsStat {
        object: handle(alloc, object)?,
    }))
}

fn decode_fs_info(alloc: Global, arguments: &[u8]) -> Result<ProgramCall, XdrFault>
    ensures { GivesWhole result (call_of (procedures.Nfs nfs.FsInfo) arguments.now) }
{
    let mut reader = Reader::new(arguments);
    let object = read_handle(&mut reader)?;
    reader.end()?;
    Ok(ProgramCall::Nfs(Call::FsInfo {
        object: handle(alloc, object)?,
    }))
}

fn decode_path_conf(alloc: Global, arguments: &[u8]) -> Result<ProgramCall, XdrFault>
    ensures { GivesWhole result (call_of (procedures.Nfs nfs.PathConf) arguments.now) }
{
    let mut reader = Reader::new(arguments);
    let object = read_handle(&mut reader)?;
    reader.end()?;
    Ok(ProgramCall::Nfs(Call::PathConf {
        object: handle(alloc, object)?,
    }))
}

fn decode_commit(alloc: Global, arguments: &[u8]) -> Result<ProgramCall, XdrFault>
    ensures { GivesWhole result (call_of (procedures.Nfs nfs.Commit) arguments.now) }
{
    let mut reader = Reader::new(arguments);
    let file = read_handle(&mut reader)?;
    let offset = reader.hyper()?;
    let count = reader.unsigned()?;
    reader.end()?;
    Ok(ProgramCall::Nfs(Call::Commit {
        file: handle(alloc, file)?,
        offset,
        count,
    }))
}

fn decode_mount_null(arguments: &[u8]) -> Result<ProgramCall, XdrFault>
    ensures { GivesWhole result (call_of (procedures.Mount mount.Null) arguments.now) }
{
    let reader = Reader::new(arguments);
    reader.end()?;
    Ok(ProgramCall::Mount(MountCall::Null))
}

fn decode_mount(alloc: Global, arguments: &[u8]) -> Result<ProgramCall, XdrFault>
    ensures { GivesWhole result (call_of (procedures.Mount mount.Mount) arguments.now) }
{
    let mut reader = Reader::new(arguments);
    let path = read_path(&mut reader)?;
    reader.end()?;
    Ok(ProgramCall::Mount(MountCall::Mount {
        path: octets(alloc, path)?,
    }))
}

fn decode_unmount(alloc: Global, arguments: &[u8]) -> Result<ProgramCall, XdrFault>
    ensures { GivesWhole result (call_of (procedures.Mount mount.Unmount) arguments.now) }
{
    let mut reader = Reader::new(arguments);
    let path = read_path(&mut reader)?;
    reader.end()?;
    Ok(ProgramCall::Mount(MountCall::Unmount {
        path: octets(alloc, path)?,
    }))
}

// A path that is mounted (`dirpath`).
#[tactic(auto, unfolding(crate::specs::Arguments::path))]
fn read_path<'a>(reader: &mut Reader<'a>) -> Result<&'a [u8], XdrFault>
    ensures { Reads (λ x. (x.now, reader.new)) result (path_code.read reader.old) }
{
    reader.opaque(PATH_BYTES)
}

// Copies of bytes.
fn octets(alloc: Global, bytes: &[u8]) -> Result<Octets, XdrFault>
    ensures ok { IfOk result (λ o. o ≡ bytes.now) }
    ensures err { IfErr result (λ e. e ≡ XdrFault.NoMemory alloc_error) }
{
    Ok(Octets::copied(alloc, bytes)?)
}

fn handle(alloc: Global, bytes: &[u8]) -> Result<Handle, XdrFault>
    ensures ok { IfOk result (λ h. h ≡ record { bytes = bytes.now }) }
    ensures err { IfErr result (λ e. e ≡ XdrFault.NoMemory alloc_error) }
{
    Ok(Handle {
        bytes: octets(alloc, bytes)?,
    })
}

fn directory_name(alloc: Global, name: NameBytes<'_>) -> Result<DirectoryName, XdrFault>
    ensures ok { IfOk result (λ n. n ≡ record {
      directory = record { bytes = name.entry.directory.now };
      name = name.entry.name.now;
    }) }
    ensures err { IfErr result (λ e. e ≡ XdrFault.NoMemory alloc_error) }
{
    Ok(DirectoryName {
        directory: handle(alloc, name.directory)?,
        name: octets(alloc, name.name)?,
    })
}
