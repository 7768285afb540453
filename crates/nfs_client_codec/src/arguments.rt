//! Writing the arguments of calls (RFC 1813, sections 3.3 and 5.2).
ghost use Rattle.xdr.specs.Writing.{Writes, WritesBytes, Encodes};
ghost use Rattle.nfs_codec.specs.Arguments as codes;
ghost use Rattle.nfs_codec.specs.Arguments.{arguments, nfs_arguments, mount_arguments, too_long, nfs_too_long};
ghost use Rattle.nfs_codec.specs.Arguments.{mount_too_long};

use crate::put::{
    put_create_how, put_directory_name, put_guard, put_new_attributes, put_special_file,
};
use nfs_codec::{put_handle, put_stability, put_text, put_verifier};
use nfs_types::{
    Call, CreateHow, DirectoryName, Handle, Moment, MountCall, NewAttributes, Octets, ProgramCall,
    SharedOctets, SpecialFile, Stability, Verifier,
};
use xdr::{Writer, XdrFault};

/// Writes the arguments of a call behind what is there.
pub fn encode_call(out: Writer, call: &ProgramCall) -> Result<Writer, XdrFault>
    ensures { Encodes result out (arguments call.now) (too_long call.now) }
{
    let mut out = out;
    match call {
        ProgramCall::Nfs(call) => put_nfs_call(&mut out, call)?,
        ProgramCall::Mount(call) => put_mount_call(&mut out, call)?,
    }
    Ok(out)
}

fn put_nfs_call(out: &mut Writer, call: &Call) -> Result<(), XdrFault>
    ensures { WritesBytes result out.old out.new (nfs_arguments call.now) (nfs_too_long call.now) }
{
    match call {
        Call::Null => Ok(()),
        Call::GetAttr { object } => put_handle(out, object),
        Call::SetAttr {
            object,
            attributes,
            guard,
        } => put_set_attr(out, object, attributes, guard),
        Call::Lookup { name } => put_directory_name(out, name),
        Call::Access { object, bits } => put_access(out, object, *bits),
        Call::ReadLink { link } => put_handle(out, link),
        Call::Read {
            file,
            offset,
            count,
        } => put_read(out, file, *offset, *count),
        Call::Write {
            file,
            offset,
            count,
            stability,
            bytes,
        } => put_write(out, file, *offset, *count, *stability, bytes),
        Call::Create { name, how } => put_create(out, name, how),
        Call::MkDir { name, attributes } => put_mk_dir(out, name, attributes),
        Call::SymLink {
            name,
            attributes,
            target,
        } => put_sym_link(out, name, attributes, target),
        Call::MkNod { name, special } => put_mk_nod(out, name, special),
        Call::Remove { name } => put_directory_name(out, name),
        Call::RmDir { name } => put_directory_name(out, name),
        Call::Rename { source, target } => put_rename(out, source, target),
        Call::Link { file, name } => put_link(out, file, name),
        Call::ReadDir {
            directory,
            cookie,
            verifier,
            count,
        } => put_read_dir(out, directory, *cookie, verifier, *count),
        Call::ReadDirPlus {
            directory,
            cookie,
            verifier,
            directory_count,
            greatest_count,
        } => put_read_dir_plus(
            out,
            directory,
            *cookie,
            verifier,
            *directory_count,
            *greatest_count,
        ),
        Call::FsStat { object } => put_handle(out, object),
        Call::FsInfo { object } => put_handle(out, object),
        Call::PathConf { object } => put_handle(out, object),
        Call::Commit {
            file,
            offset,
            count,
        } => put_commit(out, file, *offset, *count),
    }
}

fn put_mount_call(out: &mut Writer, call: &MountCall) -> Result<(), XdrFault>
    ensures { WritesBytes result out.old out.new (mount_arguments call.now) (mount_too_long call.now) }
{
    match call {
        MountCall::Null => Ok(()),
        MountCall::Mount { path } => put_path(out, path),
        MountCall::Unmount { path } => put_path(out, path),
    }
}

fn put_set_attr(
    out: &mut Writer,
    object: &Handle,
    wanted: &NewAttributes,
    guard: &Option<Moment>,
) -> Result<(), XdrFault>
    ensures { Writes codes.set_attr result out.old out.new (object.now, (wanted.now, guard.now)) }
{
    put_handle(out, object)?;
    put_new_attributes(out, wanted)?;
    put_guard(out, guard)
}

fn put_access(out: &mut Writer, object: &Handle, bits: u32) -> Result<(), XdrFault>
    ensures { Writes codes.access result out.old out.new (object.now, bits) }
{
    put_handle(out, object)?;
    out.unsigned(bits)
}

fn put_read(out: &mut Writer, file: &Handle, offset: u64, count: u32) -> Result<(), XdrFault>
    ensures { Writes codes.read result out.old out.new (file.now, (offset, count)) }
{
    put_handle(out, file)?;
    out.hyper(offset)?;
    out.unsigned(count)
}

#[tactic(auto, unfolding(nfs_codec::specs::Items::text))]
fn put_write(
    out: &mut Writer,
    file: &Handle,
    offset: u64,
    count: u32,
    stability: Stability,
    bytes: &SharedOctets,
) -> Result<(), XdrFault>
    ensures { Writes codes.write result out.old out.new (file.now, (offset, (count, (stability, bytes.now)))) }
{
    put_handle(out, file)?;
    out.hyper(offset)?;
    out.unsigned(count)?;
    put_stability(out, stability)?;
    out.opaque(bytes.as_slice())
}

fn put_create(out: &mut Writer, name: &DirectoryName, how: &CreateHow) -> Result<(), XdrFault>
    ensures { Writes codes.create result out.old out.new (name.now, how.now) }
{
    put_directory_name(out, name)?;
    put_create_how(out, how)
}

fn put_mk_dir(
    out: &mut Writer,
    name: &DirectoryName,
    wanted: &NewAttributes,
) -> Result<(), XdrFault>
    ensures { Writes codes.mk_dir result out.old out.new (name.now, wanted.now) }
{
    put_directory_name(out, name)?;
    put_new_attributes(out, wanted)
}

fn put_sym_link(
    out: &mut Writer,
    name: &DirectoryName,
    wanted: &NewAttributes,
    target: &Octets,
) -> Result<(), XdrFault>
    ensures { Writes codes.sym_link result out.old out.new (name.now, (wanted.now, target.now)) }
{
    put_directory_name(out, name)?;
    put_new_attributes(out, wanted)?;
    put_text(out, target)
}

fn put_mk_nod(out: &mut Writer, name: &DirectoryName, special: &SpecialFile) -> Result<(), XdrFault>
    ensures { Writes codes.mk_nod result out.old out.new (name.now, special.now) }
{
    put_directory_name(out, name)?;
    put_special_file(out, special)
}

fn put_rename(
    out: &mut Writer,
    source: &DirectoryName,
    target: &DirectoryName,
) -> Result<(), XdrFault>
    ensures { Writes codes.rename result out.old out.new (source.now, target.now) }
{
    put_directory_name(out, source)?;
    put_directory_name(out, target)
}

fn put_link(out: &mut Writer, file: &Handle, name: &DirectoryName) -> Result<(), XdrFault>
    ensures { Writes codes.link result out.old out.new (file.now, name.now) }
{
    put_handle(out, file)?;
    put_directory_name(out, name)
}

fn put_read_dir(
    out: &mut Writer,
    directory: &Handle,
    cookie: u64,
    verifier: &Verifier,
    count: u32,
) -> Result<(), XdrFault>
    ensures { Writes codes.read_dir result out.old out.new (directory.now, (cookie, (verifier.now, count))) }
{
    put_handle(out, directory)?;
    out.hyper(cookie)?;
    put_verifier(out, verifier)?;
    out.unsigned(count)
}

fn put_read_dir_plus(
    out: &mut Writer,
    directory: &Handle,
    cookie: u64,
    verifier: &Verifier,
    directory_count: u32,
    greatest_count: u32,
) -> Result<(), XdrFault>
    ensures { Writes codes.read_dir_plus result out.old out.new
        (directory.now, (cookie, (verifier.now, (directory_count, greatest_count)))) }
{
    put_handle(out, directory)?;
    out.hyper(cookie)?;
    put_verifier(out, verifier)?;
    out.unsigned(directory_count)?;
    out.unsigned(greatest_count)
}

fn put_commit(out: &mut Writer, file: &Handle, offset: u64, count: u32) -> Result<(), XdrFault>
    ensures { Writes codes.commit result out.old out.new (file.now, (offset, count)) }
{
    put_handle(out, file)?;
    out.hyper(offset)?;
    out.unsigned(count)
}

// A path that is mounted (`dirpath`).
#[tactic(auto, unfolding(nfs_codec::specs::Arguments::path))]
fn put_path(out: &mut Writer, path: &Octets) -> Result<(), XdrFault>
    ensures { Writes codes.path result out.old out.new path.now }
{
    out.opaque(path.as_slice())
}
