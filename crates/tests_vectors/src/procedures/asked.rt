//! Calls as data.

use nfs_types::{
    Call, CreateHow, DirectoryName, Handle, Moment, NewAttributes, Octets, SharedOctets,
    SpecialFile, Stability, Stamp, Verifier,
};
use std::alloc::{AllocError, Global};

/// A file by its number, and the boot and the transaction of its stamp.
#[derive(Clone, Copy)]
pub struct File(pub u32, pub u64, pub u64);

/// The root.
pub const ROOT: File = File(1, 0, 0);

/// The verifier of a listing that begins.
pub const ZEROS: Verifier = Verifier { bytes: [0; 8] };

/// Another verifier.
pub const ONES: Verifier = Verifier { bytes: [1; 8] };

/// A call; a name comes behind its directory.
#[derive(Clone, Copy)]
pub enum Asked<'a> {
    Null,
    GetAttr(File),
    SetAttr(File, NewAttributes, Option<Moment>),
    Lookup(File, &'a [u8]),
    /// For these bits.
    Access(File, u32),
    ReadLink(File),
    /// From an offset on so many bytes.
    Read(File, u64, u32),
    /// At an offset so many bytes, as it announces, to be kept so, which are these.
    Write(File, u64, u32, Stability, &'a [u8]),
    /// At an offset so many bytes, all of them `q`.
    WriteMany(File, u64, u32),
    Create(File, &'a [u8], CreateHow),
    MkDir(File, &'a [u8], NewAttributes),
    SymLink(File, &'a [u8], NewAttributes, &'a [u8]),
    MkNod(File, &'a [u8], SpecialFile),
    Remove(File, &'a [u8]),
    RmDir(File, &'a [u8]),
    Rename(File, &'a [u8], File, &'a [u8]),
    /// Of a file to a name in a directory.
    Link(File, File, &'a [u8]),
    /// Behind a cookie with its verifier, so many bytes.
    ReadDir(File, u64, Verifier, u32),
    /// The same, so many bytes of names and of all.
    ReadDirPlus(File, u64, Verifier, u32, u32),
    FsStat(File),
    FsInfo(File),
    PathConf(File),
    Commit(File, u64, u32),
}

/// The handle of a file.
pub fn handle_of(alloc: Global, file: File) -> Result<Handle, AllocError> {
    let stamp = Stamp {
        boot: file.1,
        transaction: file.2,
    };
    Handle::of(alloc, file.0, stamp)
}

fn dentry(alloc: Global, directory: File, name: &[u8]) -> Result<DirectoryName, AllocError> {
    Ok(DirectoryName {
        directory: handle_of(alloc, directory)?,
        name: Octets::copied(alloc, name)?,
    })
}

fn write(
    alloc: Global,
    file: File,
    offset: u64,
    count: u32,
    stability: Stability,
    bytes: &[u8],
) -> Result<Call, AllocError> {
    Ok(Call::Write {
        file: handle_of(alloc, file)?,
        offset,
        count,
        stability,
        bytes: SharedOctets::copied(alloc, bytes)?,
    })
}

fn write_many(alloc: Global, file: File, offset: u64, count: u32) -> Result<Call, AllocError> {
    let bytes = vec![in alloc; b'q'; count as usize]?;
    write(
        alloc,
        file,
        offset,
        count,
        Stability::Unstable,
        bytes.as_slice(),
    )
}

fn make_link(
    alloc: Global,
    directory: File,
    name: &[u8],
    attributes: NewAttributes,
    target: &[u8],
) -> Result<Call, AllocError> {
    Ok(Call::SymLink {
        name: dentry(alloc, directory, name)?,
        attributes,
        target: Octets::copied(alloc, target)?,
    })
}

fn rename(
    alloc: Global,
    from: File,
    name: &[u8],
    to: File,
    new_name: &[u8],
) -> Result<Call, AllocError> {
    Ok(Call::Rename {
        source: dentry(alloc, from, name)?,
        target: dentry(alloc, to, new_name)?,
    })
}

fn link(alloc: Global, file: File, directory: File, name: &[u8]) -> Result<Call, AllocError> {
    Ok(Call::Link {
        file: handle_of(alloc, file)?,
        name: dentry(alloc, directory, name)?,
    })
}

// The call where it is of one name in a directory, or none.
fn call_by_name(alloc: Global, asked: &Asked) -> Result<Option<Call>, AllocError> {
    match *asked {
        Asked::Lookup(at, name) => {
            let name = dentry(alloc, at, name)?;
            Ok(Some(Call::Lookup { name }))
        }
        Asked::Create(at, name, how) => {
            let name = dentry(alloc, at, name)?;
            Ok(Some(Call::Create { name, how }))
        }
        Asked::MkDir(at, name, attributes) => {
            let name = dentry(alloc, at, name)?;
            Ok(Some(Call::MkDir { name, attributes }))
        }
        Asked::MkNod(at, name, special) => {
            let name = dentry(alloc, at, name)?;
            Ok(Some(Call::MkNod { name, special }))
        }
        Asked::Remove(at, name) => {
            let name = dentry(alloc, at, name)?;
            Ok(Some(Call::Remove { name }))
        }
        Asked::RmDir(at, name) => {
            let name = dentry(alloc, at, name)?;
            Ok(Some(Call::RmDir { name }))
        }
        Asked::SymLink(at, name, attributes, target) => {
            Ok(Some(make_link(alloc, at, name, attributes, target)?))
        }
        Asked::Rename(at, name, to, new) => Ok(Some(rename(alloc, at, name, to, new)?)),
        Asked::Link(file, at, name) => Ok(Some(link(alloc, file, at, name)?)),
        _ => Ok(None),
    }
}

// The call where it lists or changes a file, or writes to it; NULL for another one.
fn call_with_arguments(alloc: Global, asked: &Asked) -> Result<Call, AllocError> {
    match *asked {
        Asked::SetAttr(file, attributes, guard) => {
            let object = handle_of(alloc, file)?;
            Ok(Call::SetAttr {
                object,
                attributes,
                guard,
            })
        }
        Asked::Read(file, offset, count) => {
            let file = handle_of(alloc, file)?;
            Ok(Call::Read {
                file,
                offset,
                count,
            })
        }
        Asked::Write(file, offset, count, stability, bytes) => {
            write(alloc, file, offset, count, stability, bytes)
        }
        Asked::WriteMany(file, offset, count) => write_many(alloc, file, offset, count),
        Asked::ReadDir(file, cookie, verifier, count) => {
            let directory = handle_of(alloc, file)?;
            Ok(Call::ReadDir {
                directory,
                cookie,
                verifier,
                count,
            })
        }
        Asked::ReadDirPlus(file, cookie, verifier, directory_count, greatest_count) => {
            let directory = handle_of(alloc, file)?;
            Ok(Call::ReadDirPlus {
                directory,
                cookie,
                verifier,
                directory_count,
                greatest_count,
            })
        }
        _ => Ok(Call::Null),
    }
}

// The call where it only tells something of a file, or is a COMMIT; else what the function above gives.
fn call_on_a_file(alloc: Global, asked: &Asked) -> Result<Call, AllocError> {
    match *asked {
        Asked::GetAttr(file) => {
            let object = handle_of(alloc, file)?;
            Ok(Call::GetAttr { object })
        }
        Asked::Access(file, bits) => {
            let object = handle_of(alloc, file)?;
            Ok(Call::Access { object, bits })
        }
        Asked::ReadLink(file) => {
            let link = handle_of(alloc, file)?;
            Ok(Call::ReadLink { link })
        }
        Asked::FsStat(file) => {
            let object = handle_of(alloc, file)?;
            Ok(Call::FsStat { object })
        }
        Asked::FsInfo(file) => {
            let object = handle_of(alloc, file)?;
            Ok(Call::FsInfo { object })
        }
        Asked::PathConf(file) => {
            let object = handle_of(alloc, file)?;
            Ok(Call::PathConf { object })
        }
        Asked::Commit(file, offset, count) => {
            let file = handle_of(alloc, file)?;
            Ok(Call::Commit {
                file,
                offset,
                count,
            })
        }
        _ => call_with_arguments(alloc, asked),
    }
}

/// The call itself.
pub fn call(alloc: Global, asked: &Asked) -> Result<Call, AllocError> {
    match call_by_name(alloc, asked)? {
        Some(call) => Ok(call),
        None => call_on_a_file(alloc, asked),
    }
}
