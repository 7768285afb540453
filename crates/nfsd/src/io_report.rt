//! Which file or address can't be had, and why: what the second line of a fault tells.
ghost use Rattle.std.specs.Prelude.{◌≡◌, IfSome};
ghost use Rattle.nfsd.specs.Faults.{IsAbout, reason_of_address, reason_of_file, reason_text as text_of_reason};

use std::alloc::Global;
use std::io;
use std::io::ErrorKind;

/// Why a file or an address can't be had.
#[derive(Clone, Copy, Debug, PartialEq, Eq)]
pub enum Reason {
    Missing,
    NotAllowed,
    Directory,
    NoDirectory,
    NoFile,
    Held,
    ReadOnly,
    NoSpace,
    TooLarge,
    BadName,
    PortTaken,
    NotHere,
    NoAddress,
    NameUnknown,
    NoMemory,
    Other,
}

impl Reason {
    /// Why a file can't be opened, made, locked, given its length or settled.
    pub fn of_file(error: &io::Error) -> Reason
        ensures { result ≡ reason_of_file error.now }
    {
        match error.kind() {
            ErrorKind::NotFound => Reason::Missing,
            ErrorKind::PermissionDenied => Reason::NotAllowed,
            ErrorKind::IsADirectory => Reason::Directory,
            ErrorKind::NotADirectory => Reason::NoDirectory,
            ErrorKind::InvalidInput => Reason::NoFile,
            ErrorKind::WouldBlock => Reason::Held,
            ErrorKind::ReadOnlyFilesystem => Reason::ReadOnly,
            ErrorKind::StorageFull => Reason::NoSpace,
            ErrorKind::QuotaExceeded => Reason::NoSpace,
            ErrorKind::FileTooLarge => Reason::TooLarge,
            ErrorKind::InvalidFilename => Reason::BadName,
            ErrorKind::OutOfMemory => Reason::NoMemory,
            _ => Reason::Other,
        }
    }

    /// Why nothing listens at an address.
    pub fn of_address(error: &io::Error) -> Reason
        ensures { result ≡ reason_of_address error.now }
    {
        match error.kind() {
            ErrorKind::AddrInUse => Reason::PortTaken,
            ErrorKind::PermissionDenied => Reason::NotAllowed,
            ErrorKind::AddrNotAvailable => Reason::NotHere,
            ErrorKind::InvalidInput => Reason::NoAddress,
            ErrorKind::Uncategorized => Reason::NameUnknown,
            ErrorKind::OutOfMemory => Reason::NoMemory,
            _ => Reason::Other,
        }
    }

    /// What is told of it.
    pub fn text(self) -> &'static str
        ensures { result.now ≡ text_of_reason self }
    {
        match self {
            Reason::Missing => "there is no such file",
            Reason::NotAllowed => "permission denied",
            Reason::Directory => "it is a directory",
            Reason::NoDirectory => "a part of its path is no directory",
            Reason::NoFile => "it is neither a file nor a block device",
            Reason::Held => "another program has it",
            Reason::ReadOnly => "it can only be read here",
            Reason::NoSpace => "there is no room for it",
            Reason::TooLarge => "it can't have so many blocks",
            Reason::BadName => "its name is too long",
            Reason::PortTaken => "another program has the port",
            Reason::NotHere => "this machine has no such address",
            Reason::NoAddress => "it is no address with a port, as 127.0.0.1:2049 is",
            Reason::NameUnknown => "its name isn't known",
            Reason::NoMemory => "there is no memory",
            Reason::Other => "the system refuses it",
        }
    }
}

/// A file or an address that can't be had, by the name that it was asked for, and why.
#[derive(Debug, Drop)]
pub struct IoReport {
    pub name: String,
    pub reason: Reason,
}

impl IoReport {
    /// That of a file, or None where there is no memory for its name.
    pub fn of_file(alloc: Global, name: &str, error: &io::Error) -> Option<IoReport>
        ensures name { IsAbout result name.now }
        ensures reason { IfSome result (λ it. it.reason ≡ reason_of_file error.now) }
    {
        IoReport::new(alloc, name, Reason::of_file(error))
    }

    /// That of an address, or None where there is no memory for its name.
    pub fn of_address(alloc: Global, name: &str, error: &io::Error) -> Option<IoReport>
        ensures name { IsAbout result name.now }
        ensures reason { IfSome result (λ it. it.reason ≡ reason_of_address error.now) }
    {
        IoReport::new(alloc, name, Reason::of_address(error))
    }

    fn new(alloc: Global, name: &str, reason: Reason) -> Option<IoReport>
        ensures name { IsAbout result name.now }
        ensures reason { IfSome result (λ it. it.reason ≡ reason) }
    {
        match String::from_str(alloc, name) {
            Ok(name) => Some(IoReport { name, reason }),
            Err(_) => None,
        }
    }
}
