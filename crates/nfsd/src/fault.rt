//! Why the program didn't do what its arguments ask for.
ghost use Rattle.std.specs.Prelude.{◌≡◌};
ghost use Rattle.nfsd.specs.Faults.{fault_of_reading, fault_of_words, status_of};

use crate::io_report::IoReport;
use crate::lines::{check_line, format_line, open_line, session_line};
use clap::error::ErrorKind;
use session::SessionFault;
use std::{fmt, io};
use store::{CheckFault, FormatFault, OpenFault};

/// Why the program didn't do what its arguments ask for. Its `Display` is the text for the user.
#[derive(Debug, Drop)]
pub enum Fault {
    /// An argument isn't text.
    NotText,
    /// The arguments found no memory.
    Memory,
    /// The arguments don't parse.
    Words(clap::Error),
    /// The image's file can't be made, opened, locked, given its length or settled, or a closed stream's
    /// descriptor can't be taken: which of them, and why.
    File(Option<IoReport>),
    /// The image can't be made.
    Format(FormatFault),
    /// The image can't be opened, or its files can't be shown.
    Open(OpenFault),
    /// The image isn't good, or can't be checked.
    Check(CheckFault),
    /// The records of the input weren't all answered.
    Session(SessionFault),
    /// The line of the answer can't be printed.
    Print,
    /// The address can't be had: which, and why.
    Address(Option<IoReport>),
    /// The script's first bad line: its number, from 1.
    Line(usize),
    /// A stop of the script leaves what it may not leave: where, and what differs.
    Torn(String),
}

impl Fault {
    /// What it is to the program that its arguments can't be read.
    pub fn of_reading(error: &io::Error) -> Fault
        ensures { result ≡ fault_of_reading error.now }
    {
        match error.kind() {
            io::ErrorKind::OutOfMemory => Fault::Memory,
            _ => Fault::NotText,
        }
    }

    /// What it is to the program that its arguments don't parse.
    pub fn of_words(error: clap::Error) -> Fault
        ensures { result ≡ fault_of_words error }
    {
        match error.kind() {
            ErrorKind::OutOfMemory => Fault::Memory,
            _ => Fault::Words(error),
        }
    }

    /// The exit status.
    pub fn status(&self) -> u8
        ensures { result ≡ status_of self.now }
    {
        match self {
            Fault::NotText => 2,
            Fault::Words(_) => 2,
            _ => 1,
        }
    }
}

impl fmt::Display for Fault {
    ghost use Rattle.nfsd.specs.Faults.{fault_line};

    ghost output = { fault_line };

    fn fmt<W: fmt::Write>(&self, f: &mut fmt::Formatter<W>) -> fmt::Result {
        match self {
            Fault::NotText => f.write_str("nfsd: arguments\n"),
            Fault::Memory => f.write_str("nfsd: memory\n"),
            Fault::Words(error) => write!(f, "{error}"),
            Fault::File(None) => f.write_str("nfsd: file\n"),
            Fault::File(Some(it)) => {
                write!(f, "nfsd: file\nnfsd: {}: {}\n", it.name, it.reason.text())
            }
            Fault::Format(fault) => f.write_str(format_line(*fault)),
            Fault::Open(fault) => f.write_str(open_line(*fault)),
            Fault::Check(CheckFault::Tree(Some(it))) => write!(
                f,
                "nfsd: 9 Tree\nnfsd: inode {}: links {}, named {} times\n",
                it.inode, it.links, it.named
            ),
            Fault::Check(fault) => f.write_str(check_line(*fault)),
            Fault::Session(fault) => f.write_str(session_line(*fault)),
            Fault::Print => f.write_str("nfsd: output\n"),
            Fault::Line(number) => writeln!(f, "nfsd: line {number}"),
            Fault::Torn(text) => write!(f, "nfsd: 1 Torn\nnfsd: {text}\n"),
            Fault::Address(None) => f.write_str("nfsd: address\n"),
            Fault::Address(Some(it)) => {
                write!(
                    f,
                    "nfsd: address\nnfsd: {}: {}\n",
                    it.name,
                    it.reason.text()
                )
            }
        }
    }
}
