//! The standard streams that are closed, or a terminal. A file that the program opens would take the descriptor of a closed
//! one, and what is meant for a stream would then be written into that file.
use std::fs::{File, Files};
use std::io;
use std::io::IsTerminal;
use std::os::fd::AsFd;

/// A standard stream.
#[derive(Clone, Copy, Debug, PartialEq, Eq)]
pub enum Stream {
    Input,
    Output,
    Faults,
}

/// A runtime whose standard streams may be closed.
pub trait Streams {
    /// Whether the stream's descriptor is free.
    fn is_closed(&self, stream: Stream) -> bool;

    /// Whether faults are told on a terminal.
    fn tells_a_terminal(&self) -> bool;
}

// The system's number for a descriptor that isn't open.
const BAD_DESCRIPTOR: i32 = 9;

impl Streams for HostRuntime {
    fn is_closed(&self, stream: Stream) -> bool {
        // A copy, which is closed at once, can't be made of a descriptor that isn't open.
        let copy = match stream {
            Stream::Input => self.stdin().as_fd().try_clone_to_owned(),
            Stream::Output => self.stdout().as_fd().try_clone_to_owned(),
            Stream::Faults => self.stderr().as_fd().try_clone_to_owned(),
        };
        copy.is_err_and(|error| error.raw_os_error() == Some(BAD_DESCRIPTOR))
    }

    fn tells_a_terminal(&self) -> bool {
        self.stderr().is_terminal()
    }
}

/// What has the descriptors of the streams that are closed. It can only be read, and has no bytes.
#[derive(Drop)]
pub struct Fillers<F> {
    input: Option<F>,
    output: Option<F>,
    faults: Option<F>,
}

/// Takes the descriptors of the streams that are closed, and no others. Each open takes the lowest that is
/// free, so the streams come in the order of their descriptors.
pub fn fill<R: Files + Streams>(rt: &R) -> io::Result<Fillers<R::File>> {
    Ok(Fillers {
        input: fill_one(rt, Stream::Input)?,
        output: fill_one(rt, Stream::Output)?,
        faults: fill_one(rt, Stream::Faults)?,
    })
}

// Takes the descriptor of a stream, where it is closed.
fn fill_one<R: Files + Streams>(rt: &R, stream: Stream) -> io::Result<Option<R::File>> {
    if !rt.is_closed(stream) {
        return Ok(None);
    }
    Ok(Some(File::open(rt, "/dev/null")?))
}
