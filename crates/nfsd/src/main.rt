//! The program: makes images, serves one client over the standard input and output, or many over TCP, and tells
//! whether an image is good and which files it has.
#![tactic(auto)]

mod announcement;
mod answer;
mod arguments;
mod device;
mod fault;
mod fault_stream;
mod image_disk;
mod image_scans;
mod io_report;
mod lines;
mod locked_files;
mod progress_lines;
mod read_files;
mod scripts;
mod streams;
mod tcp;
mod watched_image;

use crate::answer::{answer, conclude};
use crate::arguments::arguments;
use crate::fault::Fault;
use crate::fault_stream::FaultStream;
use crate::read_files::SharedFile;
use crate::streams::Streams;
use disk_file::{Alarm, BlockFile, FirstContents};
use session::{Input, Output};
use std::alloc::AllocError;
use std::env::Env;
use std::fs::Files;
use std::io::{Eprint, Read, Write};
use std::net::{Net, TcpListener, TcpStream};
use std::process::ExitCode;
use std::sync::Wait;
use std::thread::Threads;
use std::time::Clock;

fn main(rt: HostRuntime) -> ExitCode {
    let input = Input::new(rt.reader());
    let output = Output::new(rt.stdout());
    ExitCode::from(attend(&rt, input, output, rt.stderr()))
}

// Reads the arguments, and does what they ask for.
fn attend<R, I, O, E>(rt: &R, input: Input<I>, output: Output<O>, errors: E) -> u8
where
    R: Env
        + Files
        + Streams
        + AllocGlobal
        + Net<Listener = TcpListener, Stream = TcpStream>
        + Threads
        + Wait
        + Clock
        + Eprint
        + Sync,
    R::File: BlockFile + SharedFile + Send + Sync,
    I: Read + Drop,
    O: Write + Drop,
    E: Write + Drop,
{
    let mut faults = FaultStream::new(errors);
    let alarm = Alarm::new(rt);
    let given = match arguments(rt) {
        Ok(given) => given,
        Err(fault) => return conclude(&mut faults, &Err(fault)),
    };
    let line: Result<Vec<&str>, AllocError> = given
        .iter()
        .map(|word| word.as_str())
        .collect(rt.alloc());
    let (mut input, mut output) = (input, output);
    match line {
        Ok(line) => {
            let (status, _disk) = answer(
                rt,
                &alarm,
                line.as_slice(),
                FirstContents::whatever(),
                &mut input,
                &mut output,
                &mut faults,
            );
            status
        }
        Err(_) => conclude(&mut faults, &Err(Fault::Memory)),
    }
}
