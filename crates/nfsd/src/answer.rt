//! What the program does for its arguments.
ghost use Rattle.std.specs.Prelude.{◌≡◌, ◌⊎◌, map};
ghost use Rattle.nfsd_words.specs.Words.{HasMeaning};
ghost use Rattle.session.specs.Reading.{unread_of};
ghost use Rattle.session.specs.Serving.{client_of};
ghost use Rattle.session.specs.Writing.{written_of};
ghost use Rattle.nfsd.specs.Left.{left_by};
ghost use Rattle.nfsd.specs.Done.{Answers, DoesCommand, IsWithoutMemory, Obeys, TellsOutcome};
ghost use Rattle.nfsd.specs.Faults.{status_of_outcome};

use crate::device::{format_image, serve_image_once};
use crate::fault::Fault;
use crate::fault_stream::FaultStream;
use crate::image_disk::ImageDisk;
use crate::image_scans::{check_image, show_image};
use crate::io_report::IoReport;
use crate::read_files::SharedFile;
use crate::scripts::run_script;
use crate::streams::{Streams, fill};
use crate::tcp::serve_image;
use disk_file::{Alarm, BlockFile, FirstContents, WatchedFile};
use nfsd_words::{Args, words};
use session::{Input, Output};
use std::fs::Files;
use std::io::{Eprint, Read, Write};
use std::net::{Net, TcpListener, TcpStream};
use std::sync::Wait;
use std::thread::Threads;
use std::time::Clock;

/// Tells a fault on `faults`, where that can be done, and gives the exit status.
pub fn conclude<E: Write>(faults: &mut FaultStream<E>, outcome: &Result<(), Fault>) -> u8
    ensures status { result ≡ status_of_outcome outcome.now }
    ensures reports { TellsOutcome faults.old.reports.items (E.contents faults.old.stream) outcome.now
        faults.new.reports.items (E.contents faults.new.stream) }
{
    let Err(fault) = outcome else {
        return 0;
    };
    faults.tell(fault);
    fault.status()
}

/// Does what the arguments ask for, of which the first is the program's name, tells a fault on `faults`, and
/// gives the exit status: 0 where it is done, 2 where the arguments have no meaning, and else 1. `first` is
/// what the image's file holds when it is opened: no code reads it, and the clauses hold of each. How the command left
/// the device of the image is told, for proofs alone. Of a write or a sync of a server's image that fails `alarm` tells.
pub fn answer<'a, R, I, O, E>(
    rt: &R,
    alarm: &'a Alarm<'a, R>,
    line: &[&str],
    first: FirstContents,
    reader: &mut Input<I>,
    writer: &mut Output<O>,
    faults: &mut FaultStream<E>,
) -> (u8, Option<ImageDisk<R::File, WatchedFile<'a, R::File, R>>>)
where
    R: Files
        + Streams
        + AllocGlobal
        + Net<Listener = TcpListener, Stream = TcpStream>
        + Threads
        + Wait
        + Clock
        + Eprint
        + Sync,
    R::File: BlockFile + SharedFile + Send + Sync,
    I: Read,
    O: Write,
    E: Write,
    ensures answers { Answers first (map (λ word. word.now) line.now)
        (client_of (unread_of I.remaining reader.old) (written_of O.contents writer.old))
        faults.old.reports.items (E.contents faults.old.stream) result.0 (left_by result.1)
        (client_of (unread_of I.remaining reader.new) (written_of O.contents writer.new))
        faults.new.reports.items (E.contents faults.new.stream) }
    ensures refused { result.0 ≡ 2 → ¬ HasMeaning (map (λ word. word.now) line.now) }
    ensures refuses { (¬ HasMeaning (map (λ word. word.now) line.now)) → (result.0 ≡ 2)
        ⊎ IsWithoutMemory faults.old.reports.items (E.contents faults.old.stream) result.0
        faults.new.reports.items (E.contents faults.new.stream) }
{
    let (disk, outcome) = obey(rt, alarm, line, first, reader, writer);
    (conclude(faults, &outcome), disk)
}

// Does what the arguments ask for. No image is opened before each standard stream's descriptor is taken.
#[tactic(auto, using(crate::proofs::Obeyed::obeys_command))]
fn obey<'a, R, I, O>(
    rt: &R,
    alarm: &'a Alarm<'a, R>,
    line: &[&str],
    first: FirstContents,
    reader: &mut Input<I>,
    writer: &mut Output<O>,
) -> (
    Option<ImageDisk<R::File, WatchedFile<'a, R::File, R>>>,
    Result<(), Fault>,
)
where
    R: Files
        + Streams
        + AllocGlobal
        + Net<Listener = TcpListener, Stream = TcpStream>
        + Threads
        + Wait
        + Clock
        + Eprint
        + Sync,
    R::File: BlockFile + SharedFile + Send + Sync,
    I: Read,
    O: Write,
    ensures { Obeys first (map (λ word. word.now) line.now)
        (client_of (unread_of I.remaining reader.old) (written_of O.contents writer.old)) result.1 (left_by result.0)
        (client_of (unread_of I.remaining reader.new) (written_of O.contents writer.new)) }
{
    let args = match words(rt.alloc(), line) {
        Ok(args) => args,
        Err(error) => return (None, Err(Fault::of_words(error))),
    };
    let _fillers = match fill(rt) {
        Ok(fillers) => fillers,
        Err(error) => {
            let io_report = IoReport::of_file(rt.alloc(), "/dev/null", &error);
            return (None, Err(Fault::File(io_report)));
        }
    };
    command(rt, alarm, args, first, reader, writer)
}

// Does a command to the device of the image's file, and tells how it left it; or runs a script.
fn command<'a, R, I, O>(
    rt: &R,
    alarm: &'a Alarm<'a, R>,
    args: Args<'_>,
    first: FirstContents,
    reader: &mut Input<I>,
    writer: &mut Output<O>,
) -> (
    Option<ImageDisk<R::File, WatchedFile<'a, R::File, R>>>,
    Result<(), Fault>,
)
where
    R: Files
        + Streams
        + AllocGlobal
        + Net<Listener = TcpListener, Stream = TcpStream>
        + Threads
        + Wait
        + Clock
        + Eprint
        + Sync,
    R::File: BlockFile + SharedFile + Send + Sync,
    I: Read,
    O: Write,
    ensures { DoesCommand first args.entry
        (client_of (unread_of I.remaining reader.old) (written_of O.contents writer.old)) result.1 (left_by result.0)
        (client_of (unread_of I.remaining reader.new) (written_of O.contents writer.new)) }
{
    match args {
        Args::Format {
            image,
            blocks,
            inodes,
            time,
        } => {
            return format_image(rt, image, blocks, inodes, time, first, writer);
        }
        Args::Once { image, time } => {
            return serve_image_once(rt, image, time, first, reader, writer);
        }
        Args::Serve {
            image,
            listen,
            workers,
            connections,
        } => {
            return serve_image(
                rt,
                alarm,
                image,
                listen,
                workers,
                connections,
                first,
                writer,
            );
        }
        Args::Check { image } => {
            return check_image(rt, image, first, writer);
        }
        Args::Show { image } => {
            return show_image(rt, image, first, writer);
        }
        Args::Sim { script, stops } => {
            return (None, run_script(rt, script, stops, writer));
        }
    }
}
