//! What the program does to a device whose files it serves over TCP.
ghost use Rattle.std.specs.Prelude.{◌≡◌, IfErr, IfOk, string_bytes};
ghost use Rattle.disk_file.specs.File.{file_device, first_in};
ghost use Rattle.nfsd.specs.Left.{left_by};
ghost use Rattle.nfsd.specs.Done.{ServesClients, ServesImage, left_of_server, outcome_of_server};
ghost use Rattle.nfsd.specs.Lines.{IsAnnouncedBy};
ghost use Rattle.nfsd.specs.Faults.{IsAbout};

use crate::announcement::Announcement;
use crate::fault::Fault;
use crate::image_disk::ImageDisk;
use crate::io_report::IoReport;
use crate::watched_image::open_for_threads;
use disk_file::{Alarm, BlockFile, FirstContents, ThreadedDisk, WatchedFile};
use server::{Ended, ServeFault, serve_store};
use session::SessionFault;
use std::alloc::Global;
use std::fs::Files;
use std::io::{Eprint, Write};
use std::net::{Net, TcpListener, TcpStream};
use std::snapshot::Snapshot;
use std::sync::Wait;
use std::thread::Threads;
use std::time::Clock;
use store_images::Store;

/// What listens at an address, and the address that it got, as text.
#[derive(Drop)]
pub struct Listening {
    pub listener: TcpListener,
    pub address: String,
}

/// Listens at an address. Of one that can't be had, or told, it says why, but for want of memory.
pub fn listen_at<R>(rt: &R, alloc: Global, address: &str) -> Result<Listening, Option<IoReport>>
where
    R: Net<Listener = TcpListener, Stream = TcpStream>,
    ensures { IfErr result (λ io_report. IsAbout io_report address.now) }
{
    let listener = match TcpListener::bind(rt, address) {
        Ok(listener) => listener,
        Err(error) => return Err(IoReport::of_address(alloc, address, &error)),
    };
    let bound = match listener.local_addr() {
        Ok(bound) => bound,
        Err(error) => return Err(IoReport::of_address(alloc, address, &error)),
    };
    match format!(in alloc; "{bound}") {
        Ok(address) => Ok(Listening { listener, address }),
        Err(_) => Err(None),
    }
}

/// Listens at an address, and serves so many connections, or without end where that is 0, from the image of a file. It
/// listens before the file is opened. Of a write or a sync of the image that fails `alarm` tells.
pub fn serve_image<'a, R, O>(
    rt: &R,
    alarm: &'a Alarm<'a, R>,
    image: &str,
    listen: &str,
    workers: u32,
    connections: u32,
    first: FirstContents,
    writer: &mut O,
) -> (
    Option<ImageDisk<R::File, WatchedFile<'a, R::File, R>>>,
    Result<(), Fault>,
)
where
    R: Files
        + AllocGlobal
        + Net<Listener = TcpListener, Stream = TcpStream>
        + Threads
        + Wait
        + Clock
        + Eprint
        + Sync,
    R::File: BlockFile + Send + Sync,
    O: Write,
    ensures { ServesImage first image.now listen.now (O.contents writer.old) result.1 (left_by result.0)
        (O.contents writer.new) }
{
    let listening = match listen_at(rt, rt.alloc(), listen) {
        Ok(listening) => listening,
        Err(io_report) => return (None, Err(Fault::Address(io_report))),
    };
    let opened = match open_for_threads(rt, image, alarm) {
        Ok(opened) => opened,
        Err(error) => {
            let io_report = IoReport::of_file(rt.alloc(), image, &error);
            return (None, Err(Fault::File(io_report)));
        }
    };
    let disk = opened.beginning_with(first);
    let alloc = rt.alloc();
    serve_clients(rt, alloc, disk, &listening, workers, connections, writer)
}

/// Opens a device as a store, prints where it listens once it can serve, and serves so many connections, or without end
/// where that is 0. It tells how a device that is refused was left.
pub fn serve_clients<P, F, R, O>(
    rt: &R,
    alloc: Global,
    disk: ThreadedDisk<F>,
    listening: &Listening,
    workers: u32,
    connections: u32,
    writer: &mut O,
) -> (Option<ImageDisk<P, F>>, Result<(), Fault>)
where
    P: BlockFile,
    F: BlockFile + Send + Sync,
    R: Threads + Wait + Clock + Sync,
    O: Write,
    ensures { ServesClients (file_device (first_in disk.first.blocks.items) disk.blocks disk.file.calls.items) (O.contents writer.old) result.1 (left_by result.0)
        (O.contents writer.new) }
{
    let store = match store::open(alloc, disk) {
        Ok(store) => store,
        Err((disk, fault)) => {
            let left = ImageDisk::Watched(Snapshot::of(&disk));
            return (Some(left), Err(Fault::Open(fault)));
        }
    };
    let mut ended = Err(ServeFault::Memory);
    serve_announced(
        rt,
        alloc,
        store,
        listening,
        workers,
        connections,
        writer,
        &mut ended,
    );
    concluded(ended)
}

// Serves from a store, and prints where it listens once it can serve. How the server ended lies in `ended` then, and the
// writer comes back alone: of a reference that comes back beside what owns memory nothing is known.
fn serve_announced<'w, F, R, O>(
    rt: &R,
    alloc: Global,
    store: Store<ThreadedDisk<F>>,
    listening: &Listening,
    workers: u32,
    connections: u32,
    writer: &'w mut O,
    ended: &mut Result<Ended, ServeFault>,
) -> &'w mut O
where
    F: BlockFile + Send + Sync,
    R: Threads + Wait + Clock + Sync,
    O: Write,
    ensures boot { IfOk ended.new (λ core. core.core.boot ≡ store.core.boot) }
    ensures same_reference { result.ghost_name ≡ writer.entry.ghost_name }
    ensures reports { IsAnnouncedBy (O.contents writer.old) (string_bytes listening.now.address) ended.new
        (O.contents result.now) }
{
    let address = listening.address.as_str();
    let announcement = Announcement { writer, address };
    let listener = &listening.listener;
    let (announcement, came) = serve_store(
        rt,
        alloc,
        store,
        listener,
        workers,
        connections,
        announcement,
    );
    *ended = came;
    let Announcement { writer, address: _ } = announcement;
    writer
}

// What comes of a server by how it ended, and what is left of it: that it ended with all settled is told by the core itself.
fn concluded<P: BlockFile, F: BlockFile>(
    ended: Result<Ended, ServeFault>,
) -> (Option<ImageDisk<P, F>>, Result<(), Fault>)
    ensures outcome { result.1 ≡ outcome_of_server ended }
    ensures left { left_by result.0 ≡ left_of_server ended }
{
    match ended {
        Ok(ended) => (Some(ImageDisk::Served(Snapshot::of(&ended))), Ok(())),
        Err(ServeFault::Memory) => (None, Err(Fault::Session(SessionFault::NoMemory))),
        Err(ServeFault::Output) => (None, Err(Fault::Print)),
        Err(ServeFault::Device) => (None, Err(Fault::Session(SessionFault::Device))),
    }
}
