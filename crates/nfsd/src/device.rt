//! What the program does to the device of an image that it makes, or serves one client from.
ghost use Rattle.std.specs.Prelude.{◌≡◌, ◌-◌, IfErr, OnOk};
ghost use Rattle.std.specs.Io.KnownBytes.{Appends};
ghost use Rattle.layout.specs.Geometry.{data_at};
ghost use Rattle.session.specs.Reading.{unread_of};
ghost use Rattle.session.specs.Serving.{client_of};
ghost use Rattle.session.specs.Writing.{written_of};
ghost use Rattle.nfsd.specs.Left.{left_by};
ghost use Rattle.nfsd.specs.Done.{FormatsDevice, FormatsImage, ServesDevice, ServesImageOnce};
ghost use Rattle.nfsd.specs.Done.{formatted_line, moment_at};

use crate::fault::Fault;
use crate::image_disk::ImageDisk;
use crate::io_report::IoReport;
use crate::locked_files::{make_image, open_image};
use disk::CrashDisk;
use disk_file::{BlockFile, FirstContents};
use nfs_types::Moment;
use session::{Input, Output};
use std::alloc::Global;
use std::fs::Files;
use std::io::{Read, Write};
use std::snapshot::Snapshot;

/// Makes an image of a file or of a block device, prints its counts, and tells how it left its device. A refusal leaves a file
/// with its new length.
pub fn format_image<R, O, W>(
    rt: &R,
    image: &str,
    blocks: Option<u32>,
    inodes: u32,
    time: u32,
    first: FirstContents,
    writer: &mut O,
) -> (Option<ImageDisk<R::File, W>>, Result<(), Fault>)
where
    R: Files + AllocGlobal,
    R::File: BlockFile,
    O: Write,
    W: BlockFile,
    ensures { FormatsImage first image.now blocks inodes time (O.contents writer.old) result.1 (left_by result.0)
        (O.contents writer.new) }
{
    let made = match make_image(rt, image, blocks) {
        Ok(made) => made,
        Err(error) => {
            let io_report = IoReport::of_file(rt.alloc(), image, &error);
            return (None, Err(Fault::File(io_report)));
        }
    };
    let mut disk = made.beginning_with(first);
    let outcome = format_device(rt.alloc(), &mut disk, inodes, time, writer);
    (Some(ImageDisk::Plain(Snapshot::of(&disk))), outcome)
}

/// Serves one client, of the reader and the writer, from the image of a file, and tells how it left its device.
pub fn serve_image_once<R, I, O, W>(
    rt: &R,
    image: &str,
    time: u32,
    first: FirstContents,
    reader: &mut Input<I>,
    writer: &mut Output<O>,
) -> (Option<ImageDisk<R::File, W>>, Result<(), Fault>)
where
    R: Files + AllocGlobal,
    R::File: BlockFile,
    I: Read,
    O: Write,
    W: BlockFile,
    ensures { ServesImageOnce first image.now time
        (client_of (unread_of I.remaining reader.old) (written_of O.contents writer.old)) result.1 (left_by result.0)
        (client_of (unread_of I.remaining reader.new) (written_of O.contents writer.new)) }
{
    let opened = match open_image(rt, image) {
        Ok(opened) => opened,
        Err(error) => {
            let io_report = IoReport::of_file(rt.alloc(), image, &error);
            return (None, Err(Fault::File(io_report)));
        }
    };
    let disk = opened.beginning_with(first);
    let (disk, outcome) = serve_device(rt.alloc(), disk, time, reader, writer);
    (Some(ImageDisk::Plain(Snapshot::of(&disk))), outcome)
}

/// Makes a device an image, and prints its counts. The root is made at this second.
pub fn format_device<D: CrashDisk, O: Write>(
    alloc: Global,
    disk: &mut D,
    inodes: u32,
    time: u32,
    writer: &mut O,
) -> Result<(), Fault>
    ensures { FormatsDevice (D.device disk.old) inodes time (O.contents writer.old) result
        (D.device disk.new) (O.contents writer.new) }
{
    let data_blocks = store::format(alloc, disk, inodes, moment(time)).map_err(Fault::Format)?;
    print(writer, disk.blocks(), inodes, data_blocks)
}

// Prints the counts of an image that was made.
fn print<O: Write>(writer: &mut O, blocks: u32, inodes: u32, data_blocks: u32) -> Result<(), Fault>
    requires { data_blocks ≡ blocks - data_at blocks inodes }
    ensures printed { OnOk result
        (Appends (O.contents writer.old) (O.contents writer.new) (formatted_line blocks inodes)) }
    ensures print { IfErr result (λ fault. fault ≡ Fault.Print) }
{
    writeln!(
        writer,
        "formatted {blocks} blocks {inodes} inodes {data_blocks} data"
    )
    .or(Err(Fault::Print))
}

/// Opens a device as a store, answers the records of the reader, each call at this second, and hands the
/// device back.
pub fn serve_device<D: CrashDisk, I: Read, O: Write>(
    alloc: Global,
    disk: D,
    time: u32,
    reader: &mut Input<I>,
    writer: &mut Output<O>,
) -> (D, Result<(), Fault>)
    ensures { ServesDevice (D.device disk) time
        (client_of (unread_of I.remaining reader.old) (written_of O.contents writer.old)) result.1
        (D.device result.0)
        (client_of (unread_of I.remaining reader.new) (written_of O.contents writer.new)) }
{
    let mut store = match store::open(alloc, disk) {
        Ok(store) => store,
        Err((disk, fault)) => return (disk, Err(Fault::Open(fault))),
    };
    let served = session::serve(alloc, &mut store, reader, writer, moment(time));
    let outcome = match served {
        Ok(_) => Ok(()),
        Err(fault) => Err(Fault::Session(fault)),
    };
    (store::close(store), outcome)
}

// The beginning of a second.
fn moment(time: u32) -> Moment
    ensures { result ≡ moment_at time }
{
    Moment {
        seconds: time,
        nanoseconds: 0,
    }
}
