//! What the program tells of an image that it only reads.
ghost use Rattle.std.specs.Prelude.{◌≡◌, IfErr, OnOk};
ghost use Rattle.std.specs.Io.KnownBytes.{Appends};
ghost use Rattle.image_contents.specs.Lines.Printed.{lines_text};
ghost use Rattle.nfsd.specs.Left.{left_by};
ghost use Rattle.nfsd.specs.ImageScans.{ChecksDevice, ChecksImage, ShowsDevice, ShowsImage, clean_line};

use crate::fault::Fault;
use crate::image_disk::ImageDisk;
use crate::io_report::IoReport;
use crate::progress_lines::ProgressLines;
use crate::read_files::{SharedFile, open_to_read};
use crate::streams::Streams;
use disk::CrashDisk;
use disk_file::{BlockFile, FirstContents};
use image_contents::print_lines;
use std::alloc::Global;
use std::fs::Files;
use std::io::{Eprint, Write};
use std::snapshot::Snapshot;
use std::time::Clock;
use store::{Counts, Line, Progress};

/// Tells whether the image of a file is good, and tells how it left its device.
pub fn check_image<R, O, W>(
    rt: &R,
    image: &str,
    first: FirstContents,
    writer: &mut O,
) -> (Option<ImageDisk<R::File, W>>, Result<(), Fault>)
where
    R: Files + Streams + AllocGlobal + Clock + Eprint,
    R::File: BlockFile + SharedFile,
    O: Write,
    W: BlockFile,
    ensures { ChecksImage first image.now (O.contents writer.old) result.1 (left_by result.0)
        (O.contents writer.new) }
{
    let opened = match open_to_read(rt, image) {
        Ok(opened) => opened,
        Err(error) => {
            let io_report = IoReport::of_file(rt.alloc(), image, &error);
            return (None, Err(Fault::File(io_report)));
        }
    };
    let mut disk = opened.beginning_with(first);
    let mut progress = ProgressLines::new(rt, "inodes checked");
    let outcome = check_device(rt.alloc(), &mut disk, writer, &mut progress);
    (Some(ImageDisk::Plain(Snapshot::of(&disk))), outcome)
}

/// Prints the files of the image of a file, and tells how it left its device.
pub fn show_image<R, O, W>(
    rt: &R,
    image: &str,
    first: FirstContents,
    writer: &mut O,
) -> (Option<ImageDisk<R::File, W>>, Result<(), Fault>)
where
    R: Files + AllocGlobal,
    R::File: BlockFile + SharedFile,
    O: Write,
    W: BlockFile,
    ensures { ShowsImage first image.now (O.contents writer.old) result.1 (left_by result.0)
        (O.contents writer.new) }
{
    let opened = match open_to_read(rt, image) {
        Ok(opened) => opened,
        Err(error) => {
            let io_report = IoReport::of_file(rt.alloc(), image, &error);
            return (None, Err(Fault::File(io_report)));
        }
    };
    let mut disk = opened.beginning_with(first);
    let outcome = show_device(rt.alloc(), &mut disk, writer);
    (Some(ImageDisk::Plain(Snapshot::of(&disk))), outcome)
}

/// Checks the image of a device, and prints its counts where it is good. Meanwhile `progress` is told how far it is.
pub fn check_device<D: CrashDisk, O: Write, P: Progress>(
    alloc: Global,
    disk: &mut D,
    writer: &mut O,
    progress: &mut P,
) -> Result<(), Fault>
    ensures { ChecksDevice (D.keeps_model disk.new) (D.device disk.old) (O.contents writer.old) result
        (D.device disk.new) (O.contents writer.new) }
{
    match store::check_with_progress(alloc, disk, progress) {
        Ok(counts) => print_counts(writer, counts),
        Err(why) => Err(Fault::Check(why)),
    }
}

// Prints the counts of a good image.
fn print_counts<O: Write>(writer: &mut O, counts: Counts) -> Result<(), Fault>
    ensures printed { OnOk result
        (Appends (O.contents writer.old) (O.contents writer.new) (clean_line counts)) }
    ensures print { IfErr result (λ fault. fault ≡ Fault.Print) }
{
    writeln!(
        writer,
        "clean {} files {} blocks",
        counts.files, counts.blocks
    )
    .or(Err(Fault::Print))
}

/// Prints the files of the image of a device, a line each, by rising number.
pub fn show_device<D: CrashDisk, O: Write>(
    alloc: Global,
    disk: &mut D,
    writer: &mut O,
) -> Result<(), Fault>
    ensures { ShowsDevice (D.keeps_model disk.new) (D.device disk.old) (O.contents writer.old) result
        (D.device disk.new) (O.contents writer.new) }
{
    match store::show(alloc, disk) {
        Ok(lines) => print_files(writer, &lines),
        Err(why) => Err(Fault::Open(why)),
    }
}

// Prints the lines of files.
fn print_files<O: Write>(writer: &mut O, lines: &[Line]) -> Result<(), Fault>
    ensures printed { OnOk result
        (Appends (O.contents writer.old) (O.contents writer.new) (lines_text lines.now)) }
    ensures print { IfErr result (λ fault. fault ≡ Fault.Print) }
{
    print_lines(writer, lines).or(Err(Fault::Print))
}
