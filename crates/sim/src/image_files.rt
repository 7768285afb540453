//! The files of an image, as an opening finds them.
ghost use Rattle.std.specs.Prelude.{◌≡◌, OnOk};
ghost use Rattle.std.specs.Io.KnownBytes.{Appends};
ghost use Rattle.sim.specs.Files.{HasScannedFiles, scan_lines, show_refused_line};

use crate::fault::SimFault;
use disk::MemDisk;
use image_contents::print_lines;
use std::alloc::Global;
use std::io::Write;
use store::{Line, OpenFault, show};

/// Looks at the files of an image, where they are to be told.
pub fn scan_image(
    alloc: Global,
    disk: &mut MemDisk,
    shows: bool,
) -> Option<Result<Vec<Line>, OpenFault>>
    ensures { HasScannedFiles shows disk.old disk.new result }
{
    if shows { Some(show(alloc, disk)) } else { None }
}

/// Prints the files that were found, if they are to be told, or why they can't be told.
pub fn print_files<W: Write>(
    out: &mut W,
    scanned_files: &Option<Result<Vec<Line>, OpenFault>>,
) -> Result<(), SimFault>
    ensures { OnOk result (Appends (W.contents out.old) (W.contents out.new) (scan_lines scanned_files.now)) }
{
    match scanned_files {
        None => Ok(()),
        Some(Ok(lines)) => print_lines(out, lines).or(Err(SimFault::Output)),
        Some(Err(fault)) => print_show_refused(out, *fault),
    }
}

// Prints why the files can't be told.
fn print_show_refused<W: Write>(out: &mut W, fault: OpenFault) -> Result<(), SimFault>
    ensures { OnOk result (Appends (W.contents out.old) (W.contents out.new) (show_refused_line fault)) }
{
    let line = show_refused_line(fault);
    write!(out, "{line}").or(Err(SimFault::Output))
}

fn show_refused_line(fault: OpenFault) -> &'static str
    ensures { result.now ≡ show_refused_line fault }
{
    match fault {
        OpenFault::Magic => "show refused 1 Magic\n",
        OpenFault::Version => "show refused 2 Version\n",
        OpenFault::Range => "show refused 3 Range\n",
        OpenFault::Log => "show refused 4 Log\n",
        OpenFault::Device => "show refused 5 Device\n",
        OpenFault::NoMemory(_) => "show refused 6 NoMemory\n",
    }
}
