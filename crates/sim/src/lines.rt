//! The lines that are printed.
ghost use Rattle.std.specs.Prelude.{◌≡◌, IfErr, OnOk};
ghost use Rattle.std.specs.Io.KnownBytes.{Appends};
ghost use Rattle.sim.specs.Lines.{boot_line, format_refused_line, open_refused_line, reply_line};

use crate::fault::SimFault;
use std::alloc::Global;
use std::io::Write;
use store::{FormatFault, OpenFault};

/// Prints that a store is open.
pub fn print_boot<W: Write>(out: &mut W, boot: u64) -> Result<(), SimFault>
    ensures printed { OnOk result (Appends (W.contents out.old) (W.contents out.new) (boot_line boot)) }
    ensures output { IfErr result (λ fault. fault ≡ SimFault.Output) }
{
    writeln!(out, "open boot {boot}").or(Err(SimFault::Output))
}

/// Prints why an image isn't opened.
pub fn print_open_refused<W: Write>(out: &mut W, fault: OpenFault) -> Result<(), SimFault>
    ensures printed { OnOk result (Appends (W.contents out.old) (W.contents out.new) (open_refused_line fault)) }
    ensures output { IfErr result (λ fault. fault ≡ SimFault.Output) }
{
    let line = open_refused_line(fault);
    write!(out, "{line}").or(Err(SimFault::Output))
}

/// Prints why an image isn't made.
pub fn print_format_refused<W: Write>(out: &mut W, fault: FormatFault) -> Result<(), SimFault>
    ensures printed { OnOk result (Appends (W.contents out.old) (W.contents out.new) (format_refused_line fault)) }
    ensures output { IfErr result (λ fault. fault ≡ SimFault.Output) }
{
    let line = format_refused_line(fault);
    write!(out, "{line}").or(Err(SimFault::Output))
}

/// Prints a reply.
pub fn print_reply<W: Write>(
    alloc: Global,
    out: &mut W,
    worker: usize,
    message: &[u8],
) -> Result<(), SimFault>
    ensures printed { OnOk result (Appends (W.contents out.old) (W.contents out.new)
        (reply_line worker message.now)) }
{
    let digits = hex::encode(alloc, message)?;
    writeln!(out, "reply {worker} {digits}").or(Err(SimFault::Output))
}

fn open_refused_line(fault: OpenFault) -> &'static str
    ensures { result.now ≡ open_refused_line fault }
{
    match fault {
        OpenFault::Magic => "open refused 1 Magic\n",
        OpenFault::Version => "open refused 2 Version\n",
        OpenFault::Range => "open refused 3 Range\n",
        OpenFault::Log => "open refused 4 Log\n",
        OpenFault::Device => "open refused 5 Device\n",
        OpenFault::NoMemory(_) => "open refused 6 NoMemory\n",
    }
}

fn format_refused_line(fault: FormatFault) -> &'static str
    ensures { result.now ≡ format_refused_line fault }
{
    match fault {
        FormatFault::Size => "format refused 1 Size\n",
        FormatFault::Inodes => "format refused 2 Inodes\n",
        FormatFault::Device => "format refused 3 Device\n",
        FormatFault::NoMemory(_) => "format refused 4 NoMemory\n",
    }
}
