//! What the program does with the script of a schedule.
ghost use Rattle.std.specs.Prelude.{◌≡◌, IfErr, OnOk};
ghost use Rattle.std.specs.Io.KnownBytes.{Appends};
ghost use Rattle.nfsd.specs.Scripts.{PlaysText, RunsScript, TriesText, fault_of_script, fault_of_sim, fault_of_stops};
ghost use Rattle.nfsd.specs.Scripts.{stops_line};

use crate::fault::Fault;
use crate::io_report::IoReport;
use crate::progress_lines::ProgressLines;
use crate::streams::Streams;
use session::SessionFault;
use sim::{SimFault, simulate};
use sim_stops::{StopsFault, Tried, try_stops};
use sim_words::{ScriptFault, commands, stop_commands};
use std::alloc::Global;
use std::fs;
use std::fs::Files;
use std::io::{Eprint, Write};
use std::time::Clock;

/// Reads a script whole, and then runs it over a device in memory, and prints what comes of it: of the script, or of each of
/// its stops.
pub fn run_script<R, O>(rt: &R, path: &str, stops: bool, writer: &mut O) -> Result<(), Fault>
where
    R: Files + Streams + AllocGlobal + Clock + Eprint,
    O: Write,
    ensures { RunsScript stops path.now (O.contents writer.old) result (O.contents writer.new) }
{
    match fs::read(rt, path) {
        Ok(text) => {
            if stops {
                return try_each_stop(rt, &text, writer);
            }
            play(rt.alloc(), &text, writer)
        }
        Err(error) => Err(Fault::File(IoReport::of_file(rt.alloc(), path, &error))),
    }
}

// Runs a script of this text.
fn play<O: Write>(alloc: Global, text: &[u8], writer: &mut O) -> Result<(), Fault>
    ensures { PlaysText text.now (O.contents writer.old) result (O.contents writer.new) }
{
    let script = commands(alloc, text).map_err(Fault::of_script)?;
    simulate(alloc, script, writer).map_err(Fault::of_sim)
}

// Tries each stop of a script of this text.
fn try_each_stop<R, O>(rt: &R, text: &[u8], writer: &mut O) -> Result<(), Fault>
where
    R: Streams + AllocGlobal + Clock + Eprint,
    O: Write,
    ensures { TriesText text.now (O.contents writer.old) result (O.contents writer.new) }
{
    stop_commands(rt.alloc(), text).map_err(Fault::of_script)?;
    let mut progress = ProgressLines::new(rt, "stops tried");
    match try_stops(rt.alloc(), text, &mut progress) {
        Ok(tried) => print_tried(writer, tried),
        Err(fault) => Err(Fault::of_stops(fault)),
    }
}

// Prints how much was tried.
fn print_tried<O: Write>(writer: &mut O, tried: Tried) -> Result<(), Fault>
    ensures printed { OnOk result (Appends (O.contents writer.old) (O.contents writer.new) (stops_line tried)) }
    ensures print { IfErr result (λ fault. fault ≡ Fault.Print) }
{
    writeln!(writer, "stops {} images {}", tried.stops, tried.images).or(Err(Fault::Print))
}

impl Fault {
    /// What it is to the program that a script isn't read.
    pub fn of_script(fault: ScriptFault) -> Fault
        ensures { result ≡ fault_of_script fault }
    {
        match fault {
            ScriptFault::Line(number) => Fault::Line(number),
            ScriptFault::NoMemory => Fault::Session(SessionFault::NoMemory),
        }
    }

    /// What it is to the program that the stops of a script aren't tried to their end.
    pub fn of_stops(fault: StopsFault) -> Fault
        ensures { result ≡ fault_of_stops fault }
    {
        match fault {
            StopsFault::Format(why) => Fault::Format(why),
            StopsFault::Open(why) => Fault::Open(why),
            StopsFault::Torn(text) => Fault::Torn(text),
            StopsFault::NoMemory => Fault::Session(SessionFault::NoMemory),
        }
    }

    /// What it is to the program that a script isn't run to its end.
    pub fn of_sim(fault: SimFault) -> Fault
        ensures { result ≡ fault_of_sim fault }
    {
        match fault {
            SimFault::Output => Fault::Print,
            SimFault::NoMemory => Fault::Session(SessionFault::NoMemory),
        }
    }
}
