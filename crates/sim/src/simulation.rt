//! A script, command by command.
ghost use Rattle.std.specs.Prelude.{◌≡◌, [], IfOk, OnOk};
ghost use Rattle.sim.specs.Simulated.{Does, Ends, HasPoked, IsMade, IsPlayed, IsPokedWhere, IsStopped, Prints};
ghost use Rattle.sim.specs.Simulated.{acted, is_within, moment_after, next_moment, opened, shown};
ghost use Rattle.nfs_spec.specs.Model.Sound.{SoundTime};

use crate::crash::{crashed, poke};
use crate::fault::SimFault;
use crate::lines::print_format_refused;
use crate::new_image::image;
use crate::play::play;
use crate::segment::Segment;
use crate::stage::Stage;
use base::{BLOCK_BYTES, NANOSECONDS};
use disk::{BlockNo, CrashDisk, MemDisk};
use nfs_types::Moment;
use sim_words::{Action, Choice, Command};
use std::alloc::{AllocError, Global};
use std::io::Write;

/// Runs the commands of a script, and prints what comes of them. A store that can't be made or opened ends it. Output
/// is a line that isn't printed.
#[tactic(auto, using(crate::proofs::Printed::it_begins, crate::proofs::Printed::it_goes_on, crate::proofs::Printed::it_ends))]
pub fn simulate<W: Write>(alloc: Global, script: Vec<Command>, out: &mut W) -> Result<(), SimFault>
    ensures { OnOk result (Prints (W.contents out.old) (W.contents out.new) (IsPlayed script.items)) }
{
    let mut moment = Moment {
        seconds: 0,
        nanoseconds: 0,
    };
    let mut stage = Stage::First;
    'commands: for command in script {
        let next = moment_after(&command, moment);
        stage = done(alloc, moment, stage, command, out)?;
        moment = next;
    }
    finish(alloc, stage, out)
}

// The moment of what follows a command.
fn moment_after(command: &Command, moment: Moment) -> Moment
    ensures is { result ≡ moment_after command.now moment }
    ensures sound { SoundTime moment → SoundTime result }
{
    match command {
        Command::Time(next) => next_moment(*next, moment),
        _ => moment,
    }
}

// The next moment, if it has less than a second of nanoseconds.
fn next_moment(next: Moment, moment: Moment) -> Moment
    ensures is { result ≡ next_moment next moment }
    ensures sound { SoundTime moment → SoundTime result }
{
    if next.nanoseconds < NANOSECONDS {
        next
    } else {
        moment
    }
}

// Does a command.
fn done<W: Write>(
    alloc: Global,
    moment: Moment,
    stage: Stage,
    command: Command,
    out: &mut W,
) -> Result<Stage, SimFault>
    requires { SoundTime moment }
    ensures { IfOk result (λ later. Prints (W.contents out.old) (W.contents out.new)
        (Does moment stage command later)) }
{
    match command {
        Command::Time(_) => Ok(stage),
        Command::Image { blocks, inodes } => made(alloc, moment, blocks, inodes, stage, out),
        Command::Open => Ok(opened(alloc, stage)),
        Command::Act(action) => Ok(acted(moment, action, stage)?),
        Command::Crash(choice) => stopped(alloc, &choice, stage, out),
        Command::Poke {
            block,
            offset,
            bytes,
        } => Ok(poked(alloc, block, offset, bytes.as_slice(), stage)?),
        Command::Show => Ok(shown(stage)),
    }
}

// An image is made.
fn made<W: Write>(
    alloc: Global,
    moment: Moment,
    blocks: u32,
    inodes: u32,
    stage: Stage,
    out: &mut W,
) -> Result<Stage, SimFault>
    requires { SoundTime moment }
    ensures { IfOk result (λ later. Prints (W.contents out.old) (W.contents out.new)
        (IsMade moment blocks inodes stage later)) }
{
    match stage {
        Stage::First => match image(alloc, blocks, inodes, moment) {
            Ok(disk) => Ok(Stage::Open(disk, Segment::new(alloc))),
            Err(fault) => {
                print_format_refused(out, fault)?;
                Ok(Stage::Refused)
            }
        },
        other => Ok(other),
    }
}

// What a crash left is to be opened.
fn opened(alloc: Global, stage: Stage) -> Stage
    ensures { result ≡ opened stage }
{
    match stage {
        Stage::Stopped(disk) => Stage::Open(disk, Segment::new(alloc)),
        other => other,
    }
}

// Something more happens to an open store.
fn acted(moment: Moment, action: Action, stage: Stage) -> Result<Stage, AllocError>
    ensures { IfOk result (λ later. later ≡ acted moment action stage) }
{
    match stage {
        Stage::Open(disk, mut segment) => {
            segment.add(moment, action)?;
            Ok(Stage::Open(disk, segment))
        }
        other => Ok(other),
    }
}

// The files are told, as the opening finds them.
fn shown(stage: Stage) -> Stage
    ensures { result ≡ shown stage }
{
    match stage {
        Stage::Open(disk, mut segment) => {
            segment.show();
            Stage::Open(disk, segment)
        }
        other => other,
    }
}

// All that has happened is run, and then the device stops.
fn stopped<W: Write>(
    alloc: Global,
    choice: &Choice,
    stage: Stage,
    out: &mut W,
) -> Result<Stage, SimFault>
    ensures { IfOk result (λ later. Prints (W.contents out.old) (W.contents out.new)
        (IsStopped choice.now stage later)) }
{
    match stage {
        Stage::Open(disk, segment) => match play(alloc, disk, segment, out)? {
            Some(disk) => Ok(Stage::Stopped(crashed(alloc, disk, choice)?)),
            None => Ok(Stage::Refused),
        },
        other => Ok(other),
    }
}

// Bytes within a block of what a crash left are changed.
fn poked(
    alloc: Global,
    block: u32,
    offset: u32,
    bytes: &[u8],
    stage: Stage,
) -> Result<Stage, AllocError>
    ensures { IfOk result (λ later. HasPoked block offset bytes.now stage later []) }
{
    match stage {
        Stage::Stopped(mut disk) => {
            poke_within(alloc, &mut disk, block, offset, bytes)?;
            Ok(Stage::Stopped(disk))
        }
        other => Ok(other),
    }
}

// Bytes of a block are changed, where they lie within a block of the device.
fn poke_within(
    alloc: Global,
    disk: &mut MemDisk,
    block: u32,
    offset: u32,
    bytes: &[u8],
) -> Result<(), AllocError>
    ensures { OnOk result (IsPokedWhere (is_within block offset bytes.now disk.old) block offset bytes.now
        disk.old disk.new) }
{
    if is_within(block, offset, bytes, disk) {
        poke(alloc, disk, BlockNo(block), offset as usize, bytes)
    } else {
        Ok(())
    }
}

// Whether bytes from an offset on lie within a block of the device.
fn is_within(block: u32, offset: u32, bytes: &[u8], disk: &MemDisk) -> bool
    ensures { result ≡ is_within block offset bytes.now disk.now }
{
    block < disk.blocks() && offset as usize + bytes.len() <= BLOCK_BYTES
}

// The script ends: what has happened since the last opening is run.
fn finish<W: Write>(alloc: Global, stage: Stage, out: &mut W) -> Result<(), SimFault>
    ensures { OnOk result (Prints (W.contents out.old) (W.contents out.new) (Ends stage)) }
{
    match stage {
        Stage::Open(disk, segment) => {
            play(alloc, disk, segment, out)?;
            Ok(())
        }
        _ => Ok(()),
    }
}
