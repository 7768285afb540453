//! A script whose stops are tried: its image, and what happens to that.
ghost use Rattle.std.specs.Prelude.{IfOk};
ghost use Rattle.nfs_spec.specs.Model.Sound.{SoundTime};
ghost use Rattle.sim.specs.Simulated.{IsImage};

use crate::fault::StopsFault;
use base::NANOSECONDS;
use disk::MemDisk;
use nfs_types::Moment;
use sim::{Segment, image};
use sim_words::{Command, stop_commands};
use std::alloc::Global;
use store::Event;

/// The image that a script asks for, made at a moment.
#[derive(Clone, Copy)]
pub struct Asked {
    blocks: u32,
    inodes: u32,
    moment: Moment,
    ghost timely: { SoundTime moment },
}

impl Asked {
    /// Makes it on a new device.
    pub fn make(self, alloc: Global) -> Result<MemDisk, StopsFault>
        ensures { IfOk result (IsImage self.moment self.blocks self.inodes) }
    {
        Ok(image(alloc, self.blocks, self.inodes, self.moment)?)
    }
}

/// A script: its image, if it asks for one, and the events behind that.
#[derive(Drop)]
pub struct Script {
    pub image: Option<Asked>,
    pub events: Vec<Event>,
}

/// Reads a script whose stops are tried. It was read before, so it is refused for want of memory alone.
pub fn script_of(alloc: Global, text: &[u8]) -> Result<Script, StopsFault> {
    let Ok(commands) = stop_commands(alloc, text) else {
        return Err(StopsFault::NoMemory);
    };
    let mut moment = Moment {
        seconds: 0,
        nanoseconds: 0,
    };
    let mut image = None;
    let mut segment = Segment::new(alloc);
    'commands: for command in commands {
        match command {
            Command::Time(next) => {
                if next.nanoseconds < NANOSECONDS {
                    moment = next;
                }
            }
            Command::Image { blocks, inodes } => {
                image = Some(Asked {
                    blocks,
                    inodes,
                    moment,
                });
            }
            Command::Act(action) => segment.add(moment, action)?,
            // No other command stands in such a script.
            _ => {}
        }
    }
    let Segment { events, .. } = segment;
    Ok(Script { image, events })
}
