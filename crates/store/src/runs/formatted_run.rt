//! A run on an image that was just made, on a device in memory.
ghost use Rattle.std.specs.Prelude.{IfErr, IfOk};
ghost use Rattle.disk.specs.Memory.{memory_device};
ghost use Rattle.nfs_spec.specs.Model.Sound.{SoundTime};
ghost use Rattle.store_promise.specs.Schedule.{SoundEvents};
ghost use Rattle.store.specs.Runs.FormattedRun.{HasRunOnMade, IsNotMade};

use crate::runs::runs::run;
use disk::MemDisk;
use nfs_types::Moment;
use std::alloc::Global;
use store_images::{FormatFault, format};
use store_promise::{Event, OpenFault, Run};

/// Makes an image of so many blocks and inodes, whose root is made at the moment, on a new device in memory,
/// and takes these events on it with so many workers. The device lets the calls with these numbers fail, counted
/// from 1. The faults are those of `format`; for want of memory it is refused also where there is none for
/// the device. What a run stands on can be met so: this one keeps its promise, whatever its events are and
/// whatever fails, where each call can be spelled. The moment of the root is below a second, as `format`
/// requires.
pub fn format_and_run(
    alloc: Global,
    blocks: u32,
    inodes: u32,
    made: Moment,
    fails: &[u64],
    workers: usize,
    events: Vec<Event>,
) -> Result<(MemDisk, Result<Run, OpenFault>), FormatFault>
    requires { SoundTime made }
    ensures promised { SoundEvents events.items
        → IfOk result (λ ran. HasRunOnMade blocks inodes made workers events.items (memory_device ran.0) ran.1) }
    ensures refused { IfErr result (λ fault. IsNotMade fault blocks inodes) }
{
    store_promise::a_made_image_may_run();
    let mut disk = MemDisk::new(alloc, blocks)?;
    disk.fail_at(fails)?;
    format(alloc, &mut disk, inodes, made)?;
    Ok(run(alloc, disk, workers, events))
}
