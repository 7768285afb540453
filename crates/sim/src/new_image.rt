//! The image of a script.
ghost use Rattle.std.specs.Prelude.{◌≡◌, IfErr, IfOk};
ghost use Rattle.nfs_spec.specs.Model.Sound.{SoundTime};
ghost use Rattle.store.specs.Runs.FormattedRun.{IsNotMade};
ghost use Rattle.sim.specs.Simulated.{IsImage};

use base::{LEAST_BLOCKS, MOST_BLOCKS};
use disk::MemDisk;
use nfs_types::Moment;
use std::alloc::Global;
use store::{FormatFault, format};

/// Makes an image on a new device in memory. Its size is looked at before there is a device of it. For want of memory
/// it is refused also where there is none for the device.
pub fn image(
    alloc: Global,
    blocks: u32,
    inodes: u32,
    moment: Moment,
) -> Result<MemDisk, FormatFault>
    requires { SoundTime moment }
    ensures made { IfOk result (IsImage moment blocks inodes) }
    ensures refused { IfErr result (λ fault. IsNotMade fault blocks inodes) }
{
    if blocks < LEAST_BLOCKS || blocks > MOST_BLOCKS {
        return Err(FormatFault::Size);
    }
    let mut disk = MemDisk::new(alloc, blocks)?;
    format(alloc, &mut disk, inodes, moment)?;
    Ok(disk)
}
