//! Laws of devices, over definitions alone.
ghost use Rattle.std.specs.Prelude.{◌≡◌, ℕ, ◌<◌, ◌≤◌, Result};
ghost use Rattle.disk.specs.declared.device.Failed.{Failed};
ghost use Rattle.disk.specs.Device.{Device, current, newest};
ghost use Rattle.disk.specs.Blocks.{IsBlock, AreBlocks};
ghost use Rattle.disk.specs.Crash.{Image, IsCrashImage, IsAtRest};
ghost use Rattle.disk.specs.Overlap.{DeviceCall, Makes, MayOverlap, Swapped};

use crate::CrashDisk;

/// Where a device keeps its model, what it tells of are blocks, at each clock so far.
pub fn a_device_tells_of_blocks<D: CrashDisk>(disk: &D)
    ensures { D.keeps_model disk.now → AreBlocks (D.device disk.now) }
{}

/// Where a device tells of blocks, so is what a crash leaves, and the newest content of each block.
pub fn a_crash_leaves_blocks()
    ensures image { (d : Device) (clock : ℕ) (image : Image) → AreBlocks d → clock ≤ d.clock
        → IsCrashImage d clock image → (block : ℕ) → block < d.size → IsBlock (image block) }
    ensures newest { (d : Device) (block : ℕ) → AreBlocks d → block < d.size
        → IsBlock (newest (current d block)) }
{}

/// Two crashes of a device at rest leave the same blocks.
pub fn one_image_at_rest()
    ensures { (d : Device) (one other : Image) → IsAtRest d → IsCrashImage d d.clock one
        → IsCrashImage d d.clock other
        → (block : ℕ) → block < d.size → one block ≡ other block }
{}

/// Two calls that may overlap in time may come in the other order, with the same results, and then leave the
/// same contents.
pub fn overlapping_calls_commute()
    ensures { (old middle new : Device) (first second : DeviceCall) (r s : Result Unit Failed)
        → Makes old first r middle → Makes middle second s new → MayOverlap first second
        → Swapped old first second r s new }
{}
