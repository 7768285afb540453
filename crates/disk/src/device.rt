//! What a device promises.
ghost use Rattle.std.specs.Prelude.{◌≡◌, ◌<◌, false, OnOk};
ghost use Rattle.disk.specs.Blocks.{AreBlocks};
ghost use Rattle.disk.specs.Device.{Device, current, newest, CountsFailure, HasRead, HasWritten, HasSettled};

use crate::{Block, BlockNo, Side};

/// A call of a device failed. A write that failed may have been made all the same.
#[derive(Clone, Copy, Debug, PartialEq, Eq)]
pub struct Failed;

/// A device that may stop at any time. Whatever it does, `device` tells the calls that were made of it and
/// the contents that each block may have by them. That what it reads agrees with them is `keeps_model`, which
/// a device in memory always does and nobody can prove of a file.
pub trait CrashDisk {
    /// The calls so far, as the contents that each block may have had at each count of calls.
    ghost device: { Self → Device };

    /// What has been read so far agrees with `device`.
    ghost keeps_model: { Self → Type 0 };

    /// How many blocks it has.
    fn blocks(&self) -> u32
        ensures { result ≡ (device self.now).size };

    /// Reads a block: its newest content, where no write of it has failed.
    fn read(&mut self, block: BlockNo, out: &mut Block) -> Result<(), Failed>
        requires { block.0 < (device self.old).size }
        ensures call { HasRead (device self.old) (device self.new) }
        ensures failure { CountsFailure (device self.old) (device self.new) result }
        ensures model { keeps_model self.new → keeps_model self.old }
        ensures newest { keeps_model self.new → (device self.old).uncertain block.0 ≡ false
            → OnOk result (out.new ≡ newest (current (device self.old) block.0)) };

    /// Writes a block. Until a barrier a crash may leave an earlier content in its place.
    fn write(&mut self, block: BlockNo, content: &Block) -> Result<(), Failed>
        requires { block.0 < (device self.old).size }
        ensures call { HasWritten (device self.old) block.0 content.now result (device self.new) }
        ensures failure { CountsFailure (device self.old) (device self.new) result }
        ensures model { keeps_model self.new → keeps_model self.old };

    /// Settles the writes of a side: after it a crash leaves their newest contents.
    fn barrier(&mut self, side: Side) -> Result<(), Failed>
        ensures call { HasSettled (device self.old) side result (device self.new) }
        ensures failure { CountsFailure (device self.old) (device self.new) result }
        ensures model { keeps_model self.new → keeps_model self.old };

    /// Where it keeps its model, what it tells of are blocks.
    ghost whole: { (d : Self) → keeps_model d → AreBlocks (device d) };
}
