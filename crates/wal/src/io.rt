//! The device calls that the memory log hands out.
ghost use Rattle.std.specs.Prelude.{◌≡◌};
ghost use Rattle.disk.specs.Device.{CountsFailure};
ghost use Rattle.disk.specs.declared.block.Side.{Side};
ghost use Rattle.wal.specs.Sides.{call_is_made};
ghost use Rattle.circ.specs.Log.Io.{Io, IsCallWithin, HasMade, HasMadeCall};

use circ::IoCall;
use disk::{Block, CrashDisk, Failed, Handed};
use std::marker::Model;

/// A device call of the logger or of the installer. It must be made and given back to the log that handed it out, as
/// a call of the side that it was handed out to.
pub struct RoleIo {
    pub(crate) beginning: u64,
    pub(crate) step: usize,
    pub(crate) call: IoCall,
    pub(crate) content: Handed,
}

/// One of the logger.
pub type LogIo = RoleIo;

/// One of the installer.
pub type InstIo = RoleIo;

impl Model for RoleIo {
    ghost use Rattle.circ.specs.Log.Io.{Io};

    ghost Value = { Io };

    ghost view = { λ io. record {
      beginning = io.beginning;
      step = io.step;
      call = io.call;
      content = io.content;
    } };
}

impl RoleIo {
    /// The call to make.
    pub fn call(&self) -> IoCall
        ensures { result ≡ self.now.call }
    {
        self.call
    }

    /// What a write writes.
    pub fn content(&self) -> &Block
        ensures { result.now ≡ self.now.content }
    {
        self.content.block()
    }

    /// Makes the call.
    pub fn perform<D: CrashDisk>(&self, disk: &mut D) -> Result<(), Failed>
        requires { IsCallWithin (D.device disk.old).size self.now.call }
        ensures call { HasMade (D.device disk.old) self.now result (D.device disk.new) }
        ensures failure { CountsFailure (D.device disk.old) (D.device disk.new) result }
        ensures model { D.keeps_model disk.new → D.keeps_model disk.old }
        ensures law { (role : Side) → call_is_made role (D.device disk.old) self.now result (D.device disk.new) }
    {
        make(disk, self.call, self.content.block())
    }
}

// Makes a call, whose content a write writes.
fn make<D: CrashDisk>(disk: &mut D, call: IoCall, content: &Block) -> Result<(), Failed>
    requires { IsCallWithin (D.device disk.old).size call }
    ensures call { HasMadeCall (D.device disk.old) call content.now result (D.device disk.new) }
    ensures failure { CountsFailure (D.device disk.old) (D.device disk.new) result }
    ensures model { D.keeps_model disk.new → D.keeps_model disk.old }
{
    match call {
        IoCall::Write(block) => disk.write(block, content),
        IoCall::Barrier(side) => disk.barrier(side),
    }
}
