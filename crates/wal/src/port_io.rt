//! The device calls that the memory log hands out, made on a port.
ghost use Rattle.std.specs.Prelude.{◌≡◌, ◌∷◌, ◌++◌, []};
ghost use Rattle.wal.specs.OnPorts.{call_with, port_call};

use crate::{IoCall, RoleIo};
use disk::{Block, Failed, Port};

impl RoleIo {
    /// Makes the call on a port. One that doesn't lie on the port's side is a failure of the port.
    pub fn perform_on<P: Port>(&self, port: &mut P) -> Result<(), Failed>
        ensures call { P.calls port.new ≡ P.calls port.old ++ (port_call self.now, result) ∷ [] }
        ensures side { P.on port.new ≡ P.on port.old }
    {
        make_on(port, self.call, self.content.block())
    }
}

// Makes a call, whose content a write writes.
fn make_on<P: Port>(port: &mut P, call: IoCall, content: &Block) -> Result<(), Failed>
    ensures call { P.calls port.new ≡ P.calls port.old ++ (call_with call content.now, result) ∷ [] }
    ensures side { P.on port.new ≡ P.on port.old }
{
    match call {
        IoCall::Write(block) => port.write(block, content),
        IoCall::Barrier(side) => port.barrier(side),
    }
}
