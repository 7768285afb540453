//! The two programs, by their numbers.
ghost use Rattle.std.specs.Prelude.{◌≡◌};
ghost use Rattle.session_wire.specs.Programs as numbers;

use nfs_types::Program;
use rpc::{MOUNT_PROGRAM, NFS_PROGRAM};

/// The program of a number, or None where none has it.
pub fn program_of(number: u32) -> Option<Program>
    ensures { result ≡ numbers.program_of number }
{
    match number {
        NFS_PROGRAM => Some(Program::Nfs),
        MOUNT_PROGRAM => Some(Program::Mount),
        _ => None,
    }
}
