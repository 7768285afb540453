//! The log in memory: commits are added to its tail, a logger makes them safe in the log's slots on the
//! disk, and an installer brings them home. It makes no device call of its own: it hands each one out, and
//! is told what came of it.
#![tactic(auto)]

mod changes;
mod io;
mod memory;
mod port_io;

pub use changes::Changes;
pub use circ::{Append, IoCall, LogChange, Room, Seq, law};
pub use io::{InstIo, LogIo, RoleIo};
pub use memory::Wal;
