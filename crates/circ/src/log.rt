//! What the log is, and the law that it keeps: the definitions that the log's contracts cite, over plain
//! data, and what is true of them. It has no code of a log: that stands in `wal`.

mod calls;
mod change;
pub mod law;
mod outcomes;
mod recovery;

pub use calls::IoCall;
pub use change::LogChange;
pub use outcomes::{Append, Room, Seq};
pub use recovery::{LogFault, Recovered};
