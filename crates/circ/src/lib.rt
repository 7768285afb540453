//! The circular log on the disk: its headers, what an opening finds in it, and the law of the log, which says what a
//! crash leaves of it.
#![tactic(auto)]

mod header;
mod log;
mod recovery;

pub use header::{address_at, end_of, put_address, put_end, put_start, start_of};
pub use log::{Append, IoCall, LogChange, LogFault, Recovered, Room, Seq, law};
pub use recovery::{read_log, recover};
