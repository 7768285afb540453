//! The device calls that a core hands out, with their numbers.

use disk::Block;
use http_server::Log;
use std::snapshot::Snapshot;
use wal::IoCall;

/// A device call that a core handed out, for proofs alone: the call, what a write writes, and its number, in the
/// order in which they were handed out.
#[derive(Drop)]
pub struct HandedOut {
    pub(crate) call: IoCall,
    pub(crate) content: Snapshot<Block>,
    pub(crate) number: Snapshot<Log<(), ()>>,
}
