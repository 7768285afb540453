//! What an opening answers of a log.

use disk::{Block, BlockNo};
use std::alloc::AllocError;
use thiserror::Error;

/// The log as an opening finds it.
#[derive(Drop)]
pub struct Recovered {
    /// The log position of the first block.
    pub start: u64,
    /// The logged blocks with their home addresses, in log order.
    pub logged: Vec<(BlockNo, Block)>,
}

/// Why a log isn't read.
#[derive(Clone, Copy, Debug, PartialEq, Eq, Error)]
pub enum LogFault {
    #[error("the log's start and end don't belong together")]
    Range,
    #[error("a logged block's address is no home of this disk")]
    Address,
    #[error("the device failed")]
    Device,
    /// It bears the refusal.
    #[error("out of memory")]
    NoMemory(AllocError),
}
