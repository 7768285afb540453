//! What is noted of a call, for proofs alone.
use crate::{BlockNo, Failed, Side};

/// A call of a device.
#[derive(Clone, Copy, Debug, PartialEq, Eq)]
pub enum Call {
    Read(BlockNo),
    Write(BlockNo),
    Barrier(Side),
}

/// A call with its result.
#[derive(Clone, Copy, Debug, PartialEq, Eq)]
pub struct CallRecord {
    pub call: Call,
    pub result: Result<(), Failed>,
}
