//! What the core answers.

use crate::{FetchIo, Receipt, Tx};
use objects::SharedBytes;
use std::alloc::AllocError;
use thiserror::Error;

/// Why no transaction was begun. NoMemory bears the refusal.
#[derive(Clone, Copy, Debug, PartialEq, Eq, Drop, Error)]
pub enum BeginFault {
    #[error("Spent")]
    Spent,
    #[error("NoMemory")]
    NoMemory(AllocError),
    #[error("Broken")]
    Broken,
}

/// What came of a lock request to read an object. The bytes are the object's current ones. NoMemory bears the refusal.
pub enum Want {
    Held(Tx, SharedBytes),
    Busy(Tx),
    Fetch(Tx, FetchIo),
    Loading(Tx),
    Outside(Tx),
    NoMemory(Tx, AllocError),
}

/// What came of a lock request to write a whole block whose bytes don't matter. NoMemory bears the refusal.
pub enum Claim {
    Held(Tx),
    Busy(Tx),
    Loading(Tx),
    Outside(Tx),
    NoMemory(Tx, AllocError),
}

/// What came of a commit: a receipt, or the transaction and its change come back. NoMemory bears the refusal.
pub enum Commit<C> {
    Committed(Receipt<C>),
    Full(Tx, C),
    Foreign(Tx, C),
    NoMemory(Tx, C, AllocError),
    Broken(Tx, C),
    Spent(Tx, C),
}
