//! Why no record can be cut out.

use std::alloc::AllocError;
use thiserror::Error;

/// Why no record can be cut out. `NoMemory` has the error of the allocation that failed.
#[derive(Clone, Copy, Debug, PartialEq, Eq, Error)]
pub enum RpcFault {
    #[error("the marks announce more than a record may have")]
    TooLong,
    #[error("no memory")]
    NoMemory(AllocError),
}
