//! External data representation (RFC 4506): items of four bytes each, the greatest byte first, and in
//! `specs/` the codes that are built of them.
#![tactic(auto)]

mod fault;
mod ghost_bytes;
mod reader;
mod writer;

pub use fault::XdrFault;
pub use reader::Reader;
pub use writer::Writer;
