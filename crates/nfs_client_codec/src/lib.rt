//! The client's half of the wire (RFC 1813, sections 3.3 and 5.2): the arguments of calls are written, and
//! the results of replies are read, by the grammar of `nfs_codec` and `nfs_results`. Nothing of the server
//! stands on it.
#![tactic(auto)]

mod arguments;
mod by_status;
mod decode;
mod entries;
mod file_attributes;
mod outcomes;
mod put;
mod results;

pub use arguments::encode_call;
pub use results::{decode_reply, read_result};
