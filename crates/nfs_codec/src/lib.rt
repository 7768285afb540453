//! The arguments of NFS version 3 and of MOUNT (RFC 1813, sections 3.3 and 5.2), read; and the items that
//! arguments and results share, read and written. Their grammar stands in `specs/`.
#![tactic(auto)]

mod argument_laws;
mod arguments;
mod items;
mod numbers;
mod procedure;
mod put;
mod status;

pub use argument_laws::{
    arguments_are_refused_so, arguments_share_no_spelling, spelled_arguments_are_read,
    spelling_gives_the_call,
};
pub use arguments::decode_call;
pub use numbers::{number_of_kind, number_of_stability};
pub use procedure::procedure_of;
pub use put::{put_device, put_handle, put_moment, put_stability, put_text, put_verifier};
pub use status::{number_of_status, status_numbered};
