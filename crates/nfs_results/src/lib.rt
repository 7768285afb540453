//! The results of NFS version 3 and of MOUNT (RFC 1813, sections 3.3 and 5.2), written. Their grammar stands in
//! `specs/`, over the items of `nfs_codec`.
#![tactic(auto)]

mod data;
mod entries;
mod file_attributes;
mod outcomes;
mod result_laws;
mod results;

pub use result_laws::{
    results_are_refused_so, results_share_no_spelling, spelled_results_are_read,
    spelling_gives_the_reply,
};
pub use results::{encode_into, encode_reply, put_mount_reply, put_reply, reply_len};
