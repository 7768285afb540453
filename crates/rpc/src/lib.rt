//! Remote procedure calls (RFC 5531): records, the headers of calls, and the replies that have no result.
#![tactic(auto)]

mod constants;
mod credential;
mod cutter;
mod fault;
mod header;
mod record_laws;
mod records;
mod refusal;
mod stage;

pub use constants::{
    AUTH_NONE, AUTH_SYS, CALL, LAST_FRAGMENT, MOUNT_PROGRAM, NFS_PROGRAM, NFS_VERSION, REPLY,
    RPC_VERSION,
};
pub use credential::{NamedCaller, SpelledGids, SystemCredential, read_caller, read_credential};
pub use fault::RpcFault;
pub use header::{Header, Opening, read_header, read_opening};
pub use record_laws::{
    a_cut_goes_on, a_rest_is_one_of_three, each_stream_has_a_cut,
    fragments_of_no_bytes_are_not_held, no_record_stands_there, records_are_handed_out_in_order,
    streams_have_one_cut, too_long_stays,
};
pub use records::Records;
pub use refusal::{Refusal, put_accepted, put_refusal};
