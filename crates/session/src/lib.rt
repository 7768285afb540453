//! From a stream of calls to a stream of replies (RFC 5531): each record is read, its call is served by one
//! thread, and its reply is written. The bytes of messages are `session_wire`'s.
#![tactic(auto)]

mod input;
mod output;
mod record_reply;
mod replies;
mod stream;

pub use input::Input;
pub use output::{Output, OutputCall};
pub use record_reply::reply_to;
pub use session_wire::{
    CallMessage, Judged, MessageCredential, MessageVerifier, ReplyBody, ReplyMessage, RpcReply,
    judge, mount_reply, reply_bytes,
};
pub use stream::{SessionFault, serve};
