//! What a record is taken for, and what is answered.

use nfs_types::{Credential, MountReply, Octets, ProgramCall, ProgramReply, Reply};
use rpc::Refusal;
use std::alloc::AllocError;

/// What the bytes of a record are taken for.
#[derive(Drop)]
pub enum Judged {
    /// No call, or none whose header can be read: the connection is closed without a reply.
    Closed,
    /// A call that is refused before it comes to its procedure.
    Refused {
        xid: u32,
        refusal: Refusal,
    },
    /// A call.
    Call {
        xid: u32,
        credential: Credential,
        call: ProgramCall,
    },
}

/// A call to which memory was refused, for its arguments or for its caller's groups: the number of its message, and the
/// refusal.
#[derive(Clone, Copy, Debug, PartialEq, Eq)]
pub struct Lacking {
    pub xid: u32,
    pub error: AllocError,
}

/// What a call is answered.
#[derive(Clone, Copy)]
pub enum RpcReply<'a> {
    Nfs(&'a Reply),
    Mount(&'a MountReply),
    Refused(Refusal),
}

/// Whom a call message names (RFC 5531, section 8.2 and appendix A).
#[derive(Drop)]
pub enum MessageCredential {
    Nobody,
    Caller {
        stamp: u32,
        machine: Octets,
        caller: Credential,
    },
}

/// What a message proves its caller by. The server doesn't look at it.
#[derive(Drop)]
pub struct MessageVerifier {
    pub flavor: u32,
    pub body: Octets,
}

/// A call of either program as a message.
#[derive(Drop)]
pub struct CallMessage {
    pub xid: u32,
    pub credential: MessageCredential,
    pub verifier: MessageVerifier,
    pub call: ProgramCall,
}

/// What a reply message bears.
#[derive(Drop)]
pub enum ReplyBody {
    Done(ProgramReply),
    Refused(Refusal),
}

/// A reply of either program as a message.
#[derive(Drop)]
pub struct ReplyMessage {
    pub xid: u32,
    pub body: ReplyBody,
}
