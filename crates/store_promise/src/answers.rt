//! What a worker gives.

use nfs_types::{Call, Ctx, Reply};
use std::alloc::AllocError;
use txn::Seq;

/// What a call is answered: a reply of its procedure, or that memory was refused, with that refusal.
#[derive(Drop)]
pub enum Verdict {
    Reply(Reply),
    NoMemory(AllocError),
}

/// An answer, with the place of its procedure, if that was committed.
#[derive(Drop)]
pub struct CallAnswer {
    pub verdict: Verdict,
    pub place: Option<Seq>,
}

/// A committed procedure: what it was run with, what it was asked, and its reply.
#[derive(Drop)]
pub struct Entry {
    pub ctx: Ctx,
    pub call: Call,
    pub reply: Reply,
}
