//! What shows that an answer may be given.

use crate::jobs::{Immediate, ReplyAddress};
use procs::CommitWitness;
use std::alloc::AllocError;
use std::snapshot::Snapshot;
use txn::Stable;

/// What shows that an answer may be given.
#[derive(Drop)]
pub enum Evidence {
    /// The record begins no transaction: this is the reply to it.
    Immediate(Snapshot<Immediate>),
    /// The job's procedure was committed; and where its reply has to be stable, its place is settled.
    Committed(ReplyAddress, CommitWitness, Option<Stable>),
    /// The job is answered IO or SERVERFAULT in the place of its reply.
    Substitute(ReplyAddress),
    /// Memory was refused to the job: this is the refusal.
    Lacking(ReplyAddress, AllocError),
    /// The job's call begins no transaction.
    Nothing(ReplyAddress),
}
