//! What may happen to a store, one step at a time.

ghost use Rattle.std.specs.Prelude.{◌≡◌};

use arrayvec::ArrayVec;
use base::CHANGED_BLOCKS;
use circ::IoCall;
use disk::BlockNo;
use nfs_types::{Call, Credential, Moment};
use objects::{Addr, Mode};
use std::alloc::AllocError;
use std::marker::Model;
use std::snapshot::Snapshot;
use txn::{BeginFault, Seq};

/// What comes next. Workers count from 0.
#[derive(Drop)]
pub enum Event {
    /// A call is handed to an idle worker.
    Call {
        worker: usize,
        credential: Credential,
        moment: Moment,
        call: Call,
    },
    /// A worker that has a call, and no read due, makes its next step.
    Work(usize),
    /// A worker's read from the disk is made.
    Read(usize),
    /// The log takes its next device call, or gives back the one that was made.
    Log,
    /// The log's device call is made.
    LogIo,
    /// The installer takes its next device call, or gives back the one that was made.
    Install,
    /// The installer's device call is made.
    InstIo,
}

/// What a lock request of a transaction was answered. NoMemory bears the refusal.
#[derive(Clone, Copy, Debug, PartialEq, Eq)]
pub enum LockAnswer {
    Held,
    Busy,
    Fetch,
    Loading,
    Outside,
    NoMemory(AllocError),
}

/// What a commit was answered: its place, or why it is refused. NoMemory bears the refusal.
#[derive(Clone, Copy, Debug, PartialEq, Eq)]
pub enum Committing {
    Committed(Seq),
    Full,
    Foreign,
    NoMemory(AllocError),
    Broken,
    Spent,
}

/// The blocks that a change writes. They are told for proofs alone, and take no memory.
#[derive(Drop)]
pub struct Changed {
    blocks: Snapshot<ArrayVec<BlockNo, CHANGED_BLOCKS>>,
}

impl Model for Changed {
    ghost use Rattle.std.specs.Prelude.{List};
    ghost use Rattle.disk.specs.declared.block.BlockNo.{BlockNo};

    ghost Value = { List BlockNo };

    ghost view = { λ changed. changed.blocks.value.items };
}

impl Changed {
    /// These blocks.
    pub fn of(blocks: &ArrayVec<BlockNo, CHANGED_BLOCKS>) -> Changed
        ensures { result ≡ blocks.now.items }
    {
        Changed {
            blocks: Snapshot::of(blocks),
        }
    }
}

/// Why a call is refused.
#[derive(Clone, Copy, Debug, PartialEq, Eq)]
pub enum Cause {
    /// A read of it failed, or the store is broken.
    Io,
    /// A counter is spent.
    Spent,
    /// An allocation failed: it bears the refusal.
    NoMemory(AllocError),
}

/// Why a transaction is ended without a change.
#[derive(Clone, Copy, Debug, PartialEq, Eq)]
pub enum Ending {
    /// Its call begins again.
    Again,
    /// A step of it was refused, or its read failed.
    Refused,
    /// The worker found no memory to plan with: it bears the refusal.
    NoMemory(AllocError),
}

/// The step that an event made: a method of the core with what it was asked and answered, a device call with
/// whether it was answered Ok, or what the worker did without either.
#[derive(Drop)]
pub enum Step {
    /// The worker was handed a call.
    Called,
    /// The call needs no transaction.
    Replied,
    /// The number of the transaction, or why none was begun.
    Begun(Result<u64, BeginFault>),
    /// An address was wanted in a mode, and what that was answered.
    Wanted(Addr, Mode, LockAnswer),
    Claimed(BlockNo, LockAnswer),
    Fetched(BlockNo),
    FetchFailed(BlockNo),
    /// The blocks that the change writes, each once, and what the commit was answered.
    Commit(Changed, Committing),
    /// The transaction was ended without a change.
    Ended(Ending),
    /// Whether the place is settled.
    Stable(Seq, bool),
    /// The worker's block was read, or not.
    Read(BlockNo, bool),
    /// The log's next device call was taken.
    LogNext(IoCall),
    LogIo(bool),
    LogDone(bool),
    /// The installer's next device call was taken.
    InstNext(IoCall),
    InstIo(bool),
    InstDone(bool),
}
