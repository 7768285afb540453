//! What a worker is made of.
ghost use Rattle.std.specs.Prelude.{◌≡◌, None, [], option_to_list};
ghost use Rattle.store_images.specs.Counts.{SameFrame};
ghost use Rattle.store_workers.specs.Ended.{GivesFetchBack, GivesTransactionBack};
ghost use Rattle.store_images.specs.Fetches.{FetchesOnly, PreservesFetches};

use super::asked::Asked;
use super::known::Known;
use super::last_entry::LastEntry;
use nfs_types::{Call, Ctx, Reply};
use procs::{Done, Planner};
use store_promise::{CallAnswer, Cause};
use txn::{Core, FetchIo, Seq, Tx};

// A call that was handed over, with what its procedure is run with.
#[derive(Drop)]
pub(crate) struct Job {
    pub(crate) ctx: Ctx,
    pub(crate) call: Call,
}

// How far a worker is with its call.
#[derive(Clone, Copy, Debug, PartialEq, Eq)]
pub(crate) enum Phase {
    Idle,
    // It has a call, and no transaction.
    Called,
    // It has a transaction, in which it takes again what it knew, and then reads what its plan asks for.
    Planning,
    // A read is due.
    Reading,
    // The read was made, well or not.
    Read(bool),
    // The transaction has to be ended, and then the call is answered.
    Refused(Cause),
    // The transaction has to be ended, and then the call begins again.
    Again,
    // The procedure was committed at this place, and is answered once the place is settled, or can't be any
    // more.
    Waiting(Seq),
}

// What a worker is, whatever it may need in its phase.
pub(crate) struct State {
    pub(crate) phase: Phase,
    pub(crate) work: Work,
    pub(crate) begun: Begun,
    pub(crate) asked: Asked,
    pub(crate) known: Known,
}

// What a worker has of its call and of what came of it.
#[derive(Drop)]
pub(crate) struct Work {
    pub(crate) job: Option<Job>,
    pub(crate) planner: Option<Planner>,
    // The replies of a committed procedure: that of its plan, and the one in its place where the store is
    // broken.
    pub(crate) reply: Option<Reply>,
    pub(crate) broken_reply: Option<Reply>,
    pub(crate) entry: LastEntry,
    pub(crate) answer: Option<CallAnswer>,
}

// What a worker has out of the core, and has to give back.
pub(crate) struct Begun {
    pub(crate) tx: Option<Tx>,
    pub(crate) io: Option<FetchIo>,
}

impl Begun {
    ghost use Rattle.std.specs.Prelude.{◌≡◌, Some, None, true, is_some, [], option_to_list};
    ghost use Rattle.store_images.specs.Counts.{SameFrame};
    ghost use Rattle.store_workers.specs.Ended.{GivesAllBack};
    ghost use Rattle.store_images.specs.Fetches.{FetchesOnly};

    // Takes the transaction that is out.
    pub(crate) fn take_tx(&mut self) -> Tx
        requires { is_some self.old.tx ≡ true }
        ensures tx { self.old.tx ≡ Some result }
        ensures rest { self.new ≡ record self.old { tx = None } }
    {
        match self.tx.take() {
            Some(tx) => tx,
            None => unreachable!(),
        }
    }

    // Takes the fetch that is out.
    pub(crate) fn take_fetch(&mut self) -> FetchIo
        requires { is_some self.old.io ≡ true }
        ensures io { self.old.io ≡ Some result }
        ensures rest { self.new ≡ record self.old { io = None } }
    {
        match self.io.take() {
            Some(io) => io,
            None => unreachable!(),
        }
    }

    // Gives the fetch back, and ends the transaction.
    pub(crate) fn end(self, core: &mut Core<Done>)
        ensures frame { SameFrame core.old core.new }
        ensures ended { core.old.out ≡ option_to_list self.tx → core.new.out ≡ [] }
        ensures fetches { FetchesOnly self.io core.old → FetchesOnly None core.new }
        ensures none { self.tx ≡ None → self.io ≡ None → core.new ≡ core.old }
        ensures gives_back { GivesAllBack self core.old core.new }
    {
        let Begun { tx, io } = self;
        give_up(io, core);
        leave(tx, core);
    }
}

// Gives a fetch back that isn't made any more.
fn give_up(io: Option<FetchIo>, core: &mut Core<Done>)
    ensures frame { SameFrame core.old core.new }
    ensures fetches { FetchesOnly io core.old → FetchesOnly None core.new }
    ensures none { io ≡ None → core.new ≡ core.old }
    ensures gives { GivesFetchBack io core.old core.new }
{
    if let Some(io) = io {
        core.fetch_failed(io);
    }
}

// Ends the transaction.
fn leave(tx: Option<Tx>, core: &mut Core<Done>)
    ensures frame { SameFrame core.old core.new }
    ensures ended { core.old.out ≡ option_to_list tx → core.new.out ≡ [] }
    ensures fetches { PreservesFetches core.old core.new }
    ensures none { tx ≡ None → core.new ≡ core.old }
    ensures leaves { GivesTransactionBack tx core.old core.new }
{
    if let Some(tx) = tx {
        core.abort(tx);
    }
}
