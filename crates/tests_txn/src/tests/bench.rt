//! What each test drives: a core of toy changes over the log of a device in memory.
ghost use Rattle.std.specs.Prelude.{◌≡◌, ◌<◌, [], ◌∷◌, IfSome};

use crate::tests::fake_changes::{At, BLOCKS, INODES, Toy};
use circ::Recovered;
use disk::{BlockNo, CrashDisk, MemDisk};
use objects::{Addr, Mode};
use std::alloc::Global;
use std::test::Fail;
use txn::*;
use wal::{Seq, Wal};

// What a transaction does before it ends. Where memory is refused to it, it does that again.
#[derive(Clone, Copy)]
pub enum Step {
    // It wants an object, and makes its fetch where there is one.
    Want(At),
    // It wants an object, and again where it was fetched.
    Read(At),
    Claim(BlockNo),
    // It wants an object beside others, and again where it was fetched.
    Share(At),
}

// What a step came to, without what it hands out.
#[derive(Clone, Copy, Debug, PartialEq, Eq)]
pub enum Seen {
    Bytes(u8),
    Claimed,
    Busy,
    Fetched,
    FetchFailed,
    Loading,
    Outside,
    NoMemory,
}

// What a commit came to, without what it hands back, which is let go.
#[derive(Clone, Copy, Debug, PartialEq, Eq)]
pub enum Ended {
    Place(Seq),
    Full,
    Foreign,
    NoMemory,
    Broken,
    Spent,
    NotBegun,
}

// A core and its device. What is asked of them has a transaction of its own.
#[derive(Drop)]
pub struct Bench<D: CrashDisk> {
    pub alloc: Global,
    pub disk: D,
    pub core: Core<Toy>,
    ghost size: { (D.device disk).size ≡ core.log.blocks },
}

impl Bench<MemDisk> {
    // A core over an empty log that begins at a position, and a device of zeros of which these calls fail.
    pub fn new(alloc: Global, start: u64, failing: &[u64]) -> Result<Bench<MemDisk>, Fail> {
        let mut disk = MemDisk::new(alloc, BLOCKS)?;
        disk.fail_at(failing)?;
        let found = Recovered {
            start,
            logged: Vec::new(alloc),
        };
        let wal = Wal::new(alloc, BLOCKS, found)?;
        Ok(Bench {
            alloc,
            disk,
            core: Core::new(alloc, wal, INODES, 1),
        })
    }
}

impl<D: CrashDisk> Bench<D> {
    // Whether the next transaction has this number, and its steps come to this.
    pub fn sees(&mut self, number: u64, steps: &[Step], wanted: &[Seen]) -> bool {
        let Some(tx) = self.begin() else {
            return false;
        };
        let is_next = tx.number() == number;
        let (tx, are_seen) = self.take_all(tx, steps, wanted);
        self.core.abort(tx);
        is_next && are_seen && steps.len() == wanted.len()
    }

    // What a change comes to behind these steps of its transaction.
    pub fn commit(&mut self, steps: &[Step], toy: Toy) -> Ended {
        let Some(tx) = self.begin() else {
            return Ended::NotBegun;
        };
        let (tx, _) = self.take_all(tx, steps, &[]);
        self.end(tx, toy)
    }

    // Makes the calls of the logger until it has none, and tells how many there were.
    pub fn log_all(&mut self) -> u16 {
        let mut calls: u16 = 0;
        'calls: for _ in 0..600u16 {
            let Some(io) = self.core.log_next() else {
                break;
            };
            let ok = io.perform(&mut self.disk).is_ok();
            self.core.log_done(io, ok);
            calls = calls.saturating_add(1);
        }
        calls
    }

    // The same of the installer.
    pub fn install_all(&mut self) -> u16 {
        let mut calls: u16 = 0;
        'calls: for _ in 0..600u16 {
            let Some(io) = self.core.inst_next() else {
                break;
            };
            let ok = io.perform(&mut self.disk).is_ok();
            self.core.inst_done(io, ok);
            calls = calls.saturating_add(1);
        }
        calls
    }
}

// The steps of a transaction.
impl<D: CrashDisk> Bench<D> {
    // Begins a transaction, once more where it was refused memory.
    pub fn begin(&mut self) -> Option<Tx> {
        match self.core.begin() {
            Err(BeginFault::NoMemory(_)) => self.core.begin().ok(),
            begun => begun.ok(),
        }
    }

    // Takes these steps, and tells whether they come to this, as far as it is told.
    fn take_all(&mut self, tx: Tx, steps: &[Step], wanted: &[Seen]) -> (Tx, bool) {
        let mut tx = tx;
        let mut are_seen = true;
        'steps: for (step_index, step) in steps.iter().enumerate() {
            let (back, seen) = self.take(tx, *step);
            are_seen = are_seen && is_wanted(wanted, step_index, seen);
            tx = back;
        }
        (tx, are_seen)
    }

    // Takes one, and tells what it comes to.
    pub fn take(&mut self, tx: Tx, step: Step) -> (Tx, Seen) {
        match step {
            Step::Want(at) => self.want(tx, at),
            Step::Read(at) => self.read(tx, at),
            Step::Share(at) => self.share(tx, at),
            Step::Claim(block) => self.claim(tx, block),
        }
    }

    fn read(&mut self, tx: Tx, at: At) -> (Tx, Seen) {
        let (tx, seen) = self.want(tx, at);
        if seen == Seen::Fetched {
            return self.want(tx, at);
        }
        (tx, seen)
    }

    fn share(&mut self, tx: Tx, at: At) -> (Tx, Seen) {
        let (tx, seen) = self.want_in(tx, at, Mode::Shared);
        if seen == Seen::Fetched {
            return self.want_in(tx, at, Mode::Shared);
        }
        (tx, seen)
    }

    fn want(&mut self, tx: Tx, at: At) -> (Tx, Seen) {
        self.want_in(tx, at, Mode::Exclusive)
    }

    fn want_in(&mut self, tx: Tx, at: At, mode: Mode) -> (Tx, Seen) {
        let (tx, seen) = self.want_once(tx, at, mode);
        if seen == Seen::NoMemory {
            return self.want_once(tx, at, mode);
        }
        (tx, seen)
    }

    fn want_once(&mut self, tx: Tx, at: At, mode: Mode) -> (Tx, Seen) {
        match self.core.want(self.alloc, tx, at.addr(), mode) {
            Want::Held(tx, bytes) => (tx, Seen::Bytes(first(bytes.as_slice()))),
            Want::Busy(tx) => (tx, Seen::Busy),
            Want::Fetch(tx, io) => (tx, self.fetch(io)),
            Want::Loading(tx) => (tx, Seen::Loading),
            Want::Outside(tx) => (tx, Seen::Outside),
            Want::NoMemory(tx, _) => (tx, Seen::NoMemory),
        }
    }

    // How many numbers of a whole block aren't 0, as a transaction gets it that reads the block, if it is held at once.
    pub fn count(&mut self, block: BlockNo) -> Option<u32> {
        let tx = self.begin()?;
        let (tx, count) = self.count_in(tx, block);
        self.core.abort(tx);
        count
    }

    fn count_in(&mut self, tx: Tx, block: BlockNo) -> (Tx, Option<u32>) {
        match self
            .core
            .want(self.alloc, tx, Addr::whole(block), Mode::Exclusive)
        {
            Want::Held(tx, bytes) => (tx, Some(bytes.counted().count)),
            Want::Busy(tx) => (tx, None),
            Want::Fetch(tx, io) => {
                self.fetch(io);
                (tx, None)
            }
            Want::Loading(tx) => (tx, None),
            Want::Outside(tx) => (tx, None),
            Want::NoMemory(tx, _) => (tx, None),
        }
    }

    // Wants an object, and hands its fetch out, where there is one.
    pub fn fetch_out(&mut self, tx: Tx, at: At) -> (Tx, Option<FetchIo>) {
        match self.core.want(self.alloc, tx, at.addr(), Mode::Exclusive) {
            Want::Fetch(tx, io) => (tx, Some(io)),
            Want::Held(tx, _) => (tx, None),
            Want::Busy(tx) | Want::Loading(tx) | Want::Outside(tx) | Want::NoMemory(tx, _) => {
                (tx, None)
            }
        }
    }

    // Gives it back as one that failed, and tells whether there was one.
    pub fn give_back(&mut self, io: Option<FetchIo>) -> bool {
        match io {
            Some(io) => {
                self.core.fetch_failed(io);
                true
            }
            None => false,
        }
    }

    fn fetch(&mut self, io: FetchIo) -> Seen
        requires { io.block.0 < self.old.core.log.blocks }
    {
        let mut io = io;
        if io.perform(&mut self.disk).is_ok() {
            self.core.fetched(io);
            Seen::Fetched
        } else {
            self.core.fetch_failed(io);
            Seen::FetchFailed
        }
    }

    fn claim(&mut self, tx: Tx, block: BlockNo) -> (Tx, Seen) {
        match self.core.claim(tx, block) {
            Claim::Held(tx) => (tx, Seen::Claimed),
            Claim::Busy(tx) => (tx, Seen::Busy),
            Claim::Loading(tx) => (tx, Seen::Loading),
            Claim::Outside(tx) => (tx, Seen::Outside),
            Claim::NoMemory(tx, _) => (tx, Seen::NoMemory),
        }
    }

    // Commits a change, and again where memory was refused.
    pub fn end(&mut self, tx: Tx, toy: Toy) -> Ended {
        match self.core.commit(self.alloc, tx, toy) {
            Commit::NoMemory(tx, toy, _) => {
                let outcome = self.core.commit(self.alloc, tx, toy);
                self.let_go(outcome)
            }
            outcome => self.let_go(outcome),
        }
    }

    // Ends the transaction of a change that was refused.
    fn let_go(&mut self, outcome: Commit<Toy>) -> Ended {
        let (tx, ended) = match outcome {
            Commit::Committed(receipt) => return Ended::Place(receipt.place()),
            Commit::Full(tx, _) => (tx, Ended::Full),
            Commit::Foreign(tx, _) => (tx, Ended::Foreign),
            Commit::NoMemory(tx, _, _) => (tx, Ended::NoMemory),
            Commit::Broken(tx, _) => (tx, Ended::Broken),
            Commit::Spent(tx, _) => (tx, Ended::Spent),
        };
        self.core.abort(tx);
        ended
    }
}

// Whether this was wanted at a place, or nothing.
fn is_wanted(wanted: &[Seen], step_index: usize, seen: Seen) -> bool {
    match wanted.get(step_index) {
        Some(one) => *one == seen,
        None => true,
    }
}

fn first(bytes: &[u8]) -> u8 {
    bytes.first().copied().unwrap_or(255)
}
