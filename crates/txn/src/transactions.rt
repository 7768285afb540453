//! The core: who has taken what, what is in memory, and the commits that aren't installed.
ghost use Rattle.std.specs.Prelude.{◌≡◌, ◌≤◌, ◌<◌, ◌+◌, ◌*◌, ◌^◌, ◌↔◌, IsTrue, IsSome, IfOk, IfErr, IfSome, IsErrOf};
ghost use Rattle.std.specs.List.{list_any};
ghost use Rattle.std.specs.Prelude.{ℕ, List, nat_eq, true, false, [], length};
ghost use Rattle.base.specs.declared.TheConstants.{CHANGED_BLOCKS, CLEAN_BLOCKS};
ghost use Rattle.circ.specs.Log.Log.{settled_place, tail_count, added_blocks, IsHomeOn};
ghost use Rattle.txn_law.specs.Core.{IsOut, with_begun, with_refused, without};
ghost use Rattle.txn_law.specs.CoreLaw.{IsFresh, IsLawfulCore};
ghost use Rattle.txn_law.specs.CoreWindow.{PreservesHome, PreservesReads};
ghost use Rattle.txn_law.specs.Group.{blocks_of};
ghost use Rattle.txn_law.specs.Leaves.{Leaves, taken_by, is_fetching, in_memory, but_by};
ghost use Rattle.txn_law.specs.LockAnswers.{IsInside};
ghost use Rattle.txn.specs.Answering.{OfSome};
ghost use Rattle.txn.specs.Outcomes.{IsNoBeginning, unbegun};
ghost use Rattle.txn.specs.Pinned.{ArePinned};
ghost use Rattle.txn.specs.Unneeded.{unneeded};

mod abort_all;
mod places;

use crate::records::{Record, end};
use crate::{BeginFault, Change, Object, Stable, Tx};
use base::FIRST_HOME_BLOCK;
use disk::BlockNo;
use http_server::Log;
use locks::Table;
use objects::{Addr, Residency};
use std::alloc::{AllocError, Global};
use std::collections::VecDeque;
use std::marker::Model;
use txn_groups::blocks_of_objects;
use wal::{Seq, Wal};

/// The transactional core of a store, for changes of one kind. It makes no device call: it hands them out. Its type
/// keeps that each block is pinned once for each hold of a part of it and once for each object that a kept record
/// read in it, that no commit is kept that is installed, and what is true of every core (`lawful`).
#[derive(Drop)]
pub struct Core<C: Change> {
    pub(crate) log: Wal,
    pub(crate) inodes: u32,
    // How many transactions were begun.
    pub(crate) begun: u64,
    // The transactions that are out.
    pub(crate) out: Vec<u64>,
    pub(crate) holds: Table,
    // Each block that is held or that a kept record read, with its current content, those that are being fetched,
    // and some that nobody needs, with their current contents; and how often each is pinned.
    pub(crate) present: Residency,
    // The commits that aren't installed, oldest first.
    pub(crate) records: VecDeque<Record<C>>,
    pub(crate) boot: u64,
    // How many device calls of the log were handed out, and how many of the installer: for proofs alone.
    pub(crate) log_calls: Log<(), ()>,
    pub(crate) inst_calls: Log<(), ()>,
    // How often memory was refused to transactions: for proofs alone.
    pub(crate) refused: Log<AllocError, ()>,
}

impl<C: Change> Model for Core<C> {
    ghost use Rattle.std.specs.Prelude.{length};
    ghost use Rattle.txn_law.specs.Core.{CoreState};
    ghost use Rattle.txn_law.specs.CoreLaw.{IsLawfulCore};
    ghost use Rattle.txn.specs.Answering.{OfSome};
    ghost use Rattle.txn.specs.Consistent.{IsConsistent, core_of};

    ghost Value = { CoreState };

    ghost view = { λ c. core_of c.log c.inodes c.begun c.out.items c.holds c.present.blocks c.records.items c.boot
        (length c.log_calls.items) (length c.inst_calls.items) (length c.refused.items) };

    ghost invariant = { λ c. IsConsistent c.log c.holds c.records.items c.present
        × IsLawfulCore (OfSome C.is_plan) (core_of c.log c.inodes c.begun c.out.items c.holds c.present.blocks
        c.records.items c.boot (length c.log_calls.items) (length c.inst_calls.items) (length c.refused.items))
        × C.are_counts c.log.blocks c.inodes };
}

impl<C: Change> Core<C> {
    /// A core over a log, for an image with the log's blocks, this count of inodes, and this boot number. No device
    /// call was handed out, and no memory refused.
    pub fn new(alloc: Global, log: Wal, inodes: u32, boot: u64) -> Core<C>
        requires fresh { IsFresh log }
        requires counts { C.are_counts log.blocks inodes }
        ensures { result ≡ record {
          log = log;
          inodes = inodes;
          begun = 0;
          out = [];
          holds = [];
          present = [];
          records = [];
          boot = boot;
          log_calls = 0;
          inst_calls = 0;
          refused = 0;
        } }
    {
        log.lawful();
        log.whole();
        Core {
            log,
            inodes,
            begun: 0,
            out: Vec::new(alloc),
            holds: Table::new(alloc),
            present: Residency::new(alloc),
            records: VecDeque::new(alloc),
            boot,
            log_calls: Log::new(),
            inst_calls: Log::new(),
            refused: Log::new(),
        }
    }

    /// What is true of every core: its log is lawful, what transactions have taken and what is in memory is
    /// well formed, there are blocks that may be what is at home, and each commit that is kept is a plan's.
    pub fn lawful(&self)
        ensures { IsLawfulCore (OfSome C.is_plan) self.now }
    {
        let _ = &self.log;
    }

    /// Of the blocks that nobody needs, fewer are in memory than twice `CLEAN_BLOCKS`.
    pub fn few_unneeded(&self)
        ensures { length (unneeded self.now) < 2 * CLEAN_BLOCKS }
    {
        self.present.few_unneeded();
    }

    /// An image may have the counts that it has.
    pub fn counted(&self)
        ensures { C.are_counts self.now.log.blocks self.now.inodes }
    {
        let _ = &self.log;
    }

    /// The image's counts of blocks and of inodes.
    pub fn counts(&self) -> (u32, u32)
        ensures { result ≡ (self.now.log.blocks, self.now.inodes) }
    {
        (self.log.blocks(), self.inodes)
    }

    /// The boot number that the image was given by the opening.
    pub fn boot(&self) -> u64
        ensures { result ≡ self.now.boot }
    {
        self.boot
    }

    /// Whether the transaction of this number is out.
    pub fn is_out(&self, number: u64) -> bool
        ensures { IsTrue result ↔ IsOut self.now number }
    {
        is_among(number, &self.out)
    }

    /// Begins a transaction beside those that are out. Transactions are numbered from 1. Broken: a write or a
    /// barrier has failed. Spent: no number is left. NoMemory: there was no room to note it. They are tested in
    /// this order, and change nothing, but that memory that was refused is counted.
    pub fn begin(&mut self) -> Result<Tx, BeginFault>
        ensures begun { IfOk result (λ tx. (tx ≡ self.old.begun + 1)
            × (self.new ≡ with_begun self.old)) }
        ensures counted { IfOk result (λ tx. tx < 2 ^ 64) }
        ensures refused { IfErr result (λ why. IsNoBeginning why self.old × (self.new ≡ unbegun why self.old)) }
        ensures broken { IsErrOf result BeginFault.Broken ↔ (self.old.log.broken ≡ true) }
        ensures spent { IsErrOf result BeginFault.Spent
            ↔ ((self.old.log.broken ≡ false) × (self.old.begun + 1 ≡ 2 ^ 64)) }
        ensures stays { (other : ℕ) → PreservesReads self.old self.new other }
        ensures preserves { PreservesHome self.old self.new }
    {
        if self.log.broken() {
            return Err(BeginFault::Broken);
        }
        if self.begun == u64::MAX {
            return Err(BeginFault::Spent);
        }
        let number = self.begun + 1;
        if let Err(failed) = self.out.insert(0, number) {
            let error = AllocError::from(failed);
            self.refuse(error);
            return Err(BeginFault::NoMemory(error));
        }
        self.begun = number;
        Ok(Tx { number })
    }

    /// Ends a transaction without a change, and lets go of what it has taken. Blocks that nobody needs any more may
    /// stay in memory, or go.
    pub fn abort(&mut self, tx: Tx)
        ensures only { self.new ≡ record self.old {
          out = without tx self.old.out;
          holds = self.new.holds;
          present = self.new.present;
        } }
        ensures leaves { Leaves self.new (but_by tx (taken_by self.old)) (is_fetching self.old)
            (in_memory self.old) }
        ensures stays { (other : ℕ) → (other ≡ tx → ⊥) → PreservesReads self.old self.new other }
        ensures preserves { PreservesHome self.old self.new }
    {
        let Tx { number } = tx;
        end(&mut self.out, &mut self.holds, &mut self.present, number);
    }

    /// Ends a transaction as `abort` does, whose worker was refused memory, and counts that.
    pub fn abort_for(&mut self, tx: Tx, error: AllocError)
        ensures only { self.new ≡ record self.old {
          out = without tx self.old.out;
          holds = self.new.holds;
          present = self.new.present;
          refused = self.old.refused + 1;
        } }
        ensures leaves { Leaves self.new (but_by tx (taken_by self.old)) (is_fetching self.old)
            (in_memory self.old) }
        ensures stays { (other : ℕ) → (other ≡ tx → ⊥) → PreservesReads self.old self.new other }
        ensures preserves { PreservesHome self.old self.new }
    {
        self.abort(tx);
        self.refuse(error);
    }

    /// Counts that memory was refused.
    pub fn refuse(&mut self, error: AllocError)
        ensures counted { self.new ≡ with_refused self.old }
        ensures stays { (other : ℕ) → PreservesReads self.old self.new other }
        ensures preserves { PreservesHome self.old self.new }
    {
        count_refusal(&mut self.refused, error);
    }

    // Whether the transaction is out, and a change may write the address's block.
    pub(crate) fn may_request(&self, transaction: u64, addr: Addr) -> bool
        ensures { IsTrue result ↔ IsInside self.now transaction addr }
    {
        self.is_out(transaction) && self.is_inside(addr.block)
    }

    // Whether a change may write the block.
    pub(crate) fn is_inside(&self, block: BlockNo) -> bool
        ensures { IsTrue result ↔ IsHomeOn self.now.log.blocks block }
    {
        block.0 >= FIRST_HOME_BLOCK && block.0 < self.log.blocks()
    }

    /// Shows that the place is settled, where it is.
    pub fn stable(&self, place: Seq) -> Option<Stable>
        ensures settled { IsSome result ↔ (place.0 ≤ settled_place self.now.log) }
        ensures place { IfSome result (λ stable. stable ≡ place.0) }
    {
        if place <= self.log.settled() {
            Some(Stable { place })
        } else {
            None
        }
    }

    /// Whether every commit is settled.
    pub fn is_settled(&self) -> bool
        ensures { IsTrue result ↔ (settled_place self.now.log ≡ self.now.log.places) }
    {
        self.log.settled() == self.log.places()
    }

    /// How many commits it keeps: those that aren't installed.
    pub fn kept(&self) -> usize
        ensures { result ≡ length self.now.records }
    {
        self.records.len()
    }

    /// How many blocks are pinned, for what transactions have taken and for what kept commits read. Those for which only
    /// room was made count too.
    pub fn pinned(&self) -> usize
        ensures { (numbers : List ℕ) → ArePinned self.now numbers → length numbers ≤ result }
    {
        self.present.pinned()
    }

    /// How many blocks the open tail of the log holds.
    pub fn tail(&self) -> usize
        ensures { result ≡ tail_count self.now.log }
    {
        self.log.tail()
    }

    /// How many blocks more the open tail of the log holds by a change of these objects: what a commit of it
    /// adds.
    pub fn added_blocks(&self, objects: &[Object]) -> usize
        requires { length (blocks_of objects.now) ≤ CHANGED_BLOCKS }
        ensures { result ≡ added_blocks self.now.log (blocks_of objects.now) }
    {
        self.log.added_blocks(blocks_of_objects(objects).as_slice())
    }

    /// Whether a write or a barrier has failed. Nothing is begun or committed any more.
    pub fn broken(&self) -> bool
        ensures { result ≡ self.now.log.broken }
    {
        self.log.broken()
    }
}

// Counts that memory was refused.
fn count_refusal(refused: &mut Log<AllocError, ()>, error: AllocError)
    ensures { length refused.new.items ≡ length refused.old.items + 1 }
{
    *refused = refused.and(&error, &());
}

// Whether the number is among these.
fn is_among(number: u64, out: &[u64]) -> bool
    ensures { result ≡ list_any (λ other. nat_eq other number) out.now }
{
    out.iter().any(|other| *other == number)
}
