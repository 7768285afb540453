//! Committing a change.
ghost use Rattle.std.specs.Prelude.{◌≡◌, ◌≤◌, ◌<◌, ◌↔◌, ℕ, length, All, IfErr, IfOk, IsTrue, true, false};
ghost use Rattle.circ.specs.Log.Log.{IsHomeOn};
ghost use Rattle.circ.specs.Log.Room.{IsRoom};
ghost use Rattle.base.specs.declared.TheConstants.{CHANGED_BLOCKS};
ghost use Rattle.txn.specs.Exactly.{IsCommitExactly, TakesPlaceExactly};
ghost use Rattle.txn.specs.Outcomes.{IsCommit, IsGiven, IsRefused, IsSetBy};
ghost use Rattle.txn_law.specs.Commit.{IsOwn, IsReadBy, IsWrittenBy, HasBytes};
ghost use Rattle.txn_law.specs.CoreWindow.{PreservesHome, PreservesReads};
ghost use Rattle.txn_law.specs.Group.{blocks_of};

use crate::outcomes::Commit;
use crate::records::{Record, block_of_each, can_count_pins, end, keep};
use crate::refresh::refresh;
use crate::{Change, Core, Object, Receipt, Tx};
use disk::BlockNo;
use std::alloc::{AllocError, Global};
use txn_groups::{are_sized, blocks_of_objects, group_of, pointers_to};
use wal::{Append, Room};

impl<C: Change> Core<C> {
    /// Commits a change at the next place, ends its transaction, and gives a receipt. Broken: a write or a barrier has failed.
    /// Foreign: the transaction isn't one that this core began and that hasn't ended; or the change was planned
    /// for other counts than the core's, writes a block that no change may write, writes what this transaction
    /// doesn't hold alone or whose fetch is pending, or read what it doesn't hold for reading or what differs. Spent:
    /// no place is left, or too few positions of the log. Full: the open group and this change pass the log.
    /// These and NoMemory change nothing, but that memory that was refused is counted.
    pub fn commit(&mut self, alloc: Global, tx: Tx, change: C) -> Commit<C>
        requires { length (blocks_of (C.planned change).written) ≤ CHANGED_BLOCKS }
        ensures answer { IsCommit self.old tx (C.planned change) change result self.new }
        ensures given { IsGiven change result }
        ensures sets { IsSetBy self.old (C.planned change) result self.new }
        ensures stays { (other : ℕ) → (other ≡ tx → ⊥) → PreservesReads self.old self.new other }
        ensures preserves { PreservesHome self.old self.new }
    {
        self.lawful();
        self.try_commit(alloc, tx, change)
    }

    // Commits a change, as `commit` does.
    fn try_commit(&mut self, alloc: Global, tx: Tx, change: C) -> Commit<C>
        requires { length (blocks_of (C.planned change).written) ≤ CHANGED_BLOCKS }
        ensures answer { IsCommitExactly self.old tx (C.planned change) change result self.new }
        ensures given { IsGiven change result }
    {
        if self.log.broken() {
            return Commit::Broken(tx, change);
        }
        let blocks = blocks_of_objects(change.written());
        if !self.is_own(tx.number, &change, blocks.as_slice()) {
            return Commit::Foreign(tx, change);
        }
        match self.log.room(blocks.as_slice()) {
            Room::Spent => Commit::Spent(tx, change),
            Room::Full => Commit::Full(tx, change),
            Room::Fits => match self.take_place(alloc, tx, change, blocks.as_slice()) {
                Ok(receipt) => Commit::Committed(receipt),
                Err((tx, change, error)) => {
                    self.refuse(error);
                    Commit::NoMemory(tx, change, error)
                }
            },
        }
    }

    // Commits a change of these blocks that is this transaction's and finds room. All room in memory is made
    // before anything changes; where it is refused the transaction and its change come back.
    fn take_place(
        &mut self,
        alloc: Global,
        tx: Tx,
        change: C,
        blocks: &[BlockNo],
    ) -> Result<Receipt<C>, (Tx, C, AllocError)>
        requires sound { self.old.log.broken ≡ false }
        requires own { IsOwn self.old tx (C.planned change) }
        requires room { IsRoom self.old.log blocks.now Room.Fits }
        requires blocks { blocks.now ≡ blocks_of (C.planned change).written }
        ensures taken { IfOk result (λ receipt. TakesPlaceExactly self.old tx (C.planned change) receipt.place.0
            self.new) }
        ensures given { IfOk result (λ receipt. receipt.change ≡ change) }
        ensures refused { IfErr result (λ back. IsRefused self.old tx change back.0 back.1 self.new) }
    {
        are_sized(change.written());
        change.is_planned();
        self.present.lawful();
        can_count_pins(&self.holds, &self.records);
        if let Err(error) = self.records.reserve(1) {
            return Err((tx, change, error));
        }
        let read = match block_of_each(alloc, change.read()) {
            Ok(read) => read,
            Err(error) => return Err((tx, change, error)),
        };
        let group = match group_of(alloc, &self.present, &self.log, blocks, change.written()) {
            Ok(group) => group,
            Err(error) => return Err((tx, change, error)),
        };
        let pointers = match pointers_to(alloc, group.as_slice()) {
            Ok(pointers) => pointers,
            Err(error) => return Err((tx, change, error)),
        };
        match self.log.append(group) {
            Append::Appended => {
                let Tx { number } = tx;
                let place = self.log.places();
                refresh(&mut self.present, pointers);
                let installed = self.log.installed();
                let kept = Record::of(place, read, &change);
                keep(&mut self.records, &mut self.present, kept, installed);
                end(&mut self.out, &mut self.holds, &mut self.present, number);
                self.log.lawful();
                self.log.whole();
                Ok(Receipt::of(place, change))
            }
            Append::NoMemory(error) => Err((tx, change, error)),
            Append::Full => unreachable!(),
        }
    }

    // Whether the transaction is out, and the change was planned for this core on what the transaction holds.
    fn is_own(&self, transaction: u64, change: &C, blocks: &[BlockNo]) -> bool
        requires { blocks.now ≡ blocks_of (C.planned change.now).written }
        ensures { IsTrue result
            ↔ IsOwn self.now transaction (C.planned change.now) }
    {
        self.is_out(transaction)
            && change.blocks() == self.log.blocks()
            && change.inodes() == self.inodes
            && self.has_read(transaction, change.read())
            && self.may_write(transaction, change.written())
            && self.are_homes(blocks)
    }

    // Whether the transaction holds these objects for reading, and they are as they were read.
    fn has_read(&self, transaction: u64, objects: &[Object]) -> bool
        ensures { IsTrue result ↔ All (IsReadBy self.now transaction) objects.now }
    {
        objects.iter().all(|object| self.holds.is_read_by(transaction, object.addr())
            && self.has_bytes(object))
    }

    // Whether the object's block is in memory, and has its bytes.
    fn has_bytes(&self, object: &Object) -> bool
        ensures { IsTrue result ↔ HasBytes self.now object.now }
    {
        let addr = object.addr();
        match self.present.content_of(addr.block) {
            Some(content) => {
                &content.as_slice()[addr.offset..addr.offset + addr.len] == object.bytes()
            }
            None => false,
        }
    }

    // Whether the transaction holds these objects for writing, and no fetch of their blocks is pending.
    fn may_write(&self, transaction: u64, objects: &[Object]) -> bool
        ensures { IsTrue result
            ↔ All (λ object. IsWrittenBy self.now transaction object.addr) objects.now }
    {
        objects
            .iter()
            .all(|object| self.is_writable(transaction, object))
    }

    // Whether the transaction holds the object for writing, and no fetch of its block is pending.
    fn is_writable(&self, transaction: u64, object: &Object) -> bool
        ensures { IsTrue result ↔ IsWrittenBy self.now transaction object.now.addr }
    {
        let addr = object.addr();
        self.holds.is_written_by(transaction, addr) && !self.present.is_pending(addr.block)
    }

    // Whether a change may write these blocks.
    fn are_homes(&self, blocks: &[BlockNo]) -> bool
        ensures { IsTrue result ↔ All (IsHomeOn self.now.log.blocks) blocks.now }
    {
        blocks.iter().all(|block| self.is_inside(*block))
    }
}
