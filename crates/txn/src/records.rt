//! The commits that aren't installed, and the pins of what they read and of what transactions hold; how a transaction ends.
ghost use Rattle.std.specs.Prelude.{◌≡◌, ◌+◌, ◌^◌, ◌<◌, ◌≤◌, ◌++◌, ◌∷◌, [], if◌then◌else◌, nat_eq, nat_lt, not};
ghost use Rattle.std.specs.Prelude.{All, IfOk, length};
ghost use Rattle.std.specs.List.{filter};
ghost use Rattle.std.specs.VecDeque.{deque_len, deque_capacity};
ghost use Rattle.objects.specs.Pins.{Pins, Unpins, once_at, pins_of};
ghost use Rattle.txn_law.specs.Core.{without};
ghost use Rattle.txn_law.specs.Holds.{released};
ghost use Rattle.txn.specs.Pinned.{AreCountable, AreFew, block_of_each, count_in, holds_in, objects_in, own_in, reads_in};
ghost use Rattle.txn.specs.Pinned.{total};

use crate::{Change, Object};
use disk::BlockNo;
use locks::{Hold, Table};
use objects::Residency;
use std::alloc::{AllocError, Global};
use std::collections::VecDeque;
use std::marker::Model;
use std::snapshot::Snapshot;
use wal::Seq;

/// A commit with its place, and with the block of each object that it read, which is pinned for it. Its change is
/// kept for proofs alone. A clause sees what it read and wrote.
#[derive(Drop)]
pub(crate) struct Record<C: Change> {
    place: Seq,
    blocks: Vec<BlockNo>,
    change: Snapshot<C>,
}

impl<C: Change> Model for Record<C> {
    ghost use Rattle.std.specs.Prelude.{◌≡◌};
    ghost use Rattle.txn_law.specs.Commit.{footprint};
    ghost use Rattle.txn_law.specs.Window.{Footprint};
    ghost use Rattle.txn.specs.Pinned.{block_of_each};

    ghost Value = { Footprint };

    ghost view = { λ r. footprint r.place.0 (C.planned r.change.value) };

    ghost invariant = { λ r. r.blocks.items ≡ block_of_each (C.planned r.change.value).read };
}

impl<C: Change> Record<C> {
    ghost use Rattle.txn_law.specs.Commit.{footprint};

    /// The record of a change that took a place, with the block of each object that it read.
    pub(crate) fn of(place: Seq, blocks: Vec<BlockNo>, change: &C) -> Record<C>
        requires { blocks.items ≡ block_of_each (C.planned change.now).read }
        ensures is { result ≡ footprint place.0 (C.planned change.now) }
        ensures few { length (C.planned change.now).read < 2 ^ 64 }
    {
        let _ = blocks.len();
        Record {
            place,
            blocks,
            change: Snapshot::of(change),
        }
    }

    // Its place.
    fn place(&self) -> Seq
        ensures { result.0 ≡ self.now.place }
    {
        self.place
    }

    // The block of each object that it read.
    fn blocks(&self) -> &[BlockNo]
        ensures { result.now ≡ block_of_each self.now.read }
    {
        &self.blocks
    }
}

/// The block of each object.
pub(crate) fn block_of_each(alloc: Global, objects: &[Object]) -> Result<Vec<BlockNo>, AllocError>
    ensures { IfOk result (λ blocks. blocks.items ≡ block_of_each objects.now) }
{
    objects
        .iter()
        .map(|object| object.addr().block)
        .collect(alloc)
}

/// The pins of each block, one for each hold of a part of it and for each object that a record read in it, can be
/// counted, and as many more as a list has entries.
#[tactic(auto, using(crate::proofs::FewPins::pins_few))]
pub(crate) fn can_count_pins<C: Change>(holds: &Table, records: &VecDeque<Record<C>>)
    requires { AreFew records.now.items }
    ensures { (at : BlockNo) → holds_in holds.now at + reads_in records.now.items at + 2 ^ 64 ≤ 2 ^ 128 }
{
    let taken = holds.holds().len();
    let kept = records.len();
    let _ = (taken, kept);
}

// Pins each of the blocks once more, all of which are pinned.
fn pin_each(present: &mut Residency, blocks: &[BlockNo])
    requires pinned { All (λ block. 0 < pins_of present.old block) blocks.now }
    requires countable { AreCountable present.old blocks.now }
    ensures { Pins present.old (count_in blocks.now) present.new }
{
    for block in blocks {
        present.pin_again(*block);
    }
}

// Takes one pin off each of the blocks.
fn unpin_each(present: &mut Residency, blocks: &[BlockNo])
    ensures { Unpins present.old (count_in blocks.now) present.new }
{
    for block in blocks {
        present.unpin(*block);
    }
}

// Whether the place is further than what is installed.
fn is_past(place: Seq, installed: Seq) -> bool
    ensures { result ≡ nat_lt installed.0 place.0 }
{
    place > installed
}

/// Keeps the record of a commit, for which there is room, until it is installed, and pins what it read.
pub(crate) fn keep<C: Change>(
    records: &mut VecDeque<Record<C>>,
    present: &mut Residency,
    kept: Record<C>,
    installed: Seq,
)
    requires has_space { deque_len records.old < deque_capacity records.old }
    requires pinned { All (λ block. 0 < pins_of present.old block) (block_of_each kept.read) }
    requires countable { AreCountable present.old (block_of_each kept.read) }
    ensures records { records.new.items ≡ (if nat_lt installed.0 kept.place then records.old.items
        ++ kept ∷ [] else records.old.items) }
    ensures pins { Pins present.old (λ at. if nat_lt installed.0 kept.place
        then objects_in kept.read at else 0) present.new }
{
    if is_past(kept.place(), installed) {
        pin_each(present, kept.blocks());
        records.push_back_reserved(kept);
    }
}

// Takes the pins off what a record read whose place is no further than this.
fn forget_one<C: Change>(present: &mut Residency, kept: &Record<C>, installed: Seq)
    ensures { Unpins present.old (λ at. if nat_lt installed.0 kept.now.place then 0
        else objects_in kept.now.read at) present.new }
{
    if is_past(kept.place(), installed) {
        return;
    }
    unpin_each(present, kept.blocks());
}

// Takes the pins off what the records up to a place read.
fn forget_each<C: Change>(present: &mut Residency, records: &VecDeque<Record<C>>, installed: Seq)
    ensures { Unpins present.old (λ at. total (λ kept. if nat_lt installed.0 kept.place then 0
        else objects_in kept.read at) records.now.items) present.new }
{
    for i in 0..records.len() {
        forget_one(present, &records[i], installed);
    }
}

/// Lets go of the records up to a place, and takes the pins off what they read.
pub(crate) fn forget<C: Change>(
    records: &mut VecDeque<Record<C>>,
    present: &mut Residency,
    installed: Seq,
)
    ensures records { records.new.items ≡ filter (λ kept. nat_lt installed.0 kept.place) records.old.items }
    ensures pins { Unpins present.old (λ at. total (λ kept. if nat_lt installed.0 kept.place then 0
        else objects_in kept.read at) records.old.items) present.new }
{
    forget_each(present, records, installed);
    records.retain(|record| record.place() > installed);
}

// Takes one pin off the block of a hold, if the transaction has it.
fn unpin_hold(present: &mut Residency, transaction: u64, hold: &Hold)
    ensures { Unpins present.old (λ at. if not (nat_eq hold.now.transaction transaction) then 0
        else once_at hold.now.addr.block at) present.new }
{
    if hold.transaction != transaction {
        return;
    }
    present.unpin(hold.addr.block);
}

// Takes one pin off the block of each hold that the transaction has.
fn unpin_holds(present: &mut Residency, holds: &Table, transaction: u64)
    ensures { Unpins present.old (own_in transaction holds.now) present.new }
{
    for hold in holds.holds() {
        unpin_hold(present, transaction, hold);
    }
}

/// Ends a transaction: it is out no more, and lets go of what it has taken.
pub(crate) fn end(out: &mut Vec<u64>, holds: &mut Table, present: &mut Residency, transaction: u64)
    ensures out { out.new.items ≡ without transaction out.old.items }
    ensures holds { holds.new ≡ released holds.old transaction }
    ensures pins { Unpins present.old (own_in transaction holds.old) present.new }
{
    out.retain(|other| *other != transaction);
    unpin_holds(present, holds, transaction);
    holds.release_all(transaction);
}
