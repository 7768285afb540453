//! Reading and claiming what a transaction works on.
ghost use Rattle.std.specs.Prelude.{◌≡◌, ◌+◌, ◌-◌, ◌^◌, ◌<◌, Bool, if◌then◌else◌, IfOk, OnOk, OnErr, None, Some, true};
ghost use Rattle.std.specs.Prelude.{ℕ, IfSome, length};
ghost use Rattle.disk.specs.Crash.{Image};
ghost use Rattle.disk.specs.Device.{Content, Device, current, newest as newest_content};
ghost use Rattle.disk.specs.declared.block.BlockNo.{BlockNo as BlockNumber};
ghost use Rattle.objects.specs.Pins.{Pins, PinsStay, once_at, pins_of};
ghost use Rattle.objects.specs.Present.{bytes_in, content_in, present_of};
ghost use Rattle.objects.specs.declared.addr.Addr.{Addr};
ghost use Rattle.objects.specs.declared.mode.Mode.TheVariants as modes;
ghost use Rattle.circ.specs.Log.Calls.{AgreesWithPending, Pending};
ghost use Rattle.circ.specs.Log.Log.{newest};
ghost use Rattle.txn_law.specs.CoreLaw.{IsLawfulCore};
ghost use Rattle.txn_law.specs.CoreWindow.{IsHomeOf, PreservesHome, PreservesReads, IsPending};
ghost use Rattle.txn_law.specs.Holds.{IsFree, with_hold};
ghost use Rattle.txn_law.specs.HomeRead.{IsReadable, HasContents};
ghost use Rattle.txn_law.specs.Leaves.{Leaves, HasFetched, taken_by, is_fetching, in_memory, without_fetch};
ghost use Rattle.txn_law.specs.Lists.{claimed, taken};
ghost use Rattle.txn_law.specs.LockAnswers.{IsOpen, IsWhole};
ghost use Rattle.txn.specs.Answering.{OfSome};
ghost use Rattle.txn.specs.Exactly.{IsWantedExactly, IsClaimedExactly};
ghost use Rattle.txn.specs.Outcomes.{IsWanted, IsWithin, IsClaimed};
ghost use Rattle.txn.specs.Pinned.{newly_in};
ghost use Rattle.txn.specs.Source.{IsSource, IsSourceWithin};

use crate::outcomes::{Claim, Want};
use crate::records::can_count_pins;
use crate::{Change, Core, FetchIo, Tx};
use disk::{Block, BlockNo, SharedBlock};
use locks::{Hold, Table, for_fetching, for_reading, for_writing};
use objects::{Addr, Mode, Residency, SharedBytes};
use std::alloc::{AllocError, Global};

// What want found, before the transaction is handed back.
enum Source {
    Bytes(SharedBytes),
    Fetch(FetchIo),
}

impl<C: Change> Core<C> {
    /// Takes an object for reading, in a mode: beside others that share it, or alone. Outside: the block isn't one
    /// that a change may write, or the transaction isn't one that this core began and that hasn't ended. Busy:
    /// another transaction has taken a byte of it, and it or this one takes that alone; or this one has taken a byte
    /// of it by another address. Loading: a fetch of the block is pending, and nothing is taken. They are tested in
    /// this order. Fetch: the block has to be read from home; the object is taken, and the same want after `fetched`
    /// answers Held or NoMemory. NoMemory: nothing has changed, but that the refusal is counted. An object that this transaction shares is raised by a
    /// want of it alone, where no other transaction shares it.
    pub fn want(&mut self, alloc: Global, tx: Tx, addr: Addr, mode: Mode) -> Want
        ensures answer { IsWanted self.old tx addr mode result self.new }
        ensures within { IsWithin self.old.log.blocks addr.len result }
        ensures stays { (other : ℕ) → PreservesReads self.old self.new other }
        ensures preserves { PreservesHome self.old self.new }
    {
        self.take_object(alloc, tx, addr, mode)
    }

    // Takes an object for reading, as `want` does.
    fn take_object(&mut self, alloc: Global, tx: Tx, addr: Addr, mode: Mode) -> Want
        ensures answer { IsWantedExactly self.old tx addr mode result self.new }
        ensures within { IsWithin self.old.log.blocks addr.len result }
    {
        if !self.may_request(tx.number, addr) {
            return Want::Outside(tx);
        }
        if !self.holds.is_free(tx.number, addr, mode) {
            return Want::Busy(tx);
        }
        if self.present.is_pending(addr.block) {
            return Want::Loading(tx);
        }
        match self.take_for_reading(alloc, tx.number, addr, mode) {
            Ok(Source::Bytes(bytes)) => Want::Held(tx, bytes),
            Ok(Source::Fetch(io)) => Want::Fetch(tx, io),
            Err(error) => {
                self.refuse(error);
                Want::NoMemory(tx, error)
            }
        }
    }

    /// Takes a whole block for writing, whose bytes don't matter. It answers as `want` does, and never Fetch.
    pub fn claim(&mut self, tx: Tx, block: BlockNo) -> Claim
        ensures answer { (addr : Addr) × IsWhole block addr × IsClaimed self.old tx addr result self.new }
        ensures stays { (other : ℕ) → PreservesReads self.old self.new other }
        ensures preserves { PreservesHome self.old self.new }
    {
        self.claim_at(tx, block, Addr::whole(block))
    }

    // Takes a block by the address of all of it, for writing.
    fn claim_at(&mut self, tx: Tx, block: BlockNo, addr: Addr) -> Claim
        requires { IsWhole block addr }
        ensures { IsClaimedExactly self.old tx addr result self.new }
    {
        if !self.may_request(tx.number, addr) {
            return Claim::Outside(tx);
        }
        if !self.holds.is_free(tx.number, addr, Mode::Exclusive) {
            return Claim::Busy(tx);
        }
        if self.present.is_pending(addr.block) {
            return Claim::Loading(tx);
        }
        match self.take_for_writing(tx.number, addr) {
            Ok(()) => Claim::Held(tx),
            Err(error) => {
                self.refuse(error);
                Claim::NoMemory(tx, error)
            }
        }
    }

    // Takes a block by the address of all of it, which is free. Where there is no room nothing changes.
    fn take_for_writing(&mut self, transaction: u64, addr: Addr) -> Result<(), AllocError>
        requires whole { IsWhole addr.block addr }
        requires free { IsOpen self.old transaction addr modes.Exclusive }
        ensures taken { OnOk result (self.new ≡ claimed self.old transaction addr) }
        ensures refused { OnErr result (self.new ≡ self.old) }
    {
        self.holds.lawful();
        can_count_pins(&self.holds, &self.records);
        take(
            &mut self.holds,
            &mut self.present,
            for_writing(transaction, addr),
        )
    }

    // Takes the object, which is free, and its block's place in memory where it has none. Where there is no room
    // nothing changes.
    fn take_for_reading(
        &mut self,
        alloc: Global,
        transaction: u64,
        addr: Addr,
        mode: Mode,
    ) -> Result<Source, AllocError>
        requires { IsOpen self.old transaction addr mode }
        ensures found { IfOk result (λ found. IsSource self.old transaction addr mode found self.new) }
        ensures within { IfOk result (IsSourceWithin addr.len) }
        ensures refused { OnErr result (self.new ≡ self.old) }
    {
        if let Some(bytes) = self.bytes_at(alloc, addr)? {
            self.holds.lawful();
            can_count_pins(&self.holds, &self.records);
            take(
                &mut self.holds,
                &mut self.present,
                for_reading(transaction, addr, mode),
            )?;
            return Ok(Source::Bytes(bytes));
        }
        if let Some(newest) = self.log.latest(addr.block) {
            let content = newest.clone()?;
            let bytes = SharedBytes::of_block(&content, addr)?;
            self.take_with(for_reading(transaction, addr, mode), Some(content))?;
            return Ok(Source::Bytes(bytes));
        }
        let buffer = Block::zeros(alloc)?;
        self.take_with(for_fetching(transaction, addr, mode), None)?;
        Ok(Source::Fetch(FetchIo {
            block: addr.block,
            buffer,
        }))
    }

    // The bytes of an object, if its block is in memory and its fetch isn't pending.
    fn bytes_at(&mut self, alloc: Global, addr: Addr) -> Result<Option<SharedBytes>, AllocError>
        ensures same { self.new ≡ self.old }
        ensures bytes { IfOk result (λ found. found
            ≡ bytes_in (content_in (present_of self.old.present addr.block)) addr.offset addr.len) }
        ensures len { IfOk result (λ found. IfSome found (λ bytes. length bytes ≡ addr.len)) }
    {
        self.present.bytes_at(alloc, addr)
    }

    // Takes what a lock request is for, which is free, with its block, which isn't in memory and gets this content, or is
    // to be fetched. All of it is taken, or nothing.
    fn take_with(&mut self, hold: Hold, content: Option<SharedBlock>) -> Result<(), AllocError>
        requires free { IsFree self.old.holds hold.transaction hold.addr hold.mode }
        requires absent { present_of self.old.present hold.addr.block ≡ None }
        requires logged { (newer : Content) → newest self.old.log hold.addr.block.0 ≡ Some newer
            → content ≡ Some newer }
        requires lawful { IsLawfulCore (OfSome C.is_plan) (taken self.old hold content) }
        ensures taken { OnOk result (self.new ≡ taken self.old hold content) }
        ensures refused { OnErr result (self.new ≡ self.old) }
    {
        self.holds.lawful();
        let block = hold.addr.block;
        let again = self.holds.is_held_by(hold.transaction, hold.addr);
        can_count_pins(&self.holds, &self.records);
        self.present.bring(block, content)?;
        if let Err(none) = track(&mut self.holds, hold) {
            self.present.take_back(block);
            return Err(none);
        }
        settle(&mut self.present, block, again);
        Ok(())
    }

    /// Gives a fetch back with what was read. The block is in memory then while anyone has taken a part of
    /// it, where its fetch was pending; else nothing comes. What the disk has of a pending block is what is
    /// at home.
    pub fn fetched(&mut self, io: FetchIo)
        ensures only { self.new ≡ record self.old { present = self.new.present } }
        ensures leaves { HasFetched self.old io.block io.content self.new }
        ensures brings { (d : Device) (base : Image) (logging installing : Pending)
            → AgreesWithPending d base self.old.log logging installing → IsReadable d self.old.log installing
            → HasContents d → io.content ≡ newest_content (current d io.block.0) → IsPending self.old io.block
            → io.content ≡ base io.block.0 }
        ensures stays { (other : ℕ) → PreservesReads self.old self.new other }
        ensures preserves { (base : Image) → (IsPending self.old io.block → io.content ≡ base io.block.0)
            → IsHomeOf base self.old → IsHomeOf base self.new }
    {
        io.whole();
        let FetchIo { block, buffer } = io;
        self.present.fetched(block, buffer);
    }

    /// Gives a fetch back that failed. The next want of the block asks for it again.
    pub fn fetch_failed(&mut self, io: FetchIo)
        ensures only { self.new ≡ record self.old { present = self.new.present } }
        ensures leaves { Leaves self.new (taken_by self.old) (without_fetch io.block (is_fetching self.old))
            (in_memory self.old) }
        ensures stays { (other : ℕ) → PreservesReads self.old self.new other }
        ensures preserves { PreservesHome self.old self.new }
    {
        let FetchIo { block, buffer: _ } = io;
        self.present.fetch_failed(block);
    }
}

// Takes one pin off again, where the block was pinned for a hold that there was before and is pinned for it still.
fn settle(present: &mut Residency, block: BlockNo, again: bool)
    requires { again ≡ true → 1 < pins_of present.old block }
    ensures pins { (at : BlockNumber) → pins_of present.new at
        ≡ pins_of present.old at - (if again then once_at block at else 0) }
    ensures blocks { present.new.blocks ≡ present.old.blocks }
{
    if again {
        present.take_pin_back(block);
    }
}

// Takes what a lock request is for that nothing keeps off, and pins its block for it, where the transaction hadn't taken
// the address.
fn take(holds: &mut Table, present: &mut Residency, hold: Hold) -> Result<(), AllocError>
    requires free { IsFree holds.old hold.transaction hold.addr hold.mode }
    requires countable { pins_of present.old hold.addr.block + 1 < 2 ^ 128 }
    ensures taken { OnOk result (holds.new ≡ with_hold holds.old hold) }
    ensures pinned { OnOk result (Pins present.old (newly_in holds.old hold) present.new) }
    ensures refused { OnErr result (holds.new ≡ holds.old) }
    ensures same { OnErr result (PinsStay present.old present.new) }
    ensures blocks { present.new.blocks ≡ present.old.blocks }
{
    if holds.is_held_by(hold.transaction, hold.addr) {
        return track(holds, hold);
    }
    let block = hold.addr.block;
    present.reserve_next(block)?;
    track(holds, hold)?;
    present.pin_reserved(block);
    Ok(())
}

// Notes what a lock request is for that nothing keeps off.
fn track(holds: &mut Table, hold: Hold) -> Result<(), AllocError>
    requires { IsFree holds.old hold.transaction hold.addr hold.mode }
    ensures taken { OnOk result (holds.new ≡ with_hold holds.old hold) }
    ensures refused { OnErr result (holds.new ≡ holds.old) }
{
    holds.take_free(hold)
}
