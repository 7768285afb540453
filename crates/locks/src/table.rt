//! The table of what is taken.
ghost use Rattle.std.specs.Prelude.{◌≡◌, ◌↔◌, IsTrue, Contains, [], is_some, OnOk, OnErr};
ghost use Rattle.objects.specs.declared.mode.Mode.TheVariants as modes;
ghost use Rattle.txn_law.specs.Holds.{IsFree, with_hold, hold_of, is_read, is_written, released};
ghost use Rattle.txn_law.specs.WellFormed.{AreApart};
ghost use Rattle.txn_law.specs.declared.hold.Hold.{Hold};
ghost use Rattle.locks.specs.Taking.{IsTaking};

use crate::acquire::{release, track};
use crate::index::Index;
use crate::looks::{is_free, is_held_by, is_read_by, is_written_by};
use objects::{Addr, Mode};
use std::alloc::{AllocError, Global};
use std::marker::Model;
use txn_law::Hold;

/// What came of a lock request. Busy: what keeps it off has a byte of its address. NoMemory: it is free, but there was no
/// room to note it: it bears the refusal.
#[derive(Clone, Copy, Debug, PartialEq, Eq)]
pub enum Take {
    Held,
    Busy,
    NoMemory(AllocError),
}

/// Who has taken what. Its type keeps that no two holds share a byte, but those of two transactions that both
/// share it.
#[derive(Drop)]
pub struct Table {
    holds: Vec<Hold>,
    index: Index,
}

impl Model for Table {
    ghost use Rattle.std.specs.Prelude.{List};
    ghost use Rattle.txn_law.specs.declared.hold.Hold.{Hold};

    ghost Value = { List Hold };

    ghost view = { λ table. table.holds.items };

    ghost use Rattle.locks.specs.Index.{IsSound};

    ghost invariant = { IsSound };
}

impl Table {
    /// A table in which nothing is taken.
    pub fn new(alloc: Global) -> Table
        ensures { result ≡ [] }
    {
        Table {
            holds: Vec::new(alloc),
            index: Index::new(alloc),
        }
    }

    /// No two holds share a byte, but those of two transactions that both share it; and an address that is taken
    /// for one alone has one holder.
    pub fn lawful(&self)
        ensures apart { AreApart self.now }
        ensures one { (one other : Hold) → Contains self.now one → Contains self.now other
            → one.addr ≡ other.addr → one.mode ≡ modes.Exclusive → one ≡ other }
    {
        let _ = &self.holds;
    }

    /// All that is taken, in no promised order.
    pub fn holds(&self) -> &[Hold]
        ensures { result.now ≡ self.now }
    {
        &self.holds
    }

    /// Takes what a lock request is for, beside what its transaction has taken of the address. Busy is tested before
    /// NoMemory, and both change nothing.
    pub fn take(&mut self, hold: Hold) -> Take
        ensures { IsTaking self.old hold result self.new }
    {
        if !self.is_free(hold.transaction, hold.addr, hold.mode) {
            return Take::Busy;
        }
        match self.take_free(hold) {
            Ok(()) => Take::Held,
            Err(error) => Take::NoMemory(error),
        }
    }

    /// Takes what a lock request is for that nothing keeps off, beside what its transaction has taken of the address. Where there
    /// is no room nothing changes.
    pub fn take_free(&mut self, hold: Hold) -> Result<(), AllocError>
        requires { IsFree self.old hold.transaction hold.addr hold.mode }
        ensures taken { OnOk result (self.new ≡ with_hold self.old hold) }
        ensures refused { OnErr result (self.new ≡ self.old) }
    {
        self.holds.reserve(1)?;
        self.index.reserve_next(hold.addr.block)?;
        track(&mut self.holds, &mut self.index, hold);
        Ok(())
    }

    /// Lets go of all that the transaction has taken, and of nothing that others took.
    pub fn release_all(&mut self, transaction: u64)
        ensures { self.new ≡ released self.old transaction }
    {
        release(&mut self.holds, &mut self.index, transaction);
    }

    /// Whether of what keeps the request off nothing has a byte of the address, but what this transaction has taken
    /// by this address.
    pub fn is_free(&self, transaction: u64, addr: Addr, mode: Mode) -> bool
        ensures { IsTrue result ↔ IsFree self.now transaction addr mode }
    {
        is_free(&self.holds, &self.index, transaction, addr, mode)
    }

    /// Whether the transaction has taken the address.
    pub fn is_held_by(&self, transaction: u64, addr: Addr) -> bool
        ensures { result ≡ is_some (hold_of self.now transaction addr) }
    {
        is_held_by(&self.holds, &self.index, transaction, addr)
    }

    /// Whether the transaction holds the address for reading.
    pub fn is_read_by(&self, transaction: u64, addr: Addr) -> bool
        ensures { result ≡ is_read (hold_of self.now transaction addr) }
    {
        is_read_by(&self.holds, &self.index, transaction, addr)
    }

    /// Whether the transaction holds the address for writing: alone, and read or claimed.
    pub fn is_written_by(&self, transaction: u64, addr: Addr) -> bool
        ensures { result ≡ is_written (hold_of self.now transaction addr) }
    {
        is_written_by(&self.holds, &self.index, transaction, addr)
    }
}
