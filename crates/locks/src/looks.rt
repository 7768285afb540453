//! Looks at what is taken.
ghost use Rattle.std.specs.Prelude.{◌≡◌, ◌↔◌, IsTrue, is_some};
ghost use Rattle.locks.specs.Index.{IsIndex, numbers};
ghost use Rattle.locks.specs.Looks.{IsNameOf, LetsPass};
ghost use Rattle.txn_law.specs.Holds.{IsFree, IsHoldOf, ConflictsWith, hold_of, is_hold_of, is_read, is_written};
ghost use Rattle.txn_law.specs.WellFormed.{AreApart};

use crate::index::Index;
use objects::{Addr, Mode};
use txn_law::Hold;

/// Whether of what keeps the request off nothing has a byte of the address, but what this transaction has taken by
/// this address.
pub(crate) fn is_free(
    holds: &[Hold],
    index: &Index,
    transaction: u64,
    addr: Addr,
    mode: Mode,
) -> bool
    requires { IsIndex (numbers holds.now) index.now.last.items index.now.before.items }
    ensures { IsTrue result ↔ IsFree holds.now transaction addr mode }
{
    let mut name = index.last_of(holds, addr.block);
    while name > 0 {
        let hold = &holds[name - 1];
        if !lets_pass(hold, transaction, addr, mode) {
            return false;
        }
        name = index.before[name - 1];
    }
    true
}

// Whether a hold leaves the address free for such a lock request.
fn lets_pass(hold: &Hold, transaction: u64, addr: Addr, mode: Mode) -> bool
    ensures { IsTrue result ↔ LetsPass transaction addr mode hold.now }
{
    !hold.addr.overlaps(addr)
        || !conflicts_with(hold, transaction, mode)
        || hold.transaction == transaction && hold.addr == addr
}

// Whether what is taken keeps off such a lock request.
fn conflicts_with(hold: &Hold, transaction: u64, mode: Mode) -> bool
    ensures { IsTrue result ↔ ConflictsWith transaction mode hold.now }
{
    hold.transaction == transaction || hold.mode.excludes(mode)
}

/// The transaction's hold of the address, if it has one.
pub(crate) fn hold_of(holds: &[Hold], index: &Index, transaction: u64, addr: Addr) -> Option<Hold>
    requires apart { AreApart holds.now }
    requires index { IsIndex (numbers holds.now) index.now.last.items index.now.before.items }
    ensures { result ≡ hold_of holds.now transaction addr }
{
    let name = name_of(holds, index, transaction, addr);
    if name > 0 {
        Some(holds[name - 1])
    } else {
        None
    }
}

/// The name of the transaction's hold of the address, or 0.
pub(crate) fn name_of(holds: &[Hold], index: &Index, transaction: u64, addr: Addr) -> usize
    requires { IsIndex (numbers holds.now) index.now.last.items index.now.before.items }
    ensures { IsNameOf holds.now transaction addr result }
{
    let mut name = index.last_of(holds, addr.block);
    while name > 0 {
        if is_hold_of(&holds[name - 1], transaction, addr) {
            return name;
        }
        name = index.before[name - 1];
    }
    0
}

// Whether the transaction has taken the address by this hold.
fn is_hold_of(hold: &Hold, transaction: u64, addr: Addr) -> bool
    ensures { result ≡ is_hold_of transaction addr hold.now }
{
    hold.transaction == transaction
        && hold.addr.block.0 == addr.block.0
        && hold.addr.offset == addr.offset
        && hold.addr.len == addr.len
}

/// Whether the transaction holds the address for reading.
pub(crate) fn is_read_by(holds: &[Hold], index: &Index, transaction: u64, addr: Addr) -> bool
    requires apart { AreApart holds.now }
    requires index { IsIndex (numbers holds.now) index.now.last.items index.now.before.items }
    ensures { result ≡ is_read (hold_of holds.now transaction addr) }
{
    match hold_of(holds, index, transaction, addr) {
        Some(hold) => hold.is_read,
        None => false,
    }
}

/// Whether the transaction holds the address for writing.
pub(crate) fn is_written_by(holds: &[Hold], index: &Index, transaction: u64, addr: Addr) -> bool
    requires apart { AreApart holds.now }
    requires index { IsIndex (numbers holds.now) index.now.last.items index.now.before.items }
    ensures { result ≡ is_written (hold_of holds.now transaction addr) }
{
    match hold_of(holds, index, transaction, addr) {
        Some(hold) => hold.mode == Mode::Exclusive && (hold.is_read || hold.is_claimed),
        None => false,
    }
}

/// Whether the transaction has taken the address.
pub(crate) fn is_held_by(holds: &[Hold], index: &Index, transaction: u64, addr: Addr) -> bool
    requires apart { AreApart holds.now }
    requires index { IsIndex (numbers holds.now) index.now.last.items index.now.before.items }
    ensures { result ≡ is_some (hold_of holds.now transaction addr) }
{
    hold_of(holds, index, transaction, addr).is_some()
}
