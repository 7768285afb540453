//! What is taken, and let go again.
ghost use Rattle.std.specs.Prelude.{◌≡◌, ◌<◌, ◌≤◌, ◌++◌, ◌∷◌, [], length, vec_len, vec_capacity};
ghost use Rattle.locks.specs.Index.{IsIndex, numbers};
ghost use Rattle.txn_law.specs.Holds.{joined, without_hold, with_hold, released};
ghost use Rattle.txn_law.specs.WellFormed.{AreApart};

use crate::index::Index;
use crate::looks::{hold_of, name_of};
use objects::Addr;
use txn_law::Hold;

/// Notes that the transaction takes the address, for which there is room.
pub(crate) fn track(holds: &mut Vec<Hold>, index: &mut Index, hold: Hold)
    requires has_space { vec_len holds.old < vec_capacity holds.old }
    requires names { length index.old.before.items < vec_capacity index.old.before }
    requires homed { hold.addr.block.0 < length index.old.last.items }
    requires apart { AreApart holds.old.items }
    requires index { IsIndex (numbers holds.old.items) index.old.last.items index.old.before.items }
    ensures holds { holds.new.items ≡ with_hold holds.old.items hold }
    ensures index { IsIndex (numbers holds.new.items) index.new.last.items index.new.before.items }
{
    match hold_of(holds, index, hold.transaction, hold.addr) {
        Some(had) => {
            let_go(holds, index, hold.transaction, hold.addr);
            add(holds, index, joined(Some(had), hold));
        }
        None => add(holds, index, hold),
    }
}

// Adds a hold, for which there is room.
fn add(holds: &mut Vec<Hold>, index: &mut Index, hold: Hold)
    requires has_space { vec_len holds.old < vec_capacity holds.old }
    requires names { length index.old.before.items < vec_capacity index.old.before }
    requires homed { hold.addr.block.0 < length index.old.last.items }
    requires index { IsIndex (numbers holds.old.items) index.old.last.items index.old.before.items }
    ensures holds { holds.new.items ≡ holds.old.items ++ hold ∷ [] }
    ensures index { IsIndex (numbers holds.new.items) index.new.last.items index.new.before.items }
{
    index.track(holds, hold.addr.block);
    match holds.push(hold) {
        Ok(()) => {}
        Err(_) => unreachable!(),
    }
}

// Lets go of the transaction's hold of the address. Only what stands behind it is tracked anew.
fn let_go(holds: &mut Vec<Hold>, index: &mut Index, transaction: u64, addr: Addr)
    requires names { length index.old.before.items < vec_capacity index.old.before }
    requires apart { AreApart holds.old.items }
    requires index { IsIndex (numbers holds.old.items) index.old.last.items index.old.before.items }
    ensures items { holds.new.items ≡ without_hold holds.old.items transaction addr }
    ensures len { vec_len holds.new ≤ vec_len holds.old }
    ensures capacity { vec_capacity holds.new ≡ vec_capacity holds.old }
    ensures more { length index.new.last.items ≡ length index.old.last.items }
    ensures names { length index.new.before.items < vec_capacity index.new.before }
    ensures index { IsIndex (numbers holds.new.items) index.new.last.items index.new.before.items }
{
    let name = name_of(holds, index, transaction, addr);
    if name > 0 {
        index.cut(holds, name - 1);
        holds.remove(name - 1);
        index.track_from(holds, name - 1);
    }
}

// What is held by a new hold beside one that there was.
fn joined(had: Option<Hold>, hold: Hold) -> Hold
    ensures { result ≡ joined had hold }
{
    match had {
        Some(had) => Hold {
            mode: had.mode.upgraded(hold.mode),
            is_read: had.is_read || hold.is_read,
            is_claimed: had.is_claimed || hold.is_claimed,
            ..hold
        },
        None => hold,
    }
}

/// Lets go of all that the transaction has taken.
pub(crate) fn release(holds: &mut Vec<Hold>, index: &mut Index, transaction: u64)
    requires names { length index.old.before.items ≤ vec_capacity index.old.before }
    requires index { IsIndex (numbers holds.old.items) index.old.last.items index.old.before.items }
    ensures holds { holds.new.items ≡ released holds.old.items transaction }
    ensures index { IsIndex (numbers holds.new.items) index.new.last.items index.new.before.items }
{
    holds.retain(|hold| hold.transaction != transaction);
    index.track_all(holds);
}
