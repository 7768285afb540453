//! Where the holds of each block stand in a list of holds. A hold is named by its index in the list and one: 0 names
//! none.
ghost use Rattle.std.specs.Prelude.{◌≡◌, ◌<◌, ◌≤◌, ◌↔◌, ◌++◌, ◌∷◌, ℕ, ◌-◌, [], IsTrue, OnOk, length, slice_index};
ghost use Rattle.std.specs.Prelude.{slice_set, take, vec_capacity};
ghost use Rattle.locks.specs.Index.{AreHomed, IsIndex, IsLast, IsOf, numbers};

use disk::BlockNo;
use std::alloc::{AllocError, Global};
use txn_law::Hold;

/// The index over a list of holds.
#[derive(Drop)]
pub(crate) struct Index {
    // Of each block that is held the name of its last hold. What stands at another block means nothing, and there are
    // as many as there had to be.
    pub(crate) last: Vec<usize>,
    // Of each hold the name of the one before it of the same block, or 0.
    pub(crate) before: Vec<usize>,
}

impl Index {
    /// That over no hold.
    pub(crate) fn new(alloc: Global) -> Index
        ensures last { result.last.items ≡ [] }
        ensures before { result.before.items ≡ [] }
    {
        Index {
            last: Vec::new(alloc),
            before: Vec::new(alloc),
        }
    }

    /// The name of the last hold of the block, or 0.
    pub(crate) fn last_of(&self, holds: &[Hold], block: BlockNo) -> usize
        requires { IsIndex (numbers holds.now) self.now.last.items self.now.before.items }
        ensures { IsLast (numbers holds.now) block.0 result }
    {
        let name = self.tracked(block);
        if is_of(holds, name, block) { name } else { 0 }
    }

    // What stands at the block.
    fn tracked(&self, block: BlockNo) -> usize
        ensures { result ≡ slice_index self.now.last.items block.0 }
    {
        let at = block.0 as usize;
        if at < self.last.len() {
            self.last[at]
        } else {
            0
        }
    }

    /// Makes room for one hold more, of this block.
    pub(crate) fn reserve_next(&mut self, block: BlockNo) -> Result<(), AllocError>
        ensures same { (number : ℕ) → slice_index self.new.last.items number ≡ slice_index self.old.last.items number }
        ensures more { length self.old.last.items ≤ length self.new.last.items }
        ensures before { self.new.before.items ≡ self.old.before.items }
        ensures homed { OnOk result (block.0 < length self.new.last.items) }
        ensures has_space { OnOk result (length self.new.before.items < vec_capacity self.new.before) }
    {
        self.before.reserve(1)?;
        reach(&mut self.last, block.0 as usize)
    }

    /// Notes a further hold, of this block, behind these.
    pub(crate) fn track(&mut self, holds: &[Hold], block: BlockNo)
        requires homed { block.0 < length self.old.last.items }
        requires has_space { length self.old.before.items < vec_capacity self.old.before }
        requires index { IsIndex (numbers holds.now) self.old.last.items self.old.before.items }
        ensures more { length self.new.last.items ≡ length self.old.last.items }
        ensures capacity { vec_capacity self.old.before ≤ vec_capacity self.new.before }
        ensures index { IsIndex (numbers holds.now ++ block.0 ∷ []) self.new.last.items self.new.before.items }
    {
        let name = self.last_of(holds, block);
        add(&mut self.before, name);
        self.last[block.0 as usize] = holds.len() + 1;
    }

    /// Notes all of these holds anew.
    pub(crate) fn track_all(&mut self, holds: &[Hold])
        requires homed { AreHomed (length self.old.last.items) (numbers holds.now) }
        requires has_space { length holds.now ≤ vec_capacity self.old.before }
        ensures more { length self.new.last.items ≡ length self.old.last.items }
        ensures capacity { vec_capacity self.old.before ≤ vec_capacity self.new.before }
        ensures index { IsIndex (numbers holds.now) self.new.last.items self.new.before.items }
    {
        self.before.clear();
        self.track_from(holds, 0);
    }

    /// Notes the holds from this one on, where those before it are noted.
    pub(crate) fn track_from(&mut self, holds: &[Hold], from: usize)
        requires within { from ≤ length holds.now }
        requires homed { AreHomed (length self.old.last.items) (numbers holds.now) }
        requires has_space { length holds.now ≤ vec_capacity self.old.before }
        requires index { IsIndex (numbers (take from holds.now)) self.old.last.items self.old.before.items }
        ensures more { length self.new.last.items ≡ length self.old.last.items }
        ensures capacity { vec_capacity self.old.before ≤ vec_capacity self.new.before }
        ensures index { IsIndex (numbers holds.now) self.new.last.items self.new.before.items }
    {
        for i in from..holds.len() {
            self.track(&holds[..i], holds[i].addr.block);
        }
    }

    /// Takes back what was noted of the holds from this one on.
    pub(crate) fn cut(&mut self, holds: &[Hold], from: usize)
        requires within { from ≤ length holds.now }
        requires index { IsIndex (numbers holds.now) self.old.last.items self.old.before.items }
        ensures more { length self.new.last.items ≡ length self.old.last.items }
        ensures capacity { vec_capacity self.old.before ≤ vec_capacity self.new.before }
        ensures index { IsIndex (numbers (take from holds.now)) self.new.last.items self.new.before.items }
    {
        let mut count = holds.len();
        while count > from {
            count -= 1;
            self.take_back(holds[count].addr.block);
        }
    }

    // Takes back what was noted last, of this block.
    fn take_back(&mut self, block: BlockNo)
        requires some { 0 < length self.old.before.items }
        requires homed { block.0 < length self.old.last.items }
        ensures last { self.new.last.items
            ≡ slice_set self.old.last.items block.0
            (slice_index self.old.before.items (length self.old.before.items - 1)) }
        ensures before { self.new.before.items ≡ take (length self.old.before.items - 1) self.old.before.items }
        ensures capacity { vec_capacity self.old.before ≤ vec_capacity self.new.before }
    {
        let count = self.before.len() - 1;
        self.last[block.0 as usize] = self.before[count];
        self.before.truncate(count);
    }
}

// Whether the name is that of a hold of the block.
fn is_of(holds: &[Hold], name: usize, block: BlockNo) -> bool
    ensures { IsTrue result ↔ IsOf (numbers holds.now) block.0 name }
{
    if name == 0 || name > holds.len() {
        return false;
    }
    let hold = &holds[name - 1];
    hold.addr.block.0 == block.0
}

// Makes the names so many that one stands at this number.
fn reach(names: &mut Vec<usize>, at: usize) -> Result<(), AllocError>
    ensures same { (number : ℕ) → slice_index names.new.items number ≡ slice_index names.old.items number }
    ensures more { length names.old.items ≤ length names.new.items }
    ensures long { OnOk result (at < length names.new.items) }
{
    while names.len() <= at {
        names.push(0)?;
    }
    Ok(())
}

// Adds a name, for which there is room.
fn add(names: &mut Vec<usize>, name: usize)
    requires { length names.old.items < vec_capacity names.old }
    ensures items { names.new.items ≡ names.old.items ++ name ∷ [] }
    ensures capacity { vec_capacity names.old ≤ vec_capacity names.new }
{
    match names.push(name) {
        Ok(()) => {}
        Err(_) => unreachable!(),
    }
}
