//! Where the changes of each block stand. A change is named by its log position and one: 0 names none, and so does the
//! name of a change that has gone.
ghost use Rattle.std.specs.Prelude.{◌≡◌, ◌≤◌, ◌<◌, ◌^◌, ◌+◌, ◌++◌, ◌∷◌, [], length, drop, replicate, slice_index, IfOk};
ghost use Rattle.std.specs.VecDeque.{deque_capacity};
ghost use Rattle.wal.specs.Changes.Index.{IsIndex, followed, numbers};

use circ::LogChange;
use disk::BlockNo;
use std::alloc::{AllocError, Global};
use std::collections::VecDeque;

/// The index over a list of changes.
#[derive(Drop)]
pub(crate) struct Index {
    // The log position of the first change.
    pub(crate) start: u64,
    // Of each block of the disk the name of its newest change.
    pub(crate) newest: Vec<u64>,
    // Of each change the name of the next one of its block, or 0.
    pub(crate) behind: VecDeque<u64>,
}

impl Index {
    /// That over no change, with room for so many.
    pub(crate) fn new(
        alloc: Global,
        blocks: u32,
        start: u64,
        count: usize,
    ) -> Result<Index, AllocError>
        ensures start { IfOk result (λ index. index.start ≡ start) }
        ensures newest { IfOk result (λ index. index.newest.items ≡ replicate blocks 0) }
        ensures behind { IfOk result (λ index. index.behind.items ≡ []) }
        ensures has_space { IfOk result (λ index. count ≤ deque_capacity index.behind) }
    {
        let newest = vec![in alloc; 0u64; blocks as usize]?;
        let behind = VecDeque::with_capacity(alloc, count)?;
        Ok(Index {
            start,
            newest,
            behind,
        })
    }

    /// The name of a block's newest change, or of none.
    pub(crate) fn name_of(&self, block: BlockNo) -> u64
        ensures { result ≡ slice_index self.now.newest.items block.0 }
    {
        let at = block.0 as usize;
        if at < self.newest.len() {
            self.newest[at]
        } else {
            0
        }
    }

    /// Notes a further change, of this block, behind these.
    pub(crate) fn track(&mut self, list: &VecDeque<LogChange>, block: BlockNo)
        requires has_space { length self.old.behind.items < deque_capacity self.old.behind }
        requires position { self.old.start + length list.now.items + 1 < 2 ^ 64 }
        requires home { block.0 < length self.old.newest.items }
        requires index { IsIndex self.old.start (numbers list.now.items) self.old.newest.items self.old.behind.items }
        ensures start { self.new.start ≡ self.old.start }
        ensures table { length self.new.newest.items ≡ length self.old.newest.items }
        ensures len { length self.new.behind.items ≡ length self.old.behind.items + 1 }
        ensures capacity { deque_capacity self.new.behind ≡ deque_capacity self.old.behind }
        ensures index { IsIndex self.new.start (numbers list.now.items ++ block.0 ∷ []) self.new.newest.items
            self.new.behind.items }
    {
        let name = self.start + list.len() as u64 + 1;
        let before = self.newest[block.0 as usize];
        self.newest[block.0 as usize] = name;
        follow(&mut self.behind, self.start, before, name);
        self.behind.push_back_reserved(0);
    }

    /// Lets the first of the changes go.
    pub(crate) fn take_out(&mut self, count: usize)
        requires position { self.old.start + count < 2 ^ 64 }
        requires within { count ≤ length self.old.behind.items }
        ensures start { self.new.start ≡ self.old.start + count }
        ensures newest { self.new.newest ≡ self.old.newest }
        ensures behind { self.new.behind.items ≡ drop count self.old.behind.items }
    {
        drop_names(&mut self.behind, count);
        self.start += count as u64;
    }
}

// Gives a change that is followed by another its name, if it is there.
fn follow(behind: &mut VecDeque<u64>, start: u64, before: u64, name: u64)
    requires { before ≤ start + length behind.old.items }
    ensures names { behind.new.items ≡ followed start behind.old.items before name }
    ensures len { length behind.new.items ≡ length behind.old.items }
    ensures capacity { deque_capacity behind.new ≡ deque_capacity behind.old }
{
    if start < before {
        let there = &mut behind[(before - start - 1) as usize];
        *there = name;
    }
}

// Lets the first names go.
fn drop_names(behind: &mut VecDeque<u64>, count: usize)
    requires { count ≤ length behind.old.items }
    ensures { behind.new.items ≡ drop count behind.old.items }
{
    for _ in 0..count {
        let _ = behind.pop_front();
    }
}
