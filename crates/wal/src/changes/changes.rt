//! Changes, and the index over them.
ghost use Rattle.std.specs.Prelude.{◌≡◌, ◌≤◌, ◌<◌, ◌^◌, ◌+◌, ◌-◌, ◌++◌, length, drop, take, All, IfOk, OnOk, OnErr};
ghost use Rattle.std.specs.Prelude.{MatchOption, Some, None};
ghost use Rattle.circ.specs.Log.Installer.{passed_over};
ghost use Rattle.circ.specs.Log.Log.{AreOnce, IsHomeOn, blocks_of, changed_blocks, changes_of, is_among, new_blocks};
ghost use Rattle.circ.specs.Log.Log.{newest_of};
ghost use Rattle.circ.specs.Log.Room.{tail_with};

use crate::changes::absorption::{absorb, push_group, shared};
use crate::changes::index::Index;
use circ::{LogChange, Recovered};
use disk::{BlockNo, SharedBlock};
use std::alloc::{AllocError, Global};
use std::collections::VecDeque;
use std::marker::Model;

/// The changes that aren't home yet, oldest first.
#[derive(Drop)]
pub struct Changes {
    blocks: u32,
    list: VecDeque<LogChange>,
    index: Index,
}

impl Model for Changes {
    ghost use Rattle.wal.specs.Changes.Listed.{Listed};

    ghost Value = { Listed };

    ghost use Rattle.wal.specs.Changes.View.{listed, IsSound};

    ghost view = { listed };

    ghost invariant = { IsSound };
}

impl Changes {
    /// What an opening found in the log of a disk of so many blocks.
    pub fn new(alloc: Global, blocks: u32, found: Recovered) -> Result<Changes, AllocError>
        requires positions { found.start + length found.logged.items < 2 ^ 64 }
        requires homes { All (IsHomeOn blocks) (blocks_of found.logged.items) }
        ensures { IfOk result (λ c. c ≡ record {
          blocks = blocks;
          start = found.start;
          changes = changes_of 0 found.logged.items;
        }) }
    {
        let Recovered { start, logged } = found;
        let count = logged.len();
        let logged = shared(alloc, logged)?;
        let mut list = VecDeque::with_capacity(alloc, count)?;
        let mut index = Index::new(alloc, blocks, start, count)?;
        push_group(&mut list, &mut index, logged);
        Ok(Changes {
            blocks,
            list,
            index,
        })
    }

    /// The count of the disk's blocks.
    pub fn blocks(&self) -> u32
        ensures { result ≡ self.now.blocks }
    {
        self.blocks
    }

    /// The log position of the first of them.
    pub fn start(&self) -> u64
        ensures { result ≡ self.now.start }
    {
        self.index.start
    }

    /// How many they are.
    pub fn len(&self) -> usize
        ensures { result ≡ length self.now.changes }
    {
        self.list.len()
    }

    /// All of them.
    pub fn list(&self) -> &VecDeque<LogChange>
        ensures { result.now.items ≡ self.now.changes }
    {
        &self.list
    }

    /// The newest content of a block. One that has no change is home.
    pub fn latest(&self, block: BlockNo) -> Option<&SharedBlock>
        ensures { MatchOption result (newest_of self.now.changes block.0 ≡ None)
            (λ content. newest_of self.now.changes block.0 ≡ Some content.now) }
    {
        let name = self.index.name_of(block);
        if name <= self.index.start {
            return None;
        }
        let change = &self.list[(name - self.index.start - 1) as usize];
        Some(&change.content)
    }

    /// Whether a change from an index on is of the block.
    pub fn has(&self, from: usize, block: BlockNo) -> bool
        requires { from ≤ length self.now.changes }
        ensures { result ≡ is_among block (changed_blocks (drop from self.now.changes)) }
    {
        self.index.start + (from as u64) < self.index.name_of(block)
    }

    /// The first change from one index up to, not with, another that is the newest of its block among those, or the end.
    pub fn next_newest(&self, from: usize, end: usize) -> usize
        requires order { from ≤ end }
        requires end { end ≤ length self.now.changes }
        ensures value { result ≡ from + passed_over (drop from (take end self.now.changes)) }
        ensures within { result ≤ end }
    {
        let past = self.index.start + end as u64;
        for i in from..end {
            let name = self.index.behind[i];
            if name == 0 || name > past {
                return i;
            }
        }
        end
    }

    /// Lays the changes of the commit of a place into the tail that begins at an index, and that lacks so many of their
    /// blocks: a block that the tail has takes the new content where it stands, and the others come behind. A refusal
    /// leaves all as it was.
    pub fn append(
        &mut self,
        preceding: usize,
        lacking: usize,
        place: u64,
        group: Vec<(BlockNo, SharedBlock)>,
    ) -> Result<(), AllocError>
        requires preceding { preceding ≤ length self.old.changes }
        requires lacking { lacking ≡ length (new_blocks (changed_blocks (drop preceding self.old.changes))
            (blocks_of group.items)) }
        requires positions { self.old.start + (length self.old.changes + lacking) < 2 ^ 64 }
        requires homes { All (IsHomeOn self.old.blocks) (blocks_of group.items) }
        requires tail { AreOnce (changed_blocks (drop preceding self.old.changes)) }
        requires once { AreOnce (blocks_of group.items) }
        ensures appended { OnOk result (self.new ≡ record self.old {
          changes = take preceding self.old.changes ++ tail_with (drop preceding self.old.changes) place group.items;
        }) }
        ensures refused { OnErr result (self.new ≡ self.old) }
    {
        self.list.reserve(lacking)?;
        self.index.behind.reserve(lacking)?;
        absorb(&mut self.list, &mut self.index, preceding, place, group);
        Ok(())
    }

    /// Lets the first of the changes go.
    pub fn take_out(&mut self, count: usize)
        requires { count ≤ length self.old.changes }
        ensures { self.new ≡ record self.old {
          start = self.old.start + count;
          changes = drop count self.old.changes;
        } }
    {
        drop_changes(&mut self.list, count);
        self.index.take_out(count);
    }
}

// Lets the first changes go.
fn drop_changes(list: &mut VecDeque<LogChange>, count: usize)
    requires { count ≤ length list.old.items }
    ensures { list.new.items ≡ drop count list.old.items }
{
    for _ in 0..count {
        let _ = list.pop_front();
    }
}
