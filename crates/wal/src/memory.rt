//! The memory log.
ghost use Rattle.std.specs.Prelude.{◌≡◌, ◌≤◌, ◌<◌, ◌^◌, ◌+◌, length, IfOk, MatchOption, Some, None, All, map};
ghost use Rattle.base.specs.declared.TheConstants.{LOG_SLOTS, FIRST_HOME_BLOCK};
ghost use Rattle.circ.specs.Log.Log.{newest, settled_place, installed_place, tail_count, opened, IsHomeOn};
ghost use Rattle.circ.specs.Log.Log.{added_blocks, blocks_of, IsLawful};
ghost use Rattle.circ.specs.Log.Grows.{IsWholeChange};
ghost use Rattle.circ.specs.Log.Room.{IsRoom};

mod append;
mod batch;
mod by_role;
mod calls;
mod header;
mod search;

use crate::changes::Changes;
use crate::{Room, Seq};
use base::LOG_SLOTS;
use batch::{Batch, Batches};
use circ::Recovered;
use disk::{Block, BlockNo, SharedBlock};
use std::alloc::{AllocError, Global};
use std::marker::Model;

/// The changes that aren't home yet, and how far the logger and the installer have come with them.
#[derive(Drop)]
pub struct Wal {
    changes: Changes,
    logged: usize,
    batches: Batches,
    places: u64,
    broken: bool,
}

impl Model for Wal {
    ghost use Rattle.circ.specs.Log.Log.{Log};

    ghost Value = { Log };

    ghost use Rattle.wal.specs.View.{log_of, IsSound};

    ghost view = { log_of };

    ghost invariant = { IsSound };
}

impl Wal {
    /// The log that an opening found on a disk of so many blocks. Its changes are logged and not yet home.
    pub fn new(alloc: Global, blocks: u32, found: Recovered) -> Result<Wal, AllocError>
        requires disk { FIRST_HOME_BLOCK ≤ blocks }
        requires slots { length found.logged.items ≤ LOG_SLOTS }
        requires positions { found.start + length found.logged.items < 2 ^ 64 }
        requires homes { All (IsHomeOn blocks) (blocks_of found.logged.items) }
        ensures { IfOk result (λ log. log ≡ opened blocks found.start found.logged.items) }
    {
        let log_buffer = Block::zeros(alloc)?;
        let home_buffer = Block::zeros(alloc)?;
        let changes = Changes::new(alloc, blocks, found)?;
        let logged = changes.len();
        Ok(Wal {
            changes,
            logged,
            batches: Batches {
                log: Batch::new(log_buffer),
                home: Batch::new(home_buffer),
            },
            places: 0,
            broken: false,
        })
    }

    /// What is true of every log.
    pub fn lawful(&self)
        ensures { IsLawful self.now }
    {
        let _ = &self.logged;
    }

    /// Each of its changes is of a whole block.
    pub fn whole(&self)
        ensures { All IsWholeChange self.now.changes }
    {
        search::are_whole(self.changes.list());
    }

    /// The newest content of a block. One that the log doesn't have is home.
    pub fn latest(&self, block: BlockNo) -> Option<&SharedBlock>
        ensures { MatchOption result (newest self.now block.0 ≡ None) (λ content. newest self.now block.0
            ≡ Some content.now) }
    {
        self.changes.latest(block)
    }

    /// The greatest place such that each change at or before it is settled in the log.
    pub fn settled(&self) -> Seq
        ensures { result.0 ≡ settled_place self.now }
    {
        search::seq_before(self.changes.list(), self.logged, self.places)
    }

    /// The greatest place such that each change at or before it is home.
    pub fn installed(&self) -> Seq
        ensures { result.0 ≡ installed_place self.now }
    {
        search::seq_before(self.changes.list(), 0, self.places)
    }

    /// The place of the last commit.
    pub fn places(&self) -> Seq
        ensures { result.0 ≡ self.now.places }
    {
        Seq(self.places)
    }

    /// How many blocks the open tail holds: what is changed and not yet taken by the logger.
    pub fn tail(&self) -> usize
        ensures { result ≡ tail_count self.now }
    {
        self.changes.len() - (self.logged + self.batches.log.taken)
    }

    /// How many blocks more the open tail holds by a group that changes these.
    pub fn added_blocks(&self, blocks: &[BlockNo]) -> usize
        ensures { result ≡ added_blocks self.now blocks.now }
    {
        let preceding = self.logged + self.batches.log.taken;
        search::count_new(&self.changes, preceding, blocks)
    }

    /// The count of the disk's blocks.
    pub fn blocks(&self) -> u32
        ensures { result ≡ self.now.blocks }
    {
        self.changes.blocks()
    }

    /// Whether a device call has failed: then the log hands out no more of them.
    pub fn broken(&self) -> bool
        ensures { result ≡ self.now.broken }
    {
        self.broken
    }

    /// Whether a group that changes these blocks finds room.
    pub fn room(&self, blocks: &[BlockNo]) -> Room
        ensures { IsRoom self.now blocks.now result }
    {
        if self.places == u64::MAX {
            return Room::Spent;
        }
        let tail = self.tail();
        let count = self.added_blocks(blocks);
        let left = u64::MAX - (self.changes.start() + self.changes.len() as u64);
        if left < count as u64 {
            Room::Spent
        } else if (LOG_SLOTS as usize) - tail < count {
            Room::Full
        } else {
            Room::Fits
        }
    }
}
