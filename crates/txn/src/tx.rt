//! What the core hands out.
ghost use Rattle.std.specs.Prelude.{◌≡◌, ◌<◌, false, length, OnOk};
ghost use Rattle.base.specs.declared.TheConstants.{BLOCK_BYTES};
ghost use Rattle.disk.specs.Device.{CountsFailure, HasRead, current, newest};

use disk::{Block, BlockNo, CrashDisk, Failed};
use std::marker::Model;
use wal::Seq;

/// A transaction that was begun. It ends only in a commit that answers Committed, or in an abort: one that is
/// lost doesn't compile. A clause sees its number.
pub struct Tx {
    pub(crate) number: u64,
}

impl Model for Tx {
    ghost use Rattle.std.specs.Prelude.{ℕ};

    ghost Value = { ℕ };

    ghost view = { λ tx. tx.number };
}

impl Tx {
    /// Its number, from 1 at each opening.
    pub fn number(&self) -> u64
        ensures { result ≡ self.now }
    {
        self.number
    }
}

/// A block to be read from its home. It has to be given back, with what was read or without: one that is lost
/// doesn't compile. A clause sees the block's number.
pub struct FetchIo {
    pub(crate) block: BlockNo,
    pub(crate) buffer: Block,
}

impl Model for FetchIo {
    ghost use Rattle.txn_law.specs.Fetch.{Fetch};

    ghost Value = { Fetch };

    ghost view = { λ io. record { block = io.block; content = io.buffer } };
}

impl FetchIo {
    /// The block to be read.
    pub fn block(&self) -> BlockNo
        ensures { result ≡ self.now.block }
    {
        self.block
    }

    // What was read is a whole block.
    pub(crate) fn whole(&self)
        ensures { length self.now.content ≡ BLOCK_BYTES }
    {
        let _ = self.buffer.as_slice();
    }

    /// Reads the block from its home.
    pub fn perform<D: CrashDisk>(&mut self, disk: &mut D) -> Result<(), Failed>
        requires { self.old.block.0 < (D.device disk.old).size }
        ensures block { self.new.block ≡ self.old.block }
        ensures call { HasRead (D.device disk.old) (D.device disk.new) }
        ensures failure { CountsFailure (D.device disk.old) (D.device disk.new) result }
        ensures model { D.keeps_model disk.new → D.keeps_model disk.old }
        ensures newest { D.keeps_model disk.new → (D.device disk.old).uncertain self.old.block.0 ≡ false
            → OnOk result (self.new.content ≡ newest (current (D.device disk.old) self.old.block.0)) }
    {
        disk.read(self.block, &mut self.buffer)
    }
}

/// Shows that a place was settled. A clause sees the place.
#[derive(Drop)]
pub struct Stable {
    pub(crate) place: Seq,
}

impl Model for Stable {
    ghost use Rattle.std.specs.Prelude.{ℕ};

    ghost Value = { ℕ };

    ghost view = { λ stable. stable.place.0 };
}

impl Stable {
    /// The place.
    pub fn place(&self) -> Seq
        ensures { result.0 ≡ self.now }
    {
        self.place
    }
}
