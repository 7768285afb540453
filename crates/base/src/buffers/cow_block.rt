//! A block that is copied where it is written on, if several hold it.
ghost use Rattle.std.specs.Prelude.{◌≡◌, IfOk, IfErr};

use crate::buffers::{Block, SharedBlock};
use std::alloc::{AllocError, AllocFailed, Global};
use std::marker::Model;

// Who holds the block.
#[derive(Drop)]
pub(crate) enum Ownership {
    // One owner, who may write on it.
    Owned(Block),
    // Several, none of whom changes it.
    Shared(SharedBlock),
}

/// A block that has one owner, or is shared by pointer: copy on write.
#[derive(Drop)]
pub struct CowBlock {
    ownership: Ownership,
}

impl Model for CowBlock {
    ghost use Rattle.std.specs.Prelude.{ℕ, List};
    ghost use Rattle.base.specs.Buffers.Cow.{bytes_of};

    ghost Value = { List ℕ };

    ghost view = { λ cow. bytes_of cow.ownership };
}

impl CowBlock {
    /// A block of one owner.
    pub fn owned(block: Block) -> CowBlock
        ensures { result ≡ block }
    {
        CowBlock {
            ownership: Ownership::Owned(block),
        }
    }

    /// A block that is shared.
    pub fn shared(block: SharedBlock) -> CowBlock
        ensures { result ≡ block }
    {
        CowBlock {
            ownership: Ownership::Shared(block),
        }
    }

    /// The block.
    pub fn block(&self) -> &Block
        ensures { result.now ≡ self.now }
    {
        match &self.ownership {
            Ownership::Owned(block) => block,
            Ownership::Shared(shared) => shared.block(),
        }
    }

    /// The block, of one owner: to write on. It is copied only where it is shared.
    pub fn into_owned(self, alloc: Global) -> Result<Block, AllocError>
        ensures { IfOk result (λ block. block ≡ self) }
    {
        match self.ownership {
            Ownership::Owned(block) => Ok(block),
            Ownership::Shared(shared) => shared.block().copied(alloc),
        }
    }

    /// The block, shared from now on. No byte of it is copied. Where there is no memory the block comes back.
    pub fn into_shared(self, alloc: Global) -> Result<SharedBlock, AllocFailed<Block>>
        ensures shared { IfOk result (λ shared. shared ≡ self) }
        ensures back { IfErr result (λ failed. failed.value ≡ self) }
    {
        match self.ownership {
            Ownership::Owned(block) => SharedBlock::new(alloc, block),
            Ownership::Shared(shared) => Ok(shared),
        }
    }
}
