//! A block that several hold.
ghost use Rattle.std.specs.Prelude.{◌≡◌, length, IfOk, IfErr};
ghost use Rattle.base.specs.declared.TheConstants.{BLOCK_BYTES};

use crate::buffers::Block;
use std::alloc::{AllocError, AllocFailed, Global};
use std::marker::Model;
use std::sync::Arc;

/// A block that nobody changes any more. A clone copies none of it, and takes no memory.
#[derive(Drop)]
pub struct SharedBlock {
    block: Arc<Block, Global>,
}

impl Model for SharedBlock {
    ghost use Rattle.std.specs.Prelude.{ℕ, List};
    ghost use Rattle.std.specs.Arc.{arc_value};

    ghost Value = { List ℕ };

    ghost view = { λ shared. arc_value shared.block };
}

impl SharedBlock {
    /// Shares a block. No byte of it is copied. Where there is no memory the block comes back.
    pub fn new(alloc: Global, block: Block) -> Result<SharedBlock, AllocFailed<Block>>
        ensures shared { IfOk result (λ shared. shared ≡ block) }
        ensures back { IfErr result (λ failed. failed.value ≡ block) }
    {
        match Arc::new(alloc, block) {
            Ok(block) => Ok(SharedBlock { block }),
            Err(failed) => Err(failed),
        }
    }

    /// The block.
    pub fn block(&self) -> &Block
        ensures { result.now ≡ self.now }
    {
        &*self.block
    }

    /// The bytes.
    pub fn as_slice(&self) -> &[u8]
        ensures bytes { result.now ≡ self.now }
        ensures len { length result.now ≡ BLOCK_BYTES }
    {
        self.block().as_slice()
    }
}

impl Clone for SharedBlock {
    ghost is_clone = { λ shared copy. copy ≡ shared };

    fn clone(&self) -> Result<SharedBlock, AllocError> {
        Ok(SharedBlock {
            block: Arc::try_clone(&self.block)?,
        })
    }
}
