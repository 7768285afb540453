//! Bytes that several hold.
ghost use Rattle.std.specs.Prelude.{◌≡◌, ◌+◌, ◌≤◌, IfOk, IfSome, length, take, drop};
ghost use Rattle.base.specs.declared.TheConstants.{BLOCK_BYTES};

use crate::BLOCK_BYTES;
use crate::buffers::SharedBlock;
use bytes::Bytes;
use std::alloc::{AllocError, Global};
use std::marker::Model;

// What shared bytes lie in.
#[derive(Drop)]
pub(crate) enum Backing {
    // Bytes that were made for them, or a part of others as a record that came.
    Bytes(Bytes),
    // So many bytes of a shared block, from an offset on.
    Block(SharedBlock, usize, usize),
}

/// Bytes that nobody changes any more: a part of a shared block, or of other bytes. A clone copies none of them, and takes
/// no memory.
#[derive(Drop)]
pub struct SharedOctets {
    backing: Backing,
}

impl Model for SharedOctets {
    ghost use Rattle.std.specs.Prelude.{ℕ, List};
    ghost use Rattle.base.specs.Buffers.Shared.{IsWithin, bytes_in};

    ghost Value = { List ℕ };

    ghost view = { λ shared. bytes_in shared.backing };

    ghost invariant = { λ shared. IsWithin shared.backing };
}

impl SharedOctets {
    /// Shares these bytes. None of them is copied.
    pub fn new(bytes: Vec<u8>) -> Result<SharedOctets, AllocError>
        ensures { IfOk result (λ shared. shared ≡ bytes.items) }
    {
        Ok(SharedOctets {
            backing: Backing::Bytes(Bytes::from_vec(bytes)?),
        })
    }

    /// A copy of these bytes.
    pub fn copied(alloc: Global, bytes: &[u8]) -> Result<SharedOctets, AllocError>
        ensures { IfOk result (λ shared. shared ≡ bytes.now) }
    {
        SharedOctets::new(Vec::from_slice(alloc, bytes)?)
    }

    /// Bytes that are shared already.
    pub fn of_bytes(bytes: Bytes) -> SharedOctets
        ensures { result ≡ bytes }
    {
        SharedOctets {
            backing: Backing::Bytes(bytes),
        }
    }

    /// So many bytes of a shared block, from an offset on. None of them is copied.
    pub fn of_block(
        block: &SharedBlock,
        offset: usize,
        len: usize,
    ) -> Result<SharedOctets, AllocError>
        requires { offset + len ≤ BLOCK_BYTES }
        ensures bytes { IfOk result (λ shared. shared ≡ take len (drop offset block.now)) }
        ensures len { IfOk result (λ shared. length shared ≡ len) }
    {
        let block = block.clone()?;
        let _ = block.as_slice();
        Ok(SharedOctets {
            backing: Backing::Block(block, offset, len),
        })
    }

    /// So many of the bytes, from one on. None of them is copied.
    #[tactic(auto, using(crate::proofs::BuffersLemmas::Parts::part_of))]
    pub fn part(&self, from: usize, len: usize) -> Result<SharedOctets, AllocError>
        requires { from + len ≤ length self.now }
        ensures { IfOk result (λ shared. shared ≡ take len (drop from self.now)) }
    {
        match &self.backing {
            Backing::Bytes(bytes) => {
                let _ = bytes.len();
                Ok(SharedOctets::of_bytes(bytes.slice(from..from + len)?))
            }
            Backing::Block(block, offset, _) => SharedOctets::of_block(block, *offset + from, len),
        }
    }

    /// The shared block that the bytes are all of, if they are.
    pub fn whole(&self) -> Option<&SharedBlock>
        ensures { IfSome result (λ block. block.now ≡ self.now) }
    {
        match &self.backing {
            Backing::Block(block, _, len) if *len == BLOCK_BYTES => {
                let _ = block.as_slice();
                Some(block)
            }
            _ => None,
        }
    }

    /// The bytes.
    pub fn as_slice(&self) -> &[u8]
        ensures { result.now ≡ self.now }
    {
        match &self.backing {
            Backing::Bytes(bytes) => bytes.as_slice(),
            Backing::Block(block, offset, len) => &block.as_slice()[*offset..*offset + *len],
        }
    }
}

impl Clone for SharedOctets {
    ghost is_clone = { λ shared copy. copy ≡ shared };

    fn clone(&self) -> Result<SharedOctets, AllocError> {
        match &self.backing {
            Backing::Bytes(bytes) => Ok(SharedOctets::of_bytes(bytes.clone()?)),
            Backing::Block(block, offset, len) => SharedOctets::of_block(block, *offset, *len),
        }
    }
}
