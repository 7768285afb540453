//! The bytes of a block, of one owner.
ghost use Rattle.std.specs.Prelude.{◌≡◌, ℕ, ◌+◌, ◌<◌, ◌≤◌, ◌++◌, length, get_or, take, drop, replicate, IfOk};
ghost use Rattle.base.specs.Buffers.Blocks.{IsBlock};

use crate::BLOCK_BYTES;
use std::alloc::{AllocError, Global};
use std::marker::Model;

// Each byte of a slice is below 256.
fn are_bytes(bytes: &[u8])
    ensures { (index : ℕ) → get_or bytes.now index 0 < 256 }
{}

/// The bytes of a block, 4,096 of them.
#[derive(Drop)]
pub struct Block {
    bytes: Vec<u8>,
}

impl Model for Block {
    ghost use Rattle.std.specs.Prelude.{List, ℕ, ◌≡◌, length};
    ghost use Rattle.base.specs.declared.TheConstants.{BLOCK_BYTES};

    ghost Value = { List ℕ };

    ghost view = { λ b. b.bytes.items };

    ghost invariant = { λ b. length b.bytes.items ≡ BLOCK_BYTES };
}

impl Block {
    /// A block of zeros.
    pub fn zeros(alloc: Global) -> Result<Block, AllocError>
        ensures { IfOk result (λ b. b ≡ replicate BLOCK_BYTES 0) }
    {
        Ok(Block {
            bytes: Vec::from_slice(alloc, &[0; BLOCK_BYTES])?,
        })
    }

    /// A block of these bytes, none of which is copied.
    pub fn from_vec(bytes: Vec<u8>) -> Block
        requires { length bytes.items ≡ BLOCK_BYTES }
        ensures { result ≡ bytes.items }
    {
        Block { bytes }
    }

    /// A copy of these bytes.
    pub fn from_slice(alloc: Global, bytes: &[u8]) -> Result<Block, AllocError>
        requires { length bytes.now ≡ BLOCK_BYTES }
        ensures { IfOk result (λ b. b ≡ bytes.now) }
    {
        Ok(Block {
            bytes: Vec::from_slice(alloc, bytes)?,
        })
    }

    /// The same bytes, of another owner.
    pub fn copied(&self, alloc: Global) -> Result<Block, AllocError>
        ensures { IfOk result (λ b. b ≡ self.now) }
    {
        Block::from_slice(alloc, self.as_slice())
    }

    /// The bytes.
    pub fn as_slice(&self) -> &[u8]
        ensures bytes { result.now ≡ self.now }
        ensures len { length result.now ≡ BLOCK_BYTES }
        ensures block { IsBlock self.now }
    {
        let bytes = self.bytes.as_slice();
        are_bytes(bytes);
        bytes
    }

    /// It is a block: for proofs alone.
    pub fn whole(&self)
        ensures { IsBlock self.now }
    {
        self.as_slice();
    }

    /// The bytes, for who writes over them.
    pub fn as_mut_slice(&mut self) -> &mut [u8]
        ensures { result.now ≡ self.old }
    {
        &mut self.bytes[..]
    }

    /// Makes the bytes those of another block.
    pub fn copy_from(&mut self, other: &Block)
        ensures { self.new ≡ other.now }
    {
        self.put(0, other.as_slice());
    }

    /// Puts bytes at an offset, and leaves the others.
    pub fn put(&mut self, offset: usize, bytes: &[u8])
        requires { offset + length bytes.now ≤ BLOCK_BYTES }
        ensures bytes { self.new ≡ take offset self.old ++ bytes.now
            ++ drop (offset + length bytes.now) self.old }
        ensures len { length self.new ≡ BLOCK_BYTES }
    {
        self.bytes[offset..offset + bytes.len()].copy_from_slice(bytes);
    }
}
