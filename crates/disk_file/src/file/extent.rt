//! Writes of blocks that follow each other, to be made by one call of a file.
ghost use Rattle.std.specs.Prelude.{◌≡◌, ◌≤◌, ◌+◌, [], ◌++◌, IfOk, IsTrue, length, vec_capacity};
ghost use Rattle.base.specs.declared.TheConstants.{BLOCK_BYTES};
ghost use Rattle.disk_file.specs.declared.file.extent.TheConstants.{EXTENT_BYTES};

use super::BlockFile;
use base::BLOCK_BYTES;
use disk::{Block, Failed};
use std::alloc::{AllocError, Global};

// The most bytes that one call writes: 128 blocks.
const EXTENT_BYTES: usize = 524_288;

/// The bytes of writes that are still to be made, and the offset at which they begin. Once it is made it takes no memory.
#[derive(Drop)]
pub(crate) struct Extent {
    pub(crate) bytes: Vec<u8>,
    pub(crate) first: u64,
    ghost has_space: { EXTENT_BYTES ≤ vec_capacity bytes },
}

impl Extent {
    /// No write.
    pub(crate) fn new(alloc: Global) -> Result<Extent, AllocError>
        ensures { IfOk result (λ extent. extent.bytes.items ≡ []) }
    {
        Ok(Extent {
            bytes: Vec::with_capacity(alloc, EXTENT_BYTES)?,
            first: 0,
        })
    }

    /// Whether a block at this offset comes right behind them, and finds room.
    pub(crate) fn goes_on_at(&self, offset: u64) -> bool
        ensures is_contiguous { IsTrue result → offset ≡ self.now.first + length self.now.bytes.items }
        ensures has_space { IsTrue result → length self.now.bytes.items + BLOCK_BYTES ≤ EXTENT_BYTES }
    {
        let pending = self.bytes.len();
        pending <= EXTENT_BYTES - BLOCK_BYTES
            && self.first.checked_add(pending as u64) == Some(offset)
    }

    /// Begins at this offset, where none is still to be made.
    pub(crate) fn begin_at(&mut self, offset: u64)
        requires { self.old.bytes.items ≡ [] }
        ensures bytes { self.new.bytes.items ≡ [] }
        ensures first { self.new.first ≡ offset }
    {
        self.first = offset;
    }

    /// Has one write more, behind the others.
    pub(crate) fn push(&mut self, content: &Block)
        requires { length self.old.bytes.items + BLOCK_BYTES ≤ EXTENT_BYTES }
        ensures bytes { self.new.bytes.items ≡ self.old.bytes.items ++ content.now }
        ensures first { self.new.first ≡ self.old.first }
    {
        match self.bytes.extend_from_slice(content.as_slice()) {
            Ok(()) => {}
            Err(_) => unreachable!(),
        }
    }

    /// Makes the writes. Where that fails some of the bytes may have been written; it has none of them any more.
    pub(crate) fn write_to<F: BlockFile>(&mut self, file: &F) -> Result<(), Failed>
        ensures { self.new.bytes.items ≡ [] }
    {
        if self.bytes.is_empty() {
            return Ok(());
        }
        let made = file
            .write_all_at(self.bytes.as_slice(), self.first)
            .or(Err(Failed));
        self.bytes.clear();
        made
    }
}
