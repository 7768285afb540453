//! The content of a block in memory, and what is kept of it.
ghost use Rattle.std.specs.Prelude.{◌≡◌, IfOk, IfSome, Some, length};
ghost use Rattle.objects.specs.Counted.{IsCountedIn};
ghost use Rattle.objects.specs.Spliced.{extracted};

use crate::{Addr, Counted, SharedBytes};
use base::{BLOCK_BYTES, CowBlock, apart};
use disk::{Block, SharedBlock};
use std::alloc::{AllocError, Global};
use std::marker::Model;

/// A block's content, and what its numbers count to. A block stands as it was read until somebody first asks for a part of
/// it, and is shared from then on. Its numbers are counted where the whole block is first wanted since it came or was
/// changed.
#[derive(Drop)]
pub struct PresentBlock {
    block: CowBlock,
    counted: Option<Counted>,
}

impl Model for PresentBlock {
    ghost use Rattle.std.specs.Prelude.{List, ℕ, IfSome};
    ghost use Rattle.objects.specs.Counted.{IsCountedIn};

    ghost Value = { List ℕ };

    ghost view = { λ present. present.block };

    ghost invariant = { λ present. IfSome present.counted (IsCountedIn present.block) };
}

impl PresentBlock {
    /// A block that came.
    pub(crate) fn new(block: Block) -> PresentBlock
        ensures { result ≡ block }
    {
        PresentBlock {
            block: CowBlock::owned(block),
            counted: None,
        }
    }

    /// A block that is shared.
    pub(crate) fn shared(block: SharedBlock) -> PresentBlock
        ensures { result ≡ block }
    {
        PresentBlock {
            block: CowBlock::shared(block),
            counted: None,
        }
    }

    /// The block.
    pub(crate) fn block(&self) -> &Block
        ensures { result.now ≡ self.now }
    {
        self.block.block()
    }

    /// Makes the content this one. Who has a part of what it was keeps that.
    pub(crate) fn renew(&mut self, content: SharedBlock)
        ensures { self.new ≡ content }
    {
        self.block = CowBlock::shared(content);
        self.counted = None;
    }

    /// The block, and its bytes at an address, which point into it: it is shared from now on. Those of the whole block
    /// come with what they count to. Where there is no memory for that the block is as it was.
    pub(crate) fn bytes_at(
        self,
        alloc: Global,
        addr: Addr,
    ) -> (PresentBlock, Result<SharedBytes, AllocError>)
        ensures same { result.0 ≡ self }
        ensures bytes { IfOk result.1 (λ bytes. bytes ≡ extracted self addr.offset addr.len) }
        ensures len { IfOk result.1 (λ bytes. length bytes ≡ addr.len) }
    {
        let mut counted = self.counted;
        let (block, bytes) = match self.block.into_shared(alloc) {
            Ok(shared) => {
                let bytes: Result<SharedBytes, AllocError> = part_of(&shared, addr, &mut counted);
                (CowBlock::shared(shared), bytes)
            }
            Err(failed) => {
                let (error, block) = apart(failed);
                (CowBlock::owned(block), Err(error))
            }
        };
        (PresentBlock { block, counted }, bytes)
    }
}

// The bytes at an address of a shared block: those of the whole block with what they count to.
fn part_of(
    shared: &SharedBlock,
    addr: Addr,
    counted: &mut Option<Counted>,
) -> Result<SharedBytes, AllocError>
    requires { IfSome counted.old (IsCountedIn shared.now) }
    ensures counted { IfSome counted.new (IsCountedIn shared.now) }
    ensures bytes { IfOk result (λ bytes. bytes ≡ extracted shared.now addr.offset addr.len) }
    ensures len { IfOk result (λ bytes. length bytes ≡ addr.len) }
{
    let bytes = SharedBytes::of_block(shared, addr)?;
    if addr.len < BLOCK_BYTES {
        return Ok(bytes);
    }
    let _ = shared.as_slice();
    Ok(bytes.with_count(count(shared, counted)))
}

// What a block's numbers count to. They are counted only where that isn't known.
fn count(shared: &SharedBlock, counted: &mut Option<Counted>) -> Counted
    requires { IfSome counted.old (IsCountedIn shared.now) }
    ensures counted { IsCountedIn shared.now result }
    ensures known { counted.new ≡ Some result }
{
    if let Some(known) = *counted {
        return known;
    }
    let found = Counted::of(shared.as_slice());
    *counted = Some(found);
    found
}
