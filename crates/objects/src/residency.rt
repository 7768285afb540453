//! The blocks in memory.
ghost use Rattle.std.specs.Prelude.{◌≡◌, ◌<◌, ◌+◌, ◌-◌, ◌*◌, ◌^◌, ◌↔◌, Bool, IsTrue, IfOk, IfSome, OnErr, OnOk, []};
ghost use Rattle.std.specs.Prelude.{length, option_map};
ghost use Rattle.disk.specs.declared.block.BlockNo.{BlockNo};
ghost use Rattle.base.specs.declared.TheConstants.{CLEAN_BLOCKS};
ghost use Rattle.objects.specs.Pins.{HasReserved, Pins, PinsStay, Unpins, once_at, pins_of, spared};
ghost use Rattle.objects.specs.Unneeded.{unneeded};
ghost use Rattle.objects.specs.Present.{bytes_in, present_of, content_in, is_pending, IsOnce, with_block, filled};
ghost use Rattle.objects.specs.Present.{without_pending, without_block, renewed};
ghost use Rattle.objects.specs.declared.present.Present.{Present as Resident};

use crate::blocks::Blocks;
use crate::clean::keep_clean;
use crate::recent::Recent;
use crate::{Addr, SharedBytes, pins};
use disk::{Block, BlockNo, SharedBlock};
use std::alloc::{AllocError, Global};
use std::collections::HashMap;
use std::marker::Model;

/// The blocks in memory besides the log's, each with its current content, those whose fetch is pending, and how
/// often each block is pinned. Its type keeps that a block has one resident, so that at most one fetch of it is
/// pending. A block may be pinned while it isn't in memory, and may be in memory while nobody has pinned it. Few stay
/// so: its type keeps that each whose content is there is noted, and that few are noted.
#[derive(Drop)]
pub struct Residency {
    blocks: Blocks,
    // How often a block is pinned, by its number.
    pins: HashMap<u32, u128>,
    // Which of those that nobody has pinned go first.
    recent: Recent,
}

impl Model for Residency {
    ghost use Rattle.objects.specs.Pins.{Residents};

    ghost Value = { Residents };

    ghost view = { λ residency. record {
      blocks = residency.blocks;
      counts = residency.pins.entries;
    } };

    ghost use Rattle.objects.specs.Pins.{count_in};
    ghost use Rattle.objects.specs.Unneeded.{TracksUnneeded};

    ghost invariant = { λ residency. TracksUnneeded residency.recent (count_in residency.pins.entries) residency.blocks };
}

impl Residency {
    /// Nothing is in memory, nothing is pinned, and no fetch is pending.
    pub fn new(alloc: Global) -> Residency
        ensures blocks { result.blocks ≡ [] }
        ensures pins { (at : BlockNo) → pins_of result at ≡ 0 }
    {
        Residency {
            blocks: Blocks::new(alloc),
            pins: HashMap::new(alloc),
            recent: Recent::new(alloc),
        }
    }

    /// A block has one resident.
    pub fn lawful(&self)
        ensures { IsOnce self.now.blocks }
    {
        self.blocks.lawful();
    }

    /// Of the blocks that nobody needs, fewer are in memory than twice `CLEAN_BLOCKS`.
    pub fn few_unneeded(&self)
        ensures { length (unneeded self.now) < 2 * CLEAN_BLOCKS }
    {
        self.blocks.lawful();
    }

    /// The block's content, if it is there and its fetch isn't pending.
    pub fn content_of(&self, block: BlockNo) -> Option<&Block>
        ensures { option_map (λ content. content.now) result ≡ content_in (present_of self.now.blocks block) }
    {
        match self.blocks.get(block) {
            Some(resident) => match &resident.content {
                Some(present) => Some(present.block()),
                None => None,
            },
            None => None,
        }
    }

    /// The bytes at an address, if its block is there and its fetch isn't pending. Those of a whole block come with what
    /// they count to.
    pub fn bytes_at(&mut self, alloc: Global, addr: Addr) -> Result<Option<SharedBytes>, AllocError>
        ensures same { self.new ≡ self.old }
        ensures bytes { IfOk result (λ found. found
            ≡ bytes_in (content_in (present_of self.old.blocks addr.block)) addr.offset addr.len) }
        ensures len { IfOk result (λ found. IfSome found (λ bytes. length bytes ≡ addr.len)) }
    {
        self.blocks.bytes_at(alloc, addr)
    }

    /// Whether a fetch of the block is pending.
    pub fn is_pending(&self, block: BlockNo) -> bool
        ensures { result ≡ is_pending (present_of self.now.blocks block) }
    {
        match self.blocks.get(block) {
            Some(resident) => resident.content.is_none(),
            None => false,
        }
    }

    /// How many blocks have a count of pins: those that are pinned, and those for which room for a pin was made.
    pub fn pinned(&self) -> usize
        ensures { result ≡ length self.now.counts }
    {
        self.pins.len()
    }

    /// Makes room for one pin more of a block, whether it is in memory or not. Nothing else changes.
    pub fn reserve_next(&mut self, block: BlockNo) -> Result<(), AllocError>
        ensures has_space { OnOk result (HasReserved self.new.counts block) }
        ensures pins { PinsStay self.old self.new }
        ensures blocks { self.new.blocks ≡ self.old.blocks }
    {
        pins::reserve_next(&mut self.pins, block)
    }

    /// Pins a block once more for which there is room, whether it is in memory or not.
    pub fn pin_reserved(&mut self, block: BlockNo)
        requires reserved { HasReserved self.old.counts block }
        requires countable { pins_of self.old block + 1 < 2 ^ 128 }
        ensures { Pins self.old (once_at block) self.new }
    {
        pins::add_reserved(&mut self.pins, block);
    }

    /// Pins a block once more that is pinned and whose pins can be counted.
    pub fn pin_again(&mut self, block: BlockNo)
        requires there { 0 < pins_of self.old block }
        requires countable { pins_of self.old block + 1 < 2 ^ 128 }
        ensures { Pins self.old (once_at block) self.new }
    {
        pins::add_again(&mut self.pins, block);
    }

    /// Pins a block once more and brings it into memory with this content, or with a fetch pending where there is
    /// none. One that is in memory, or is being fetched, stays as it is. Where there is no room nothing changes.
    pub fn bring(&mut self, block: BlockNo, content: Option<SharedBlock>) -> Result<(), AllocError>
        requires { pins_of self.old block + 1 < 2 ^ 128 }
        ensures blocks { OnOk result (self.new.blocks ≡ with_block self.old.blocks block content) }
        ensures pinned { OnOk result ((at : BlockNo)
            → pins_of self.new at ≡ pins_of self.old at + once_at block at) }
        ensures refused { OnErr result (PinsStay self.old self.new) }
        ensures same { OnErr result (self.new.blocks ≡ self.old.blocks) }
    {
        pins::add(&mut self.pins, block)?;
        if let Err(none) = self.blocks.bring(block, content) {
            let _ = pins::take(&mut self.pins, block);
            return Err(none);
        }
        Ok(())
    }

    /// Takes one pin off a block. After the last one it may stay in memory, or go, and another that nobody has
    /// pinned may go for it. A fetch that is pending stays so.
    pub fn unpin(&mut self, block: BlockNo)
        ensures { Unpins self.old (once_at block) self.new }
    {
        if pins::take(&mut self.pins, block) == 0 {
            keep_clean(&mut self.blocks, &self.pins, &mut self.recent, block);
        }
    }

    /// Takes one pin off a block that stays pinned, as one that was put on it in vain. What is in memory stays.
    pub fn take_pin_back(&mut self, block: BlockNo)
        requires { 1 < pins_of self.old block }
        ensures pins { (at : BlockNo) → pins_of self.new at ≡ pins_of self.old at - once_at block at }
        ensures blocks { self.new.blocks ≡ self.old.blocks }
    {
        let _ = pins::take(&mut self.pins, block);
    }

    /// Takes one pin off a block and lets it go, whether it is in memory or is being fetched, as one that was
    /// brought in vain.
    pub fn take_back(&mut self, block: BlockNo)
        ensures blocks { self.new.blocks ≡ without_block self.old.blocks block }
        ensures pins { (at : BlockNo) → pins_of self.new at ≡ pins_of self.old at - once_at block at }
    {
        let _ = pins::take(&mut self.pins, block);
        self.blocks.take_back(block);
    }

    /// Puts the content of a block in its place, where its fetch is pending. Where nobody has pinned it, it may stay
    /// or go, and another that nobody has pinned may go for it.
    pub fn fetched(&mut self, block: BlockNo, content: Block)
        ensures { (spare : Resident → Bool) × (self.new ≡ record self.old {
          blocks = spared spare (pins_of self.old) (filled self.old.blocks block content);
        }) }
    {
        self.blocks.fill(block, content);
        if pins::count_of(&self.pins, block) == 0 {
            keep_clean(&mut self.blocks, &self.pins, &mut self.recent, block);
        }
    }

    /// Lets go of a block whose fetch is pending. It stays pinned.
    pub fn fetch_failed(&mut self, block: BlockNo)
        ensures { self.new ≡ record self.old { blocks = without_pending self.old.blocks block } }
    {
        self.blocks.let_go(block);
    }

    /// Makes the content of a block this one, where it is in memory.
    pub fn renew(&mut self, block: BlockNo, content: SharedBlock)
        ensures { self.new ≡ record self.old { blocks = renewed self.old.blocks block content } }
    {
        self.blocks.renew(block, content);
    }
}
