//! The contents that one block may have.
ghost use Rattle.std.specs.Prelude.{◌≡◌, ◌<◌, ◌-◌, [], ◌∷◌, ◌++◌, min, is_ok, length, IfOk, if◌then◌else◌};
ghost use Rattle.disk.specs.Device.{newest, newest_only};
ghost use Rattle.disk.specs.Choice.{pick};
ghost use Rattle.disk.specs.Blocks.{AreContents};

use crate::Block;
use std::alloc::{AllocError, Global};
use std::marker::Model;

/// The contents that a crash may leave of one block, the newest last.
#[derive(Drop)]
pub struct Contents {
    blocks: Vec<Block>,
}

impl Model for Contents {
    ghost use Rattle.std.specs.Prelude.{List, ℕ};
    ghost use Rattle.disk.specs.Blocks.{AreContents};

    ghost Value = { List (List ℕ) };

    ghost view = { λ c. c.blocks.items };

    ghost invariant = { λ c. AreContents c.blocks.items };
}

impl Contents {
    /// One content.
    pub fn one(alloc: Global, content: Block) -> Result<Contents, AllocError>
        ensures only { IfOk result (λ contents. contents ≡ content ∷ []) }
        ensures whole { IfOk result AreContents }
    {
        content.whole();
        let mut blocks = Vec::with_capacity(alloc, 1)?;
        blocks.push(content)?;
        Ok(Contents { blocks })
    }

    /// There is one, and they are blocks: for proofs alone.
    pub fn whole(&self)
        ensures { AreContents self.now }
    {
        let _ = &self.blocks;
    }

    /// How many there are.
    pub fn count(&self) -> usize
        ensures { result ≡ length self.now }
    {
        self.blocks.len()
    }

    /// The newest.
    pub fn newest(&self) -> &Block
        ensures { result.now ≡ newest self.now }
    {
        &self.blocks[self.blocks.len() - 1]
    }

    /// Adds a newer one. Where memory was refused nothing changes.
    pub fn append(&mut self, alloc: Global, content: &Block) -> Result<(), AllocError>
        ensures appended { self.new ≡ (if is_ok result then self.old ++ content.now ∷ [] else self.old) }
        ensures whole { AreContents self.new }
    {
        self.whole();
        let mut copy = Block::zeros(alloc)?;
        copy.copy_from(content);
        copy.whole();
        self.blocks.push(copy)?;
        Ok(())
    }

    /// Keeps the newest alone.
    pub fn keep_newest(&mut self)
        ensures is_preserved { self.new ≡ newest_only self.old }
        ensures whole { AreContents self.new }
    {
        let last = self.blocks.len() - 1;
        self.keep_one(last);
    }

    /// Keeps one alone: that of this index, or where there are fewer the newest.
    pub fn keep_one(&mut self, index: usize)
        ensures is_preserved { self.new ≡ pick index self.old ∷ [] }
        ensures some { 0 < length self.old }
        ensures whole { AreContents self.new }
    {
        let last = self.blocks.len() - 1;
        self.blocks.swap(0, index.min(last));
        self.blocks.truncate(1);
    }

    /// Makes this the only content.
    pub fn set(&mut self, content: &Block)
        ensures set { self.new ≡ content.now ∷ [] }
        ensures whole { AreContents self.new }
    {
        content.whole();
        self.blocks.truncate(1);
        self.blocks[0].copy_from(content);
    }
}
