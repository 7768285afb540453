//! Memory for contents, with a note of each time that it was refused.
ghost use Rattle.std.specs.Prelude.{◌≡◌, ◌+◌, ◌∷◌, ◌++◌, [], length, is_ok, if◌then◌else◌};
ghost use Rattle.disk.specs.Blocks.{AreContents};

use crate::Block;
use crate::contents::Contents;
use http_server::Log;
use std::alloc::{AllocError, Global};

/// Where contents find room. What was refused is noted for proofs alone, in `http_server`'s `Log`, and takes
/// no memory. Who has one can't note a refusal but by being refused.
#[derive(Drop)]
pub struct ContentAllocator {
    alloc: Global,
    refused: Log<AllocError, ()>,
}

impl ContentAllocator {
    /// Memory that wasn't refused yet.
    pub fn new(alloc: Global) -> ContentAllocator
        ensures { result.refused.items ≡ [] }
    {
        ContentAllocator {
            alloc,
            refused: Log::new(),
        }
    }

    /// Adds a newer content. Where memory was refused nothing changes, and it is noted.
    pub fn append(&mut self, contents: &mut Contents, content: &Block) -> Result<(), AllocError>
        ensures appended { contents.new
            ≡ (if is_ok result then contents.old ++ content.now ∷ [] else contents.old) }
        ensures whole { AreContents contents.new }
        ensures refused { length self.new.refused.items
            ≡ (if is_ok result then length self.old.refused.items else length self.old.refused.items + 1) }
    {
        let result = contents.append(self.alloc, content);
        if let Err(error) = &result {
            self.refused = self.refused.and(error, &());
        }
        result
    }
}
