//! What a write that is handed out writes: it takes no memory.
ghost use Rattle.std.specs.Prelude.{◌≡◌};

use crate::{Block, SharedBlock};
use std::marker::Model;

/// What a write writes: a shared block, or what stands in the buffer that goes out with it.
#[derive(Drop)]
pub struct Handed {
    buffer: Block,
    shared: Option<SharedBlock>,
}

impl Model for Handed {
    ghost use Rattle.std.specs.Prelude.{ℕ, List};
    ghost use Rattle.std.specs.Option.{unwrap_or};

    ghost Value = { List ℕ };

    ghost view = { λ h. unwrap_or h.shared h.buffer };
}

impl Handed {
    /// What stands in the buffer.
    pub fn own(buffer: Block) -> Handed
        ensures { result ≡ buffer }
    {
        Handed {
            buffer,
            shared: None,
        }
    }

    /// A shared block, with the buffer beside it. Where it has no room for one owner more it is copied into the buffer.
    pub fn shared(buffer: Block, content: &SharedBlock) -> Handed
        ensures { result ≡ content.now }
    {
        let mut buffer = buffer;
        match content.clone() {
            Ok(shared) => Handed {
                buffer,
                shared: Some(shared),
            },
            Err(_) => {
                buffer.copy_from(content.block());
                Handed {
                    buffer,
                    shared: None,
                }
            }
        }
    }

    /// What is written.
    pub fn block(&self) -> &Block
        ensures { result.now ≡ self.now }
    {
        match &self.shared {
            Some(shared) => shared.block(),
            None => &self.buffer,
        }
    }

    /// The buffer again. What it holds is any block.
    pub fn into_buffer(self) -> Block {
        let Handed { buffer, shared: _ } = self;
        buffer
    }
}
