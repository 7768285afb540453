//! How often numbers are named.
ghost use Rattle.std.specs.Prelude.{◌≡◌, ◌++◌, ◌∷◌, [], ◌<◌, ℕ, List, get_or, length, IfOk};
ghost use Rattle.image_read.specs.ImageCounts.Tally.{AreCounts};

use base::MOST_LINKS;
use std::alloc::{AllocError, Global};
use std::marker::Model;

/// How often each of so many numbers was named so far. Where that is more than a file may have links, it isn't
/// told how much more.
#[derive(Drop)]
pub struct Named {
    counts: Vec<u32>,
}

impl Model for Named {
    ghost use Rattle.std.specs.Prelude.{List, ℕ};

    ghost Value = { List ℕ };

    ghost view = { λ n. n.counts.items };
}

impl Named {
    /// None was named.
    pub fn new(alloc: Global, size: u32) -> Result<Named, AllocError>
        ensures size { IfOk result (λ n. length n ≡ size) }
        ensures none { IfOk result (AreCounts []) }
    {
        Ok(Named {
            counts: vec![in alloc; 0; size as usize]?,
        })
    }

    /// One more is named.
    pub fn name(&mut self, number: u32)
        requires { number < length self.old }
        ensures size { length self.new ≡ length self.old }
        ensures named { (met : List ℕ) → AreCounts met self.old → AreCounts (met ++ number ∷ []) self.new }
    {
        if self.counts[number as usize] <= MOST_LINKS {
            self.counts[number as usize] += 1;
        }
    }

    /// How often a number was named.
    pub fn of(&self, number: u32) -> u32
        requires { number < length self.now }
        ensures { result ≡ get_or self.now number 0 }
    {
        self.counts[number as usize]
    }
}
