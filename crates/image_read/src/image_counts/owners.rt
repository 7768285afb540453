//! Who owns the blocks of an image.
ghost use Rattle.std.specs.Prelude.{◌≡◌, ◌++◌, ◌∷◌, [], ◌<◌, ℕ, List, false, get_or, length, IfOk};
ghost use Rattle.image_read.specs.ImageCounts.Tally.{IsOwned};

use std::alloc::{AllocError, Global};
use std::marker::Model;

/// The blocks that were met so far, of so many of an image: which these are, how many, and whether one was met
/// twice.
#[derive(Drop)]
pub struct Owners {
    has: Vec<bool>,
    count: u32,
    shared: bool,
}

impl Model for Owners {
    ghost use Rattle.std.specs.Prelude.{◌≡◌, ◌<◌, ◌^◌, count_by, length};
    ghost use Rattle.image_read.specs.ImageCounts.Tally.{Owned};

    ghost Value = { Owned };

    ghost view = { λ o. record { has = o.has.items; count = o.count; shared = o.shared } };

    ghost invariant = { λ o. (o.count ≡ count_by (λ one. one) o.has.items) × (length o.has.items < 2 ^ 32) };
}

impl Owners {
    /// None was met.
    pub fn new(alloc: Global, size: u32) -> Result<Owners, AllocError>
        ensures size { IfOk result (λ o. length o.has ≡ size) }
        ensures none { IfOk result (IsOwned []) }
    {
        let has = vec![in alloc; false; size as usize]?;
        Ok(Owners {
            has,
            count: 0,
            shared: false,
        })
    }

    /// One more is met.
    pub fn meet(&mut self, number: u32)
        requires { number < length self.old.has }
        ensures size { length self.new.has ≡ length self.old.has }
        ensures met { (met : List ℕ) → IsOwned met self.old → IsOwned (met ++ number ∷ []) self.new }
    {
        if self.has[number as usize] {
            self.shared = true;
        } else {
            self.has[number as usize] = true;
            self.count += 1;
        }
    }

    /// Whether a block was met.
    pub fn has(&self, number: u32) -> bool
        requires { number < length self.now.has }
        ensures { result ≡ get_or self.now.has number false }
    {
        self.has[number as usize]
    }

    /// How many were met, where none was twice.
    pub fn count(&self) -> u32
        ensures { result ≡ self.now.count }
    {
        self.count
    }

    /// Whether one was met twice.
    pub fn is_shared(&self) -> bool
        ensures { result ≡ self.now.shared }
    {
        self.shared
    }
}
