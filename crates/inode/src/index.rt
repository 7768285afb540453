//! Where the objects of a list stand, by their addresses, so that one is found without a walk.
ghost use Rattle.std.specs.Prelude.{◌≡◌, ◌∷◌, ◌++◌, ◌<◌, [], OnOk};

use std::alloc::{AllocError, Global};
use std::marker::Model;

/// The positions of objects in a list, by a key of the address of each. A clause sees the positions of each bucket.
#[derive(Drop)]
pub struct AddressIndex {
    buckets: Vec<Vec<usize>>,
}

impl Model for AddressIndex {
    ghost use Rattle.std.specs.Prelude.{List, ℕ, map};

    ghost Value = { List (List ℕ) };

    ghost view = { λ p. map (λ bucket. bucket.items) p.buckets.items };

    ghost use Rattle.std.specs.Prelude.{◌<◌, vec_len};

    ghost invariant = { λ p. 0 < vec_len p.buckets };
}

impl AddressIndex {
    ghost use Rattle.std.specs.Prelude.{◌≡◌, ◌<◌, ℕ, true, OnOk};
    ghost use Rattle.inode.specs.Indexed.{under, is_under};

    /// No position is known yet. They are to be parted into so many buckets.
    pub(crate) fn new(alloc: Global, count: usize) -> Result<AddressIndex, AllocError>
        requires { 0 < count }
    {
        let mut buckets = Vec::with_capacity(alloc, count)?;
        for _ in 0..count {
            buckets.push(Vec::new(alloc))?;
        }
        Ok(AddressIndex { buckets })
    }

    /// Whether so many positions are more than there are buckets: one of these then has more than one.
    pub(crate) fn is_crowded(&self, positions: usize) -> bool {
        positions > self.buckets.len()
    }

    /// The positions under a key, among those of other keys of its bucket.
    pub(crate) fn under(&self, key: usize) -> &[usize]
        ensures { result.now ≡ under key self.now }
    {
        &self.buckets[key % self.buckets.len()]
    }

    /// Adds a position under a key.
    pub(crate) fn track(&mut self, key: usize, position: usize) -> Result<(), AllocError>
        ensures there { OnOk result (is_under position key self.new ≡ true) }
        ensures stays { OnOk result ((other at : ℕ) → is_under at other self.old ≡ true
            → is_under at other self.new ≡ true) }
    {
        let bucket = key % self.buckets.len();
        add(&mut self.buckets[bucket], position)
    }
}

// Adds a position to a bucket.
fn add(bucket: &mut Vec<usize>, position: usize) -> Result<(), AllocError>
    ensures { OnOk result (bucket.new.items ≡ bucket.old.items ++ position ∷ []) }
{
    bucket.push(position)?;
    Ok(())
}
