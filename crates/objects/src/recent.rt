//! Which blocks were unpinned last.
ghost use Rattle.std.specs.Prelude.{◌≡◌, ◌<◌, ◌*◌, [], ◌∷◌, length, take, true, false};
ghost use Rattle.std.specs.Map.{keys_of};
ghost use Rattle.disk.specs.declared.block.BlockNo.{BlockNo as BlockNumber};
ghost use Rattle.base.specs.declared.TheConstants.{CLEAN_BLOCKS};
ghost use Rattle.lru.specs.LruCache.{lru_cache};
ghost use Rattle.objects.specs.Recent.{is_tracked};

use base::CLEAN_BLOCKS;
use disk::BlockNo;
use lru::LruCache;
use std::alloc::Global;
use std::marker::Model;
use std::num::NonZeroUsize;

// How many are noted until those noted longest ago are forgotten.
const MOST_TRACKED: usize = 2 * CLEAN_BLOCKS;

/// The numbers of the blocks that were unpinned for the last time, in the order in which that was: the last
/// `CLEAN_BLOCKS`, and fewer than as many again; none at all where there was no memory for it. Some of them may be
/// pinned again. A clause sees the numbers, the one that was noted last first.
#[derive(Drop)]
pub(crate) struct Recent {
    numbers: Option<LruCache<u32, ()>>,
}

impl Model for Recent {
    ghost use Rattle.std.specs.Prelude.{◌≡◌, ◌*◌, ℕ, List, IfSome};
    ghost use Rattle.base.specs.declared.TheConstants.{CLEAN_BLOCKS};
    ghost use Rattle.objects.specs.Recent.{numbers_in};

    ghost Value = { List ℕ };

    ghost view = { λ recent. numbers_in recent.numbers };

    ghost invariant = { λ recent. IfSome recent.numbers (λ numbers. numbers.cap ≡ 2 * CLEAN_BLOCKS) };
}

impl Recent {
    /// No block was unpinned yet.
    pub(crate) fn new(alloc: Global) -> Recent
        ensures { result ≡ [] }
    {
        let numbers = match NonZeroUsize::new(MOST_TRACKED) {
            Some(most) => LruCache::new(alloc, most).ok(),
            None => None,
        };
        Recent { numbers }
    }

    /// Notes a block that was unpinned for the last time, as the last one. It tells whether there was memory for it.
    pub(crate) fn track(&mut self, block: BlockNo) -> bool
        requires { length self.old < 2 * CLEAN_BLOCKS }
        ensures tracked { result ≡ true → (at : BlockNumber)
            → is_tracked self.new at ≡ is_tracked (block.0 ∷ self.old) at }
        ensures refused { result ≡ false → self.new ≡ self.old }
    {
        match self.numbers.as_mut() {
            Some(numbers) => track_in(numbers, block),
            None => false,
        }
    }

    /// Forgets those that were noted longest ago, all but `CLEAN_BLOCKS`, once there are twice as many. It tells
    /// whether it did.
    pub(crate) fn forget_oldest(&mut self) -> bool
        ensures few { length self.new < 2 * CLEAN_BLOCKS }
        ensures forgot { result ≡ true → self.new ≡ take CLEAN_BLOCKS self.old }
        ensures kept { result ≡ false → self.new ≡ self.old }
    {
        match self.numbers.as_mut() {
            Some(numbers) => forget_in(numbers),
            None => false,
        }
    }

    /// Whether the block is noted.
    pub(crate) fn has(&self, block: BlockNo) -> bool
        ensures { result ≡ is_tracked self.now block }
    {
        match self.numbers.as_ref() {
            Some(numbers) => numbers.contains(&block.0),
            None => false,
        }
    }
}

// Notes a block as the last one, where there is room for one more. It tells whether there was memory for it.
fn track_in(numbers: &mut LruCache<u32, ()>, block: BlockNo) -> bool
    requires { length numbers.old.entries < numbers.old.cap }
    ensures tracked { result ≡ true → (at : BlockNumber)
        → is_tracked (keys_of numbers.new.entries) at ≡ is_tracked (block.0 ∷ keys_of numbers.old.entries) at }
    ensures refused { result ≡ false → numbers.new ≡ numbers.old }
    ensures has_space { numbers.new.cap ≡ numbers.old.cap }
{
    numbers.put(block.0, ()).is_ok()
}

// Forgets those that were noted longest ago, all but `CLEAN_BLOCKS`, once there are twice as many. It tells whether
// it did.
fn forget_in(numbers: &mut LruCache<u32, ()>) -> bool
    ensures few { length numbers.new.entries < 2 * CLEAN_BLOCKS }
    ensures forgot { result ≡ true → keys_of numbers.new.entries ≡ take CLEAN_BLOCKS (keys_of numbers.old.entries) }
    ensures kept { result ≡ false → numbers.new ≡ numbers.old }
    ensures has_space { numbers.new.cap ≡ numbers.old.cap }
{
    if numbers.len() < MOST_TRACKED {
        return false;
    }
    keep_last(numbers, CLEAN_BLOCKS);
    true
}

// Forgets those that were noted longest ago, all but so many.
fn keep_last(numbers: &mut LruCache<u32, ()>, count: usize)
    ensures { numbers.new ≡ lru_cache (take count numbers.old.entries) numbers.old.cap }
{
    while numbers.len() > count {
        let _ = numbers.pop_lru();
    }
}
