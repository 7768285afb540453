//! The keys of the seats that have no call.
ghost use Rattle.std.specs.Prelude.{◌≡◌, ◌≢◌, ◌↔◌, ◌⊎◌, ◌+◌, ◌-◌, ◌^◌, ◌<◌, ◌≤◌, ◌++◌, ◌∷◌, [], ℕ, min, length, IsTrue, IfOk, IfSome, IfNone};
ghost use Rattle.std.specs.Vec.{vec_capacity};
ghost use Rattle.std.specs.List.{range_with_len};
ghost use Rattle.server_sync.specs.Keys.{AreApart, AreOfSeats, HasKeyOf, numbers_of};

use std::alloc::{AllocError, Global};

/// The key of a seat: who has it drives the seat. Only `FreeKeys::new` makes keys, one for each seat, and none is copied: so
/// no two threads drive one seat.
#[derive(Debug, Drop)]
pub struct SeatKey {
    number: usize,
}

impl SeatKey {
    /// The number of its seat.
    pub fn number(&self) -> usize
        ensures { result ≡ self.now.number }
    {
        self.number
    }
}

/// The keys of the seats that have no call, each once, and how many threads wait for one.
#[derive(Drop)]
pub struct FreeKeys {
    keys: Vec<SeatKey>,
    // How many seats there are in all.
    count: usize,
    waiting: usize,
    pub ghost once: { AreApart keys.items },
    pub ghost below: { AreOfSeats count keys.items },
    pub ghost has_space: { count ≤ vec_capacity keys },
}

impl FreeKeys {
    /// All of so many seats are free, and no thread waits.
    pub fn new(alloc: Global, count: usize) -> Result<FreeKeys, AllocError>
        ensures keys { IfOk result (λ free_keys. numbers_of free_keys.keys.items ≡ range_with_len 0 count) }
        ensures count { IfOk result (λ free_keys. free_keys.count ≡ count) }
        ensures waiting { IfOk result (λ free_keys. free_keys.waiting ≡ 0) }
    {
        let mut keys = Vec::with_capacity(alloc, count)?;
        for number in 0..count {
            keys.push(SeatKey { number })?;
        }
        Ok(FreeKeys {
            keys,
            count,
            waiting: 0,
        })
    }

    /// Takes a key, where one is there that no thread waits for: the one that was given back last.
    pub fn try_take(&mut self) -> Option<SeatKey>
        ensures taken { IfSome result (λ key. (self.old.waiting ≡ 0)
            × (self.old.keys.items ≡ self.new.keys.items ++ key ∷ [])) }
        ensures none { IfNone result ((self.old.waiting ≢ 0) ⊎ (self.old.keys.items ≡ [])) }
        ensures is_preserved { IfNone result (self.new.keys.items ≡ self.old.keys.items) }
        ensures waiting { self.new.waiting ≡ self.old.waiting }
        ensures count { self.new.count ≡ self.old.count }
    {
        if self.waiting != 0 {
            return None;
        }
        self.keys.pop()
    }

    /// Notes that a thread waits for a key.
    pub fn wait(&mut self)
        ensures waiting { self.new.waiting ≡ min (self.old.waiting + 1) (2 ^ 64 - 1) }
        ensures keys { self.new.keys ≡ self.old.keys }
        ensures count { self.new.count ≡ self.old.count }
    {
        self.waiting = self.waiting.saturating_add(1);
    }

    /// Takes a key for a thread that waits for one, which it does no more, where one is there.
    pub fn take(&mut self) -> Option<SeatKey>
        ensures taken { IfSome result (λ key. (self.old.keys.items ≡ self.new.keys.items ++ key ∷ [])
            × (self.new.waiting ≡ self.old.waiting - 1)) }
        ensures none { IfNone result (self.old.keys.items ≡ []) }
        ensures is_preserved { IfNone result ((self.new.keys.items ≡ self.old.keys.items)
            × (self.new.waiting ≡ self.old.waiting)) }
        ensures count { self.new.count ≡ self.old.count }
    {
        let key = self.keys.pop()?;
        self.waiting = self.waiting.saturating_sub(1);
        Some(key)
    }

    /// Gives a key back. One whose number is past the count of seats is let go.
    pub fn give(&mut self, key: SeatKey)
        ensures given { key.number < self.old.count
            → (HasKeyOf self.old.keys.items key.number → ⊥)
            → self.new.keys.items ≡ self.old.keys.items ++ key ∷ [] }
        ensures is_preserved { (self.old.count ≤ key.number) ⊎ HasKeyOf self.old.keys.items key.number
            → self.new.keys.items ≡ self.old.keys.items }
        ensures waiting { self.new.waiting ≡ self.old.waiting }
        ensures count { self.new.count ≡ self.old.count }
    {
        if key.number < self.count && !self.has(key.number) {
            // There is room for each of them.
            let _ = self.keys.push(key);
        }
    }

    // Whether the key of the seat with this number is there.
    fn has(&self, number: usize) -> bool
        ensures { IsTrue result ↔ HasKeyOf self.now.keys.items number }
    {
        self.keys.as_slice().iter().any(|key| key.number == number)
    }

    /// Whether the key of each seat but one is there.
    pub fn is_one_out(&self) -> bool
        ensures { IsTrue result ↔ (length self.now.keys.items + 1 ≡ self.now.count) }
    {
        self.count > 0 && self.keys.len() == self.count - 1
    }

    /// Whether the key of each seat is there.
    pub fn is_whole(&self) -> bool
        ensures length { IsTrue result ↔ (length self.now.keys.items ≡ self.now.count) }
        ensures all { IsTrue result → (number : ℕ) → number < self.now.count
            → HasKeyOf self.now.keys.items number }
    {
        self.keys.len() == self.count
    }
}
