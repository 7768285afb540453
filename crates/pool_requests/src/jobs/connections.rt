//! The connections that are open.
ghost use Rattle.std.specs.Prelude.{◌≡◌, ◌+◌, ◌<◌, ◌^◌, None, Some, IfErr, IfNone, IfOk, IfSome, OnErr, option_copied};
ghost use Rattle.pool_requests.specs.Jobs.Bearing.{IsOpenAt, key_next, number_next};
ghost use Rattle.slab.specs.Slab.{SameValues, Updates, get, slab_len};

use slab::Slab;
use std::alloc::{AllocFailed, Global};

/// A connection: its number, in the order in which connections were accepted, and its peer.
#[derive(Drop)]
pub struct Bearer<T> {
    pub number: u64,
    pub peer: T,
}

/// The key and the number of a connection that was accepted. Only `accept` makes one, and it can't be copied: so who has
/// it is the one that reads this connection.
#[derive(Drop)]
pub struct ConnectionKey {
    pub(crate) key: usize,
    pub(crate) number: u64,
}

impl ConnectionKey {
    /// The key and the number.
    pub fn parts(&self) -> (usize, u64)
        ensures { result ≡ (self.now.key, self.now.number) }
    {
        (self.key, self.number)
    }
}

/// The connections that are open, by keys. A key may be had again, a number never is.
#[derive(Drop)]
pub struct Connections<T> {
    pub(crate) open: Slab<Bearer<T>>,
    pub(crate) accepted: u64,
}

impl<T> Connections<T> {
    /// No connection.
    pub fn new(alloc: Global) -> Connections<T>
        ensures { result.accepted ≡ 0 }
    {
        Connections {
            open: Slab::new(alloc),
            accepted: 0,
        }
    }

    /// How many are open.
    pub fn count(&self) -> usize
        ensures { result ≡ slab_len self.now.open }
    {
        self.open.len()
    }

    /// The key and the number that the next connection bears.
    pub fn next(&self) -> (usize, u64)
        ensures { result ≡ (key_next self.now.open, number_next self.now.accepted) }
    {
        (self.open.vacant_key(), self.accepted.saturating_add(1))
    }

    /// Puts one in, which bears the next number, and changes no other. The last number is had for all that come once
    /// 2^64 - 1 were accepted. Where memory is refused the peer comes back, and nothing changes.
    pub fn accept(&mut self, peer: T) -> Result<ConnectionKey, AllocFailed<Bearer<T>>>
        ensures was_free { IfOk result (λ at. get self.old.open at.key ≡ None) }
        ensures put { IfOk result (λ at. Updates self.old.open self.new.open at.key
            (Some (record { number = at.number; peer = peer }))) }
        ensures key { IfOk result (λ at. at.key ≡ key_next self.old.open) }
        ensures number { IfOk result (λ at. at.number ≡ number_next self.old.accepted) }
        ensures next { IfOk result (λ at. self.old.accepted + 1 < 2 ^ 64
            → (at.number ≡ self.old.accepted + 1) × (self.new.accepted ≡ at.number)) }
        ensures refused { IfErr result (λ failed. failed.value.peer ≡ peer) }
        ensures same { OnErr result (SameValues self.old.open self.new.open × (self.new.accepted ≡ self.old.accepted)) }
    {
        let (_, number) = self.next();
        let key = self.open.insert(Bearer { number, peer })?;
        self.accepted = number;
        Ok(ConnectionKey { key, number })
    }

    /// Each connection's key is below this.
    pub fn keys(&self) -> usize
        ensures { result ≡ self.now.open.capacity }
    {
        self.open.capacity()
    }

    /// The connection of this key, with its number.
    pub fn at(&self, key: usize) -> Option<&Bearer<T>>
        ensures { option_copied result ≡ get self.now.open key }
    {
        self.open.get(key)
    }

    /// The connection that bears both the key and the number, else None.
    pub fn find(&self, key: usize, number: u64) -> Option<&T>
        ensures found { IfSome result (λ peer. IsOpenAt self.now.open key number peer.now) }
        ensures none { IfNone result ((peer : _) → IsOpenAt self.now.open key number peer → ⊥) }
    {
        match self.open.get(key) {
            Some(bearer) if bearer.number == number => Some(&bearer.peer),
            _ => None,
        }
    }

    /// Takes out the connection that bears both the key and the number, if there is one, and no other.
    pub fn close(&mut self, key: usize, number: u64) -> Option<T>
        ensures found { IfSome result (λ peer. IsOpenAt self.old.open key number peer) }
        ensures taken { IfSome result (λ _. Updates self.old.open self.new.open key None) }
        ensures none { IfNone result ((peer : _) → IsOpenAt self.old.open key number peer → ⊥) }
        ensures same { IfNone result (self.new ≡ self.old) }
        ensures numbers { self.new.accepted ≡ self.old.accepted }
    {
        if self.find(key, number).is_none() {
            return None;
        }
        let bearer = self.open.try_remove(key)?;
        Some(bearer.peer)
    }
}
