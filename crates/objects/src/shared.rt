//! Bytes that are shared.
ghost use Rattle.std.specs.Prelude.{◌≡◌, ◌+◌, ◌≤◌, IfOk, IfSome, length, take, drop};
ghost use Rattle.base.specs.declared.TheConstants.{BLOCK_BYTES};
ghost use Rattle.objects.specs.Counted.{IsCountedIn};
ghost use Rattle.objects.specs.Spliced.{extracted};

use crate::{Addr, Counted};
use base::{BLOCK_BYTES, SharedOctets};
use disk::SharedBlock;
use std::alloc::AllocError;
use std::marker::Model;

/// Bytes that nobody changes any more, and of a whole block maybe what its numbers count to. A clone copies none of them.
#[derive(Drop)]
pub struct SharedBytes {
    octets: SharedOctets,
    counted: Option<Counted>,
}

impl Model for SharedBytes {
    ghost use Rattle.std.specs.Prelude.{ℕ, List, IfSome};
    ghost use Rattle.objects.specs.Counted.{IsCountedIn};

    ghost Value = { List ℕ };

    ghost view = { λ shared. shared.octets };

    ghost invariant = { λ shared. IfSome shared.counted (IsCountedIn shared.octets) };
}

impl SharedBytes {
    /// Shares these bytes.
    pub fn new(bytes: Vec<u8>) -> Result<SharedBytes, AllocError>
        ensures { IfOk result (λ shared. shared ≡ bytes.items) }
    {
        Ok(SharedBytes::of_octets(SharedOctets::new(bytes)?))
    }

    /// Bytes that are shared already.
    pub fn of_octets(octets: SharedOctets) -> SharedBytes
        ensures { result ≡ octets }
    {
        SharedBytes {
            octets,
            counted: None,
        }
    }

    /// The bytes at an address of a shared block. None of them is copied.
    pub fn of_block(block: &SharedBlock, addr: Addr) -> Result<SharedBytes, AllocError>
        ensures bytes { IfOk result (λ bytes. bytes ≡ extracted block.now addr.offset addr.len) }
        ensures len { IfOk result (λ bytes. length bytes ≡ addr.len) }
    {
        let octets = SharedOctets::of_block(block, addr.offset, addr.len)?;
        Ok(SharedBytes::of_octets(octets))
    }

    /// The bytes of a whole block.
    pub fn of_whole(block: &SharedBlock) -> Result<SharedBytes, AllocError>
        ensures bytes { IfOk result (λ bytes. bytes ≡ block.now) }
        ensures len { IfOk result (λ bytes. length bytes ≡ BLOCK_BYTES) }
    {
        let _ = block.as_slice();
        let octets = SharedOctets::of_block(block, 0, BLOCK_BYTES)?;
        Ok(SharedBytes::of_octets(octets))
    }

    /// The same bytes with what they count to.
    pub(crate) fn with_count(self, counted: Counted) -> SharedBytes
        requires { IsCountedIn self counted }
        ensures { result ≡ self }
    {
        SharedBytes {
            octets: self.octets,
            counted: Some(counted),
        }
    }

    /// The shared block that the bytes are all of, if they are.
    pub fn whole(&self) -> Option<&SharedBlock>
        ensures { IfSome result (λ block. block.now ≡ self.now) }
    {
        self.octets.whole()
    }

    /// So many of the bytes, from one on. None of them is copied.
    pub fn part(&self, from: usize, len: usize) -> Result<SharedOctets, AllocError>
        requires { from + len ≤ length self.now }
        ensures { IfOk result (λ part. part ≡ take len (drop from self.now)) }
    {
        self.octets.part(from, len)
    }

    /// The bytes.
    pub fn as_slice(&self) -> &[u8]
        ensures { result.now ≡ self.now }
    {
        self.octets.as_slice()
    }

    /// What the numbers of a whole block count to. It is counted here where it wasn't known.
    pub fn counted(&self) -> Counted
        requires { length self.now ≡ BLOCK_BYTES }
        ensures { IsCountedIn self.now result }
    {
        match self.counted {
            Some(counted) => counted,
            None => Counted::of(self.as_slice()),
        }
    }
}

impl Clone for SharedBytes {
    ghost is_clone = { λ shared copy. copy ≡ shared };

    fn clone(&self) -> Result<SharedBytes, AllocError> {
        Ok(SharedBytes {
            octets: self.octets.clone()?,
            counted: self.counted,
        })
    }
}
