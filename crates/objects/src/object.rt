//! Objects: parts of blocks with their bytes.
ghost use Rattle.std.specs.Prelude.{◌≡◌, ◌+◌, ◌≤◌, IfOk, IfSome, length, take, drop};
ghost use Rattle.base.specs.declared.TheConstants.{BLOCK_BYTES};
ghost use Rattle.objects.specs.Counted.{IsCountedIn};
ghost use Rattle.objects.specs.declared.addr.Addr.{Addr as Address};

use crate::{Addr, Counted, SharedBytes};
use base::SharedOctets;
use disk::SharedBlock;
use std::alloc::AllocError;
use std::marker::Model;

/// An address and the bytes that lie there, or that are to lie there.
#[derive(Drop)]
pub struct Object {
    addr: Addr,
    bytes: SharedBytes,
}

impl Model for Object {
    ghost use Rattle.std.specs.Prelude.{◌≡◌, length};
    ghost use Rattle.objects.specs.Object.{ObjectBytes};

    ghost Value = { ObjectBytes };

    ghost view = { λ o. record { addr = o.addr; bytes = o.bytes } };

    ghost invariant = { λ o. length o.bytes ≡ o.addr.len };
}

impl Object {
    /// The bytes at an address, one for each that it names.
    pub fn new(addr: Addr, bytes: SharedBytes) -> Object
        requires { length bytes ≡ addr.len }
        ensures addr { result.addr ≡ addr }
        ensures bytes { result.bytes ≡ bytes }
    {
        Object { addr, bytes }
    }

    /// Where the object lies.
    pub fn addr(&self) -> Addr
        ensures { result ≡ self.now.addr }
    {
        self.addr
    }

    /// Its bytes.
    pub fn bytes(&self) -> &[u8]
        ensures bytes { result.now ≡ self.now.bytes }
        ensures len { length result.now ≡ self.now.addr.len }
    {
        self.bytes.as_slice()
    }

    /// The shared block that its bytes are all of, if they are.
    pub fn whole(&self) -> Option<&SharedBlock>
        ensures { IfSome result (λ block. block.now ≡ self.now.bytes) }
    {
        self.bytes.whole()
    }

    /// So many of its bytes, from one on. None of them is copied.
    pub fn part(&self, from: usize, len: usize) -> Result<SharedOctets, AllocError>
        requires { from + len ≤ self.now.addr.len }
        ensures { IfOk result (λ part. part ≡ take len (drop from self.now.bytes)) }
    {
        self.bytes.part(from, len)
    }

    /// What the numbers of a whole block count to.
    pub fn counted(&self) -> Counted
        requires { self.now.addr.len ≡ BLOCK_BYTES }
        ensures { IsCountedIn self.now.bytes result }
    {
        self.bytes.counted()
    }
}

impl Clone for Object {
    ghost is_clone = { λ object copy. copy ≡ object };

    fn clone(&self) -> Result<Object, AllocError> {
        Ok(Object {
            addr: self.addr,
            bytes: self.bytes.clone()?,
        })
    }
}
