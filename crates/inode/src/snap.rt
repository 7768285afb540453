//! What has been read for a call so far.
ghost use Rattle.std.specs.Prelude.{◌≡◌, ◌<◌, vec_len, vec_capacity, OnOk};
ghost use Rattle.layout.specs.declared.version.FormatVersion.TheVariants.{Second};
ghost use Rattle.inode.specs.Indexed.{IsIndexed};

use crate::exclusives::{is_among, track};
use crate::index::AddressIndex;
use crate::lookup::{find, walk, with_last};
use disk::BlockNo;
use layout::Geometry;
use objects::{Addr, Mode, Object, SharedBytes};
use std::alloc::{AllocError, Global};

// As many objects as most calls read.
const MOSTLY_READ: usize = 8;

/// The geometry of the image, which has the newest version once it is open, the mode in which a reading asks for what wasn't
/// read yet, the objects that were read so far in their order, the addresses of those that were asked for alone, and the blocks
/// that were claimed. Free blocks are looked for from a piece of their bitmap on: any does. Where there is an index it tells
/// where each object stands.
#[derive(Drop)]
pub struct Snap {
    pub geometry: Geometry,
    pub asks: Mode,
    pub objects: Vec<Object>,
    pub exclusives: Vec<Addr>,
    pub claims: Vec<BlockNo>,
    pub from: u32,
    pub index: Option<AddressIndex>,
    pub ghost indexed: { IsIndexed index objects.items },
    pub ghost newest: { geometry.version ≡ Second },
}

impl Snap {
    ghost use Rattle.std.specs.Prelude.{◌≡◌, ◌<◌, false, true, ◌∷◌, [], ◌++◌, length, vec_len, vec_capacity};
    ghost use Rattle.std.specs.Prelude.{Contains, IfSome, IfNone, OnOk};
    ghost use Rattle.objects.specs.declared.mode.Mode.TheVariants as modes;
    ghost use Rattle.inode.specs.Snap.{HasReserved, is_claimed, is_had, is_seen, same_addr, with_mode, with_read};

    /// Nothing was read yet. What is read is asked for in this mode.
    pub fn new(alloc: Global, geometry: Geometry, from: u32, asks: Mode) -> Snap
        requires { geometry.version ≡ Second }
        ensures geometry { result.geometry ≡ geometry }
        ensures from { result.from ≡ from }
        ensures asks { result.asks ≡ asks }
        ensures objects { result.objects.items ≡ [] }
        ensures exclusives { result.exclusives.items ≡ [] }
        ensures claims { result.claims.items ≡ [] }
    {
        Snap {
            geometry,
            asks,
            objects: Vec::new(alloc),
            exclusives: Vec::new(alloc),
            claims: Vec::new(alloc),
            from,
            index: None,
        }
    }

    /// Makes room for one more object and one more claim.
    pub fn reserve_next(&mut self) -> Result<(), AllocError>
        ensures has_space { OnOk result (HasReserved self.new) }
        ensures geometry { self.new.geometry ≡ self.old.geometry }
        ensures asks { self.new.asks ≡ self.old.asks }
        ensures objects { self.new.objects.items ≡ self.old.objects.items }
        ensures exclusives { self.new.exclusives.items ≡ self.old.exclusives.items }
        ensures claims { self.new.claims.items ≡ self.old.claims.items }
        ensures from { self.new.from ≡ self.old.from }
    {
        reserve_one(&mut self.objects)?;
        reserve_one(&mut self.exclusives)?;
        reserve_one(&mut self.claims)
    }

    /// Adds an object that was read in a mode, for which there is room. One that was read before is had in this mode, too.
    pub fn add(&mut self, addr: Addr, mode: Mode, bytes: SharedBytes)
        requires len { length bytes ≡ addr.len }
        requires has_space { HasReserved self.old }
        ensures objects { self.new.objects.items ≡ with_read addr bytes self.old.objects.items }
        ensures exclusives { self.new.exclusives.items ≡ with_mode addr mode self.old.exclusives.items }
        ensures geometry { self.new.geometry ≡ self.old.geometry }
        ensures asks { self.new.asks ≡ self.old.asks }
        ensures claims { self.new.claims.items ≡ self.old.claims.items }
        ensures from { self.new.from ≡ self.old.from }
    {
        track(&mut self.exclusives, addr, mode);
        if self.has_read(addr) {
            return;
        }
        self.push(addr, bytes);
    }

    // Adds an object that wasn't read before.
    fn push(&mut self, addr: Addr, bytes: SharedBytes)
        requires len { length bytes ≡ addr.len }
        requires has_space { vec_len self.old.objects < vec_capacity self.old.objects }
        ensures objects { self.new.objects.items ≡ self.old.objects.items
            ++ record { addr = addr; bytes = bytes } ∷ [] }
        ensures exclusives { self.new.exclusives ≡ self.old.exclusives }
        ensures geometry { self.new.geometry ≡ self.old.geometry }
        ensures asks { self.new.asks ≡ self.old.asks }
        ensures claims { self.new.claims ≡ self.old.claims }
        ensures from { self.new.from ≡ self.old.from }
    {
        let index = self.index.take();
        match self.objects.push(Object::new(addr, bytes)) {
            Ok(()) => {}
            Err(_) => unreachable!(),
        }
        let alloc = *self.objects.allocator();
        self.index = with_last(alloc, index, &self.objects);
    }

    /// Notes that a block was claimed, for which there is room.
    pub fn claimed(&mut self, block: BlockNo)
        requires { HasReserved self.old }
        ensures claims { self.new.claims.items ≡ self.old.claims.items ++ block ∷ [] }
        ensures geometry { self.new.geometry ≡ self.old.geometry }
        ensures asks { self.new.asks ≡ self.old.asks }
        ensures objects { self.new.objects.items ≡ self.old.objects.items }
        ensures exclusives { self.new.exclusives.items ≡ self.old.exclusives.items }
        ensures from { self.new.from ≡ self.old.from }
    {
        match self.claims.push(block) {
            Ok(()) => {}
            Err(_) => unreachable!(),
        }
    }

    /// Whether a block was claimed.
    pub fn has_claim(&self, block: BlockNo) -> bool
        ensures { result ≡ is_claimed block self.now.claims.items }
    {
        self.claims.iter().any(|claim| block.0 == claim.0)
    }

    // Whether an object of this address was read.
    fn has_read(&self, addr: Addr) -> bool
        ensures { result ≡ is_seen addr self.now.objects.items }
    {
        match self.get(addr) {
            Some(_) => true,
            None => false,
        }
    }

    /// Whether an object of this address was read, and was asked for alone.
    pub fn has_exclusive(&self, addr: Addr) -> bool
        ensures { result ≡ is_had addr modes.Exclusive self.now.objects.items self.now.exclusives.items }
    {
        self.has_read(addr) && is_among(addr, &self.exclusives)
    }

    /// The object of an address, if it was read.
    pub fn get(&self, addr: Addr) -> Option<&Object>
        ensures some { IfSome result (λ o. same_addr addr o.now.addr ≡ true) }
        ensures there { IfSome result (λ o. Contains self.now.objects.items o.now) }
        ensures none { IfNone result (is_seen addr self.now.objects.items ≡ false) }
    {
        match &self.index {
            Some(index) => find(index, &self.objects, addr),
            None => walk(&self.objects, addr),
        }
    }
}

// Makes room for one more: where there is none, for as many at once as most calls read.
fn reserve_one<T>(list: &mut Vec<T>) -> Result<(), AllocError>
    ensures has_space { OnOk result (vec_len list.new < vec_capacity list.new) }
    ensures items { list.new.items ≡ list.old.items }
{
    if list.len() < list.capacity() {
        return Ok(());
    }
    list.reserve(MOSTLY_READ)
}
