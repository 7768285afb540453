//! Objects of a list, looked for by their addresses.
ghost use Rattle.std.specs.Prelude.{◌≡◌, ◌+◌, ◌-◌, ◌<◌, ℕ, true, false, length, nat_eq, slice_index_or, take};
ghost use Rattle.std.specs.Prelude.{Contains, IfNone, IfOk, IfSome, OnOk};
ghost use Rattle.std.specs.List.{list_any};
ghost use Rattle.objects.specs.Object.{ObjectBytes};
ghost use Rattle.inode.specs.Indexed.{AreKnown, IsIndexed, key_of};
ghost use Rattle.inode.specs.Snap.{is_seen, same_addr};

use crate::index::AddressIndex;
use base::INODE_BYTES;
use objects::{Addr, Object};
use std::alloc::{AllocError, Global};

// With so many objects an index is made: a walk past fewer costs less.
const MANY: usize = 48;
// An index is made with so many buckets for each object that it has. It is made again once there are more objects than
// buckets, so an object is moved a bounded number of times however many come.
const BUCKETS_EACH: usize = 4;

/// Whether two addresses are one.
pub(crate) fn same_addr(a: Addr, b: Addr) -> bool
    ensures { result ≡ same_addr a b }
{
    a.block.0 == b.block.0 && a.offset == b.offset && a.len == b.len
}

// The key of an address.
fn key_of(addr: Addr) -> usize
    ensures { result ≡ key_of addr }
{
    addr.block.0 as usize * 33 + addr.offset / INODE_BYTES
}

/// The object of an address, if it is among these, by a walk past them.
pub(crate) fn walk(objects: &[Object], addr: Addr) -> Option<&Object>
    ensures some { IfSome result (λ o. same_addr addr o.now.addr ≡ true) }
    ensures there { IfSome result (λ o. Contains objects.now o.now) }
    ensures none { IfNone result (is_seen addr objects.now ≡ false) }
{
    for object in objects {
        if same_addr(addr, object.addr()) {
            return Some(object);
        }
    }
    None
}

// The object at a position, if it has the address.
fn at_position(objects: &[Object], position: usize, addr: Addr) -> Option<&Object>
    ensures some { IfSome result (λ o. same_addr addr o.now.addr ≡ true) }
    ensures there { IfSome result (λ o. Contains objects.now o.now) }
    ensures none { IfNone result (position < length objects.now
        → (d : ObjectBytes) → same_addr addr (slice_index_or objects.now position d).addr ≡ false) }
{
    if position >= objects.len() {
        return None;
    }
    let object = &objects[position];
    if same_addr(addr, object.addr()) {
        Some(object)
    } else {
        None
    }
}

// The object of an address, if it stands at one of these positions.
fn find_object<'a>(objects: &'a [Object], positions: &[usize], addr: Addr) -> Option<&'a Object>
    ensures some { IfSome result (λ o. same_addr addr o.now.addr ≡ true) }
    ensures there { IfSome result (λ o. Contains objects.now o.now) }
    ensures none { IfNone result ((at : ℕ) → list_any (nat_eq at) positions.now ≡ true → at < length objects.now
        → (d : ObjectBytes) → same_addr addr (slice_index_or objects.now at d).addr ≡ false) }
{
    for position in positions {
        match at_position(objects, *position, addr) {
            Some(object) => return Some(object),
            None => {}
        }
    }
    None
}

/// The object of an address, if it is among these, by their index.
pub(crate) fn find<'a>(
    index: &AddressIndex,
    objects: &'a [Object],
    addr: Addr,
) -> Option<&'a Object>
    requires { AreKnown index.now objects.now }
    ensures some { IfSome result (λ o. same_addr addr o.now.addr ≡ true) }
    ensures there { IfSome result (λ o. Contains objects.now o.now) }
    ensures none { IfNone result (is_seen addr objects.now ≡ false) }
{
    match find_object(objects, index.under(key_of(addr)), addr) {
        Some(object) => Some(object),
        None => None,
    }
}

// Notes the position of an object, behind those of the objects before it.
fn track(index: &mut AddressIndex, objects: &[Object], at: usize) -> Result<(), AllocError>
    requires { at < length objects.now }
    ensures { OnOk result (AreKnown index.old (take at objects.now)
        → AreKnown index.new (take (at + 1) objects.now)) }
{
    let key = key_of(objects[at].addr());
    index.track(key, at)
}

// An index of these objects.
fn index_of(alloc: Global, objects: &[Object]) -> Result<AddressIndex, AllocError>
    ensures { IfOk result (λ index. AreKnown index objects.now) }
{
    let buckets = objects.len().saturating_mul(BUCKETS_EACH).max(1);
    let mut index = AddressIndex::new(alloc, buckets)?;
    'positions: for at in 0..objects.len() {
        track(&mut index, objects, at)?;
    }
    Ok(index)
}

/// The index of these objects, once there are many. There is none where it finds no memory.
pub(crate) fn indexed(alloc: Global, objects: &[Object]) -> Option<AddressIndex>
    ensures { IsIndexed result objects.now }
{
    if objects.len() < MANY {
        return None;
    }
    match index_of(alloc, objects) {
        Ok(index) => Some(index),
        Err(_) => None,
    }
}

// The index with the position of the last of these objects, which is new.
fn with_position(index: AddressIndex, objects: &[Object]) -> Option<AddressIndex>
    requires some { 0 < length objects.now }
    requires known { AreKnown index (take (length objects.now - 1) objects.now) }
    ensures { IsIndexed result objects.now }
{
    let mut index = index;
    match track(&mut index, objects, objects.len() - 1) {
        Ok(()) => Some(index),
        Err(_) => None,
    }
}

/// The index of these objects, of which the last one is new: once there are many. It is made again with more buckets
/// once they are crowded, where there is memory for that. There is none where it finds no memory.
pub(crate) fn with_last(
    alloc: Global,
    index: Option<AddressIndex>,
    objects: &[Object],
) -> Option<AddressIndex>
    requires some { 0 < length objects.now }
    requires known { IsIndexed index (take (length objects.now - 1) objects.now) }
    ensures { IsIndexed result objects.now }
{
    match index {
        Some(index) => {
            if index.is_crowded(objects.len()) {
                match index_of(alloc, objects) {
                    Ok(wider) => return Some(wider),
                    Err(_) => {}
                }
            }
            with_position(index, objects)
        }
        None => {
            if objects.len() != MANY {
                return None;
            }
            indexed(alloc, objects)
        }
    }
}
