//! What is to be written, over what was read.
ghost use Rattle.std.specs.Prelude.{[], ◌≡◌, ◌+◌, ◌<◌, ◌≤◌, ℕ, true, false, length, cond, nat_eq, filter, All};
ghost use Rattle.std.specs.Prelude.{vec_len, vec_capacity, IfErr, IfOk, OnOk};
ghost use Rattle.base.specs.declared.TheConstants.{BLOCK_BYTES, CHANGED_BLOCKS};
ghost use Rattle.disk.specs.Crash.{Image};
ghost use Rattle.nfs_spec.specs.Model.Tree.{Tree};
ghost use Rattle.layout.specs.declared.grid.TheConstants.{PIECE_BYTES};
ghost use Rattle.layout.specs.Holds.{Holds};
ghost use Rattle.layout.specs.Objects.{IsObject};
ghost use Rattle.layout.specs.Parts.{with_bytes};
ghost use Rattle.inode.specs.declared.suspend.Suspend.{Suspend};
ghost use Rattle.inode.specs.Over.{IsResumable, MaySuspend};
ghost use Rattle.inode.specs.Read.{Saw};
ghost use Rattle.inode.specs.Snap.{MayWrite, is_had};
ghost use Rattle.txn_law.specs.Group.{blocks_of};
ghost use Rattle.objects.specs.Object.{ObjectBytes};
ghost use Rattle.inode.specs.WriteSets.WriteSetContents.{IsWriteSet, MOST_DIRTY, Shows, fresh, image_of, dirty_count};
ghost use Rattle.layout_records.specs.OnGrid.{is_on_grid};
ghost use Rattle.inode.specs.WriteSets.Upserted.{upserted};
ghost use Rattle.objects.specs.declared.mode.Mode.TheVariants as modes;

use crate::lookup::indexed;
use crate::{Snap, Suspend};
use base::BLOCK_BYTES;
use layout::Geometry;
use layout_records::is_on_grid;
use objects::{Addr, Mode, Object, SharedBytes};
use std::alloc::{AllocError, Global};
use std::marker::Model;

/// What was read for a call, what lies there now, and what was written, later objects over earlier ones.
#[derive(Drop)]
pub struct WriteSet<'a> {
    seen: &'a Snap,
    there: Snap,
    written: Vec<Object>,
}

impl<'a> Model for WriteSet<'a> {
    ghost use Rattle.inode.specs.WriteSets.WriteSetContents.{WriteSetContents, IsValidWriteSet};

    ghost Value = { WriteSetContents };

    ghost view = { λ d. record { seen = d.seen.now; there = d.there; written = d.written.items } };

    ghost invariant = { λ d. IsValidWriteSet (record { seen = d.seen.now; there = d.there; written = d.written.items }) };
}

impl<'a> WriteSet<'a> {
    /// Nothing is written yet.
    pub fn begin(alloc: Global, seen: &'a Snap) -> Result<WriteSet<'a>, AllocError>
        ensures seen { IfOk result (λ write_set. write_set.seen ≡ seen.now) }
        ensures written { IfOk result (λ write_set. write_set.written ≡ []) }
        ensures geometry { IfOk result (λ write_set. write_set.there.geometry ≡ seen.now.geometry) }
        ensures is { IfOk result (λ write_set. (blocks : Image) (tree : Tree)
            → Holds seen.now.geometry blocks tree → Saw blocks seen.now → IsWriteSet write_set blocks tree) }
    {
        let objects = on_grid(&seen.geometry, &seen.objects)?;
        let exclusives = seen.exclusives.clone()?;
        let claims = seen.claims.clone()?;
        let index = indexed(alloc, &objects);
        let there = Snap {
            geometry: seen.geometry,
            asks: seen.asks,
            objects,
            exclusives,
            claims,
            from: seen.from,
            index,
        };
        Ok(WriteSet {
            seen,
            there,
            written: Vec::new(alloc),
        })
    }

    /// What lies there now. A reading of it stops for nothing that was read.
    pub fn there(&self) -> &Snap
        ensures there { result.now ≡ self.now.there }
        ensures stops { (suspend : Suspend) → MaySuspend result.now suspend → MaySuspend self.now.seen suspend }
    {
        &self.there
    }

    /// Writes an object of the image. One that was neither asked for alone nor claimed as a whole block is asked for
    /// alone.
    pub fn put(&mut self, addr: Addr, bytes: Vec<u8>) -> Result<(), Suspend>
        requires len { length bytes.items ≡ addr.len }
        requires object { IsObject self.old.there.geometry addr }
        ensures shows { OnOk result ((image : Image) → Shows self.old image
            → Shows self.new (with_bytes image addr.block.0 addr.offset bytes.items)) }
        ensures image { OnOk result ((blocks : Image) → image_of blocks self.new
            ≡ with_bytes (image_of blocks self.old) addr.block.0 addr.offset bytes.items) }
        ensures seen { self.new.seen ≡ self.old.seen }
        ensures geometry { self.new.there.geometry ≡ self.old.there.geometry }
        ensures dirty_count { dirty_count self.new ≤ dirty_count self.old + cond (nat_eq addr.len PIECE_BYTES) 0 1 }
        // An object counts once, however often it is put, and what was written stays written.
        ensures once { dirty_count self.new + fresh addr.block.0 addr.offset addr.len self.new
            ≤ dirty_count self.old + fresh addr.block.0 addr.offset addr.len self.old }
        ensures stays { (block offset len : ℕ) → fresh block offset len self.new ≤ fresh block offset len self.old }
        ensures err { IfErr result (λ suspend. MaySuspend self.old.seen suspend) }
        ensures resumable { IfErr result (λ suspend. IsResumable suspend) }
    {
        self.put_shared(addr, SharedBytes::new(bytes)?)
    }

    /// The same of bytes that are shared.
    pub fn put_shared(&mut self, addr: Addr, bytes: SharedBytes) -> Result<(), Suspend>
        requires len { length bytes ≡ addr.len }
        requires object { IsObject self.old.there.geometry addr }
        ensures shows { OnOk result ((image : Image) → Shows self.old image
            → Shows self.new (with_bytes image addr.block.0 addr.offset bytes)) }
        ensures image { OnOk result ((blocks : Image) → image_of blocks self.new
            ≡ with_bytes (image_of blocks self.old) addr.block.0 addr.offset bytes) }
        ensures seen { self.new.seen ≡ self.old.seen }
        ensures geometry { self.new.there.geometry ≡ self.old.there.geometry }
        ensures dirty_count { dirty_count self.new ≤ dirty_count self.old + cond (nat_eq addr.len PIECE_BYTES) 0 1 }
        ensures once { dirty_count self.new + fresh addr.block.0 addr.offset addr.len self.new
            ≤ dirty_count self.old + fresh addr.block.0 addr.offset addr.len self.old }
        ensures stays { (block offset len : ℕ) → fresh block offset len self.new ≤ fresh block offset len self.old }
        ensures err { IfErr result (λ suspend. MaySuspend self.old.seen suspend) }
        ensures resumable { IfErr result (λ suspend. IsResumable suspend) }
    {
        if !is_given(self.seen, addr) {
            return Err(Suspend::Need(addr, Mode::Exclusive));
        }
        let object = Object::new(addr, bytes);
        let copy = object.clone()?;
        reserve_next(&mut self.there)?;
        match self.written.push(object) {
            Ok(()) => {}
            Err(failed) => return Err(Suspend::NoMemory(AllocError::from(failed))),
        }
        upsert_there(&mut self.there, copy);
        Ok(())
    }

    /// What is written, in its order.
    pub fn into_written(self) -> Vec<Object>
        ensures written { result.items ≡ self.entry.written }
        ensures geometry { self.entry.there.geometry ≡ self.entry.seen.geometry }
        ensures given { All (λ (object : ObjectBytes). MayWrite self.entry.seen object.addr) result.items }
        ensures few { dirty_count self.entry ≤ MOST_DIRTY → length (blocks_of result.items) ≤ CHANGED_BLOCKS }
    {
        self.written
    }
}

// Those of the objects that are the image's.
fn on_grid(geometry: &Geometry, objects: &Vec<Object>) -> Result<Vec<Object>, AllocError>
    ensures { IfOk result (λ kept. kept.items
        ≡ filter (λ (object : ObjectBytes). is_on_grid geometry.now object.addr) objects.now.items) }
{
    let mut kept = objects.clone()?;
    let grid = *geometry;
    kept.retain(|object| is_on_grid(&grid, object.addr()));
    Ok(kept)
}

// Whether an object was read, and asked for alone, or is a whole block that was claimed.
fn is_given(snap: &Snap, addr: Addr) -> bool
    ensures given { result ≡ true → MayWrite snap.now addr }
    ensures none { result ≡ false
        → is_had addr modes.Exclusive snap.now.objects.items snap.now.exclusives.items ≡ false }
{
    snap.has_exclusive(addr)
        || addr.offset == 0 && addr.len == BLOCK_BYTES && snap.has_claim(addr.block)
}

// Makes room for one more object.
fn reserve_next(there: &mut Snap) -> Result<(), AllocError>
    ensures has_space { OnOk result (vec_len there.new.objects < vec_capacity there.new.objects) }
    ensures objects { there.new.objects.items ≡ there.old.objects.items }
    ensures geometry { there.new.geometry ≡ there.old.geometry }
    ensures exclusives { there.new.exclusives.items ≡ there.old.exclusives.items }
    ensures claims { there.new.claims.items ≡ there.old.claims.items }
{
    there.objects.reserve(1)
}

// Lays an object among those that lie there, for which there is room.
fn upsert_there(there: &mut Snap, object: Object)
    requires { vec_len there.old.objects < vec_capacity there.old.objects }
    ensures objects { there.new.objects.items ≡ upserted there.old.objects.items object }
    ensures geometry { there.new.geometry ≡ there.old.geometry }
    ensures exclusives { there.new.exclusives.items ≡ there.old.exclusives.items }
    ensures claims { there.new.claims.items ≡ there.old.claims.items }
{
    drop(there.index.take());
    upsert(&mut there.objects, object);
}

// Lays an object in the place of what lay at its address, for which there is room.
fn upsert(objects: &mut Vec<Object>, object: Object)
    requires { vec_len objects.old < vec_capacity objects.old }
    ensures { objects.new.items ≡ upserted objects.old.items object }
{
    let addr = object.addr();
    objects.retain(|other| other.addr() != addr);
    match objects.push(object) {
        Ok(()) => {}
        Err(_) => unreachable!(),
    }
}
