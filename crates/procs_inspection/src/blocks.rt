//! The blocks of a file, as far as they were read.
ghost use Rattle.std.specs.Prelude.{ℕ, ◌≡◌, ◌<◌, ◌≤◌, ◌⊎◌, length, get_or, true, false, IfNone, IfSome};
ghost use Rattle.std.specs.List.{list_all};
ghost use Rattle.base.specs.declared.TheConstants.{BLOCK_BYTES, INDIRECT_INDEXES, MOST_SPAN};
ghost use Rattle.disk.specs.Crash.{Image};
ghost use Rattle.layout.specs.Decode.{span_of};
ghost use Rattle.layout.specs.Fields.{numbers_at};
ghost use Rattle.layout.specs.InodeForm.{is_data_block_or_none};
ghost use Rattle.inode.specs.Read.{Saw};
ghost use Rattle.procs_inspection.specs.Refused.{AreRead, HasRefusedBlock, HasRefusedPointer, HasRefusedSlot, IsRefusedAt};
ghost use Rattle.procs_inspection.specs.Refused.{IsRefusedBelow, IsRefusedPointer, Names, WasReadBlock};

use base::{BLOCK_BYTES, DIRECT_INDEXES, INDIRECT_INDEXES, MOST_SPAN, SLOTS_PER_BLOCK};
use disk::BlockNo;
use inode::Snap;
use layout::{Geometry, Inode, InodeKind, Numbers, Slot};
use objects::{Addr, Object};

// A data block, if it was read.
fn read_object(snap: &Snap, number: u32) -> Option<&Object>
    ensures len { IfSome result (λ object. object.now.addr.len ≡ BLOCK_BYTES) }
    ensures read { IfSome result (λ object. (blocks : Image) → AreRead snap.now blocks
        → WasReadBlock snap.now blocks number) }
    ensures is { IfSome result (λ object. (blocks : Image) → Saw blocks snap.now
        → WasReadBlock snap.now blocks number → object.now.bytes ≡ blocks number) }
    ensures none { IfNone result ((blocks : Image) → WasReadBlock snap.now blocks number → ⊥) }
{
    if !snap.geometry.is_data(number) {
        return None;
    }
    match snap.get(Addr::whole(BlockNo(number))) {
        Some(object) => Some(object),
        None => None,
    }
}

// The bytes of a data block, if it was read.
fn read_block(snap: &Snap, number: u32) -> Option<&[u8]>
    ensures len { IfSome result (λ bytes. length bytes.now ≡ BLOCK_BYTES) }
    ensures read { IfSome result (λ bytes. (blocks : Image) → AreRead snap.now blocks
        → WasReadBlock snap.now blocks number) }
    ensures is { IfSome result (λ bytes. (blocks : Image) → Saw blocks snap.now
        → WasReadBlock snap.now blocks number → bytes.now ≡ blocks number) }
    ensures none { IfNone result ((blocks : Image) → WasReadBlock snap.now blocks number → ⊥) }
{
    match read_object(snap, number) {
        Some(object) => Some(object.bytes()),
        None => None,
    }
}

// Whether a pointer block names what is no data block.
fn names_others(geometry: &Geometry, block: &Object) -> bool
    requires { block.now.addr.len ≡ BLOCK_BYTES }
    ensures some { result ≡ true
        → list_all (is_data_block_or_none geometry.now) (numbers_at INDIRECT_INDEXES 0 block.now.bytes) ≡ false }
    ensures none { result ≡ false
        → list_all (is_data_block_or_none geometry.now) (numbers_at INDIRECT_INDEXES 0 block.now.bytes) ≡ true }
{
    Numbers::mapped_in(geometry, block).is_err()
}

// Whether the layout refuses a slot of a block.
fn has_refused_slot(inodes: u32, block: &[u8]) -> bool
    requires { length block.now ≡ BLOCK_BYTES }
    ensures some { result ≡ true → HasRefusedSlot inodes block.now }
    ensures none { result ≡ false → HasRefusedSlot inodes block.now → ⊥ }
{
    'slots: for slot in 0..SLOTS_PER_BLOCK {
        if Slot::is_refused(inodes, Slot::bytes_in(block, slot)) {
            return true;
        }
    }
    false
}

// The number of the block at an index of a directory, if what names it was read.
fn named_at(snap: &Snap, inode: &Inode, index: usize) -> Option<u32>
    requires { index < MOST_SPAN }
    ensures some { IfSome result (λ number. (blocks : Image) → AreRead snap.now blocks
        → Names snap.now blocks inode.now index number) }
    ensures one { IfSome result (λ number. (blocks : Image) (other : ℕ) → Saw blocks snap.now
        → Names snap.now blocks inode.now index other → other ≡ number) }
    ensures none { IfNone result ((blocks : Image) (number : ℕ) → Names snap.now blocks inode.now index number → ⊥) }
{
    if index < DIRECT_INDEXES {
        return Some(inode.direct[index]);
    }
    match read_block(snap, inode.indirect) {
        Some(block) => Some(Numbers::at(block, index - DIRECT_INDEXES)),
        None => None,
    }
}

// Whether the layout refuses a slot of a block that was read of a directory.
fn is_refused_at(snap: &Snap, inode: &Inode, index: usize) -> bool
    requires { index < MOST_SPAN }
    ensures some { result ≡ true → (blocks : Image) → AreRead snap.now blocks
        → IsRefusedAt snap.now blocks inode.now index }
    ensures none { result ≡ false → (blocks : Image) → Saw blocks snap.now
        → IsRefusedAt snap.now blocks inode.now index → ⊥ }
{
    match named_at(snap, inode, index) {
        Some(number) => match read_block(snap, number) {
            Some(block) => has_refused_slot(snap.geometry.inodes, block),
            None => false,
        },
        None => false,
    }
}

// The same of all blocks that it spans, from one on.
fn is_refused_directory(snap: &Snap, inode: &Inode, from: usize) -> bool
    ensures some { result ≡ true → (blocks : Image) → AreRead snap.now blocks
        → (index : ℕ) × (index < span_of inode.now) × IsRefusedAt snap.now blocks inode.now index }
    ensures none { result ≡ false → (blocks : Image) (index : ℕ) → Saw blocks snap.now → from ≤ index
        → index < span_of inode.now → IsRefusedAt snap.now blocks inode.now index → ⊥ }
{
    let span = inode.size / BLOCK_BYTES as u64;
    'indexes: for index in from..MOST_SPAN {
        if index as u64 >= span {
            return false;
        }
        if is_refused_at(snap, inode, index) {
            return true;
        }
    }
    false
}

// Whether a pointer block was read, and names what is no data block.
fn is_refused_pointer(snap: &Snap, pointer: u32) -> bool
    ensures some { result ≡ true → (blocks : Image) → AreRead snap.now blocks
        → IsRefusedPointer snap.now blocks pointer }
    ensures none { result ≡ false → (blocks : Image) → Saw blocks snap.now → IsRefusedPointer snap.now blocks pointer → ⊥ }
{
    match read_object(snap, pointer) {
        Some(block) => names_others(&snap.geometry, block),
        None => false,
    }
}

// Whether a block has the number of a pointer block that was read and names what is no data block.
fn names_refused(snap: &Snap, block: &[u8]) -> bool
    requires { length block.now ≡ BLOCK_BYTES }
    ensures some { result ≡ true → (blocks : Image) → AreRead snap.now blocks → (inner : ℕ) × (inner < INDIRECT_INDEXES)
        × IsRefusedPointer snap.now blocks (get_or (numbers_at INDIRECT_INDEXES 0 block.now) inner 0) }
    ensures none { result ≡ false → (blocks : Image) (inner : ℕ) → Saw blocks snap.now → inner < INDIRECT_INDEXES
        → IsRefusedPointer snap.now blocks (get_or (numbers_at INDIRECT_INDEXES 0 block.now) inner 0) → ⊥ }
{
    'inners: for inner in 0..INDIRECT_INDEXES {
        if is_refused_pointer(snap, Numbers::at(block, inner)) {
            return true;
        }
    }
    false
}

// Whether a double indirect block was read, and one of its inner blocks, which names what is no data block.
fn is_refused_below(snap: &Snap, double: u32) -> bool
    ensures some { result ≡ true → (blocks : Image) → AreRead snap.now blocks → IsRefusedBelow snap.now blocks double }
    ensures none { result ≡ false → (blocks : Image) → Saw blocks snap.now → IsRefusedBelow snap.now blocks double → ⊥ }
{
    match read_block(snap, double) {
        Some(block) => names_refused(snap, block),
        None => false,
    }
}

// Whether a double indirect block names what is no data block, or one of its inner blocks does.
fn is_refused_double(snap: &Snap, double: u32) -> bool
    ensures some { result ≡ true → (blocks : Image) → AreRead snap.now blocks
        → IsRefusedPointer snap.now blocks double ⊎ IsRefusedBelow snap.now blocks double }
    ensures none { result ≡ false → (blocks : Image) → Saw blocks snap.now
        → IsRefusedPointer snap.now blocks double ⊎ IsRefusedBelow snap.now blocks double → ⊥ }
{
    if is_refused_pointer(snap, double) {
        return true;
    }
    is_refused_below(snap, double)
}

// Whether a pointer block was read of a file that names what is no data block.
fn is_refused_in_indirect(snap: &Snap, inode: &Inode) -> bool
    ensures some { result ≡ true → (blocks : Image) → AreRead snap.now blocks
        → HasRefusedPointer snap.now blocks inode.now }
    ensures none { result ≡ false → (blocks : Image) → Saw blocks snap.now
        → HasRefusedPointer snap.now blocks inode.now → ⊥ }
{
    if is_refused_pointer(snap, inode.indirect) {
        return true;
    }
    is_refused_double(snap, inode.double)
}

/// Whether the layout refuses a block of a file, as far as its blocks were read. Of so many first ones of a directory
/// it is known that it doesn't.
pub(crate) fn has_refused_block(snap: &Snap, inode: &Inode, valid_blocks: usize) -> bool
    ensures some { result ≡ true → (blocks : Image) → AreRead snap.now blocks
        → HasRefusedBlock snap.now blocks inode.now }
    ensures none { result ≡ false → (blocks : Image) → Saw blocks snap.now
        → ((index : ℕ) → index < valid_blocks → IsRefusedAt snap.now blocks inode.now index → ⊥)
        → HasRefusedBlock snap.now blocks inode.now → ⊥ }
{
    if is_refused_in_indirect(snap, inode) {
        return true;
    }
    match inode.kind {
        InodeKind::Directory => is_refused_directory(snap, inode, valid_blocks),
        InodeKind::Regular | InodeKind::Link => false,
    }
}
