//! Blocks in which a slot or a number is another.
ghost use Rattle.std.specs.Prelude.{◌≡◌, ◌+◌, ◌<◌, ◌≤◌, length, IfOk};
ghost use Rattle.base.specs.declared.TheConstants.{BLOCK_BYTES, INDIRECT_INDEXES, NAME_BYTES, SLOTS_PER_BLOCK};
ghost use Rattle.objects.specs.Spliced.{spliced};
ghost use Rattle.layout.specs.NumbersForm.{with_number};
ghost use Rattle.layout.specs.declared.slot.TheConstants.{SLOT_BYTES};
ghost use Rattle.layout.specs.SlotForm.{first_slot, with_slot};

use base::BLOCK_BYTES;
use layout::{NUMBER_BYTES, SLOT_BYTES, Slot};
use std::alloc::{AllocError, Global};

/// These bytes with others in the place of those from an offset on.
pub fn with_piece(
    alloc: Global,
    bytes: &[u8],
    from: usize,
    piece: &[u8],
) -> Result<Vec<u8>, AllocError>
    requires { from + length piece.now ≤ length bytes.now }
    ensures { IfOk result (λ new. new.items ≡ spliced bytes.now from piece.now) }
{
    let mut new = Vec::with_capacity(alloc, bytes.len())?;
    new.extend_from_slice(&bytes[..from])?;
    new.extend_from_slice(piece)?;
    new.extend_from_slice(&bytes[from + piece.len()..])?;
    Ok(new)
}

/// An indirect block with another number at an index.
pub fn with_number(
    alloc: Global,
    block: &[u8],
    index: usize,
    number: u32,
) -> Result<Vec<u8>, AllocError>
    requires len { length block.now ≡ BLOCK_BYTES }
    requires index { index < INDIRECT_INDEXES }
    ensures made { IfOk result (λ made. made.items ≡ with_number block.now index number) }
    ensures len { IfOk result (λ made. length made.items ≡ BLOCK_BYTES) }
{
    with_piece(alloc, block, NUMBER_BYTES * index, &number.to_le_bytes())
}

/// A block of a directory with these bytes in a slot.
pub fn with_slot(
    alloc: Global,
    block: &[u8],
    slot: u32,
    bytes: &[u8],
) -> Result<Vec<u8>, AllocError>
    requires len { length block.now ≡ BLOCK_BYTES }
    requires slot { slot < SLOTS_PER_BLOCK }
    requires bytes { length bytes.now ≡ SLOT_BYTES }
    ensures made { IfOk result (λ made. made.items ≡ with_slot block.now slot bytes.now) }
    ensures len { IfOk result (λ made. length made.items ≡ BLOCK_BYTES) }
{
    with_piece(alloc, block, SLOT_BYTES * slot as usize, bytes)
}

/// A block of a directory in whose first slot a name lies, and in no other.
pub fn first_slot(alloc: Global, number: u32, name: &[u8]) -> Result<Vec<u8>, AllocError>
    requires { length name.now ≤ NAME_BYTES }
    ensures bytes { IfOk result (λ bytes. bytes.items
        ≡ first_slot (record { number = number; name = name.now })) }
    ensures len { IfOk result (λ bytes. length bytes.items ≡ BLOCK_BYTES) }
{
    let mut bytes = Slot::named(alloc, number, name)?;
    let rest = vec![in alloc; 0; BLOCK_BYTES - SLOT_BYTES]?;
    bytes.extend_from_slice(&rest)?;
    Ok(bytes)
}
