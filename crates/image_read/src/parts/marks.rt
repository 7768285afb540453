//! The bitmaps.
ghost use Rattle.std.specs.Prelude.{◌≡◌, ◌+◌, ◌*◌, ◌/◌, ◌<◌, ◌≤◌, ℕ, Ok, get_or, length, true, false, IfOk, IsErrOf};
ghost use Rattle.base.specs.declared.TheConstants.{BITS_PER_BLOCK, BLOCK_BYTES, MOST_BLOCKS};
ghost use Rattle.layout.specs.Geometry.{bitmap_blocks};
ghost use Rattle.circ.specs.Log.Recovery.{HasOnlyRead, IsCertain, image_of};
ghost use Rattle.image_read.specs.LoggedImage.WithOverlay.{with_overlay};
ghost use Rattle.image_read.specs.Parts.Marks.{AreMarked, HasBits, bit_in, is_block_mark, is_inode_mark};
ghost use Rattle.image_read.specs.Parts.Table.{CountsPart};

use crate::image_counts::Owners;
use crate::logged_image::Overlay;
use crate::parts::PartFault;
use base::{BITS_PER_BLOCK, FIRST_HOME_BLOCK};
use disk::{Block, BlockNo, CrashDisk};
use layout::{Geometry, Inode};
use std::alloc::{AllocError, Global};

/// Whether the bitmaps of an image mark what is in use: the blocks before the data, past the last and with an
/// owner; inode 0, those past the last and those in use.
#[tactic(auto, using(circ::proofs::LogLemmas::OnlyRead::reads_then, circ::proofs::LogLemmas::OnlyRead::no_read))]
pub fn are_marked<D: CrashDisk>(
    alloc: Global,
    disk: &mut D,
    overlay: &Overlay,
    geometry: &Geometry,
    owners: &Owners,
    table: &[Option<Inode>],
) -> Result<bool, PartFault>
    requires size { geometry.now.blocks ≤ (D.device disk.old).size }
    requires owners { length owners.now.has ≡ geometry.now.blocks }
    ensures reads { HasOnlyRead (D.device disk.old) (D.device disk.new) }
    ensures failure { CountsPart (D.device disk.old) (D.device disk.new) result }
    ensures model { D.keeps_model disk.new → D.keeps_model disk.old }
    ensures yes { D.keeps_model disk.new → IsCertain (D.device disk.old) → result ≡ Ok true
        → AreMarked geometry.now (with_overlay overlay.now (image_of (D.device disk.old))) owners.now table.now }
    ensures no { D.keeps_model disk.new → IsCertain (D.device disk.old) → result ≡ Ok false
        → AreMarked geometry.now (with_overlay overlay.now (image_of (D.device disk.old))) owners.now table.now
        → ⊥ }
    ensures other { IsErrOf result PartFault.Range → ⊥ }
{
    let blocks = block_marks(alloc, geometry, owners)?;
    if !has_bits(alloc, disk, overlay, BlockNo(FIRST_HOME_BLOCK), &blocks)? {
        return Ok(false);
    }
    let inodes = inode_marks(alloc, geometry, table)?;
    has_bits(alloc, disk, overlay, geometry.inode_bitmap(), &inodes)
}

// What the bits of the blocks' bitmap are to be, to the end of its last block.
fn block_marks(alloc: Global, geometry: &Geometry, owners: &Owners) -> Result<Vec<bool>, AllocError>
    requires { length owners.now.has ≡ geometry.now.blocks }
    ensures len { IfOk result (λ marks. length marks.items ≡ BITS_PER_BLOCK * bitmap_blocks geometry.now.blocks) }
    ensures marks { IfOk result (λ marks. (number : ℕ)
        → number < BITS_PER_BLOCK * bitmap_blocks geometry.now.blocks
        → get_or marks.items number false ≡ is_block_mark geometry.now owners.now number) }
{
    let count = BITS_PER_BLOCK * (geometry.inode_bitmap().0 - FIRST_HOME_BLOCK);
    let mut marks = Vec::with_capacity(alloc, count as usize)?;
    'numbers: for number in 0..count {
        marks.push(is_block_mark(geometry, owners, number))?;
    }
    Ok(marks)
}

// What the bits of the inodes' bitmap are to be, to the end of its last block.
fn inode_marks(
    alloc: Global,
    geometry: &Geometry,
    table: &[Option<Inode>],
) -> Result<Vec<bool>, AllocError>
    ensures len { IfOk result (λ marks. length marks.items ≡ BITS_PER_BLOCK * bitmap_blocks geometry.now.inodes) }
    ensures marks { IfOk result (λ marks. (number : ℕ)
        → number < BITS_PER_BLOCK * bitmap_blocks geometry.now.inodes
        → get_or marks.items number false ≡ is_inode_mark table.now number) }
{
    let count = BITS_PER_BLOCK * (geometry.inode_table().0 - geometry.inode_bitmap().0);
    let mut marks = Vec::with_capacity(alloc, count as usize)?;
    'numbers: for number in 0..count {
        marks.push(is_inode_mark(table, number))?;
    }
    Ok(marks)
}

// Whether the bit of a block is to be set.
fn is_block_mark(geometry: &Geometry, owners: &Owners, number: u32) -> bool
    requires { length owners.now.has ≡ geometry.now.blocks }
    ensures { result ≡ is_block_mark geometry.now owners.now number }
{
    number < geometry.data().0 || geometry.blocks <= number || owners.has(number)
}

// Whether the bit of an inode is to be set.
fn is_inode_mark(table: &[Option<Inode>], number: u32) -> bool
    ensures { result ≡ is_inode_mark table.now number }
{
    let index_within = number as usize;
    number == 0 || table.len() <= index_within || table[index_within].is_some()
}

// Whether the bitmap that begins with a block has these bits, in whole blocks.
#[tactic(auto, using(circ::proofs::LogLemmas::OnlyRead::reads_then, circ::proofs::LogLemmas::OnlyRead::no_read))]
fn has_bits<D: CrashDisk>(
    alloc: Global,
    disk: &mut D,
    overlay: &Overlay,
    first: BlockNo,
    marks: &[bool],
) -> Result<bool, PartFault>
    requires size { first.0 + length marks.now / BITS_PER_BLOCK ≤ (D.device disk.old).size }
    requires few { first.0 + length marks.now / BITS_PER_BLOCK ≤ MOST_BLOCKS }
    ensures reads { HasOnlyRead (D.device disk.old) (D.device disk.new) }
    ensures failure { CountsPart (D.device disk.old) (D.device disk.new) result }
    ensures model { D.keeps_model disk.new → D.keeps_model disk.old }
    ensures yes { D.keeps_model disk.new → IsCertain (D.device disk.old) → result ≡ Ok true
        → HasBits (with_overlay overlay.now (image_of (D.device disk.old))) first.0
        (length marks.now / BITS_PER_BLOCK) marks.now }
    ensures no { D.keeps_model disk.new → IsCertain (D.device disk.old) → result ≡ Ok false
        → HasBits (with_overlay overlay.now (image_of (D.device disk.old))) first.0
        (length marks.now / BITS_PER_BLOCK) marks.now → ⊥ }
    ensures other { IsErrOf result PartFault.Range → ⊥ }
{
    let mut block = Block::zeros(alloc)?;
    'indexes: for index in 0..marks.len() / BITS_PER_BLOCK as usize {
        overlay.read(disk, BlockNo(first.0 + index as u32), &mut block)?;
        if !has_bits_of(block.as_slice(), marks, BITS_PER_BLOCK as usize * index) {
            return Ok(false);
        }
    }
    Ok(true)
}

// Whether a block has these bits from a place on.
fn has_bits_of(block: &[u8], marks: &[bool], from: usize) -> bool
    requires block { length block.now ≡ BLOCK_BYTES }
    requires marks { from + BITS_PER_BLOCK ≤ length marks.now }
    ensures yes { result ≡ true → (bit : ℕ) → bit < BITS_PER_BLOCK
        → bit_in block.now bit ≡ get_or marks.now (from + bit) false }
    ensures no { result ≡ false
        → ((bit : ℕ) → bit < BITS_PER_BLOCK → bit_in block.now bit ≡ get_or marks.now (from + bit) false)
        → ⊥ }
{
    'bits: for bit in 0..BITS_PER_BLOCK as usize {
        if is_set(block, bit) != marks[from + bit] {
            return false;
        }
    }
    true
}

// Whether a bit of a block is set: the least bit of a byte comes first.
fn is_set(block: &[u8], bit: usize) -> bool
    requires { bit < 8 * length block.now }
    ensures { result ≡ bit_in block.now bit }
{
    block[bit / 8] >> (bit % 8) & 1 == 1
}
