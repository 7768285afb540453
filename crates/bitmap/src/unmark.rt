//! Blocks that are marked as free, a piece of the bitmap at a time.
ghost use Rattle.std.specs.Prelude.{ℕ, ◌≡◌, ◌/◌, ◌<◌, ◌≤◌, All, length, take, get_or, IfErr, IfOk, OnOk};
ghost use Rattle.disk.specs.Crash.{Image};
ghost use Rattle.layout.specs.declared.grid.TheConstants.{PIECE_BITS, PIECE_BYTES};
ghost use Rattle.inode.specs.Over.{IsResumable, MaySuspend};
ghost use Rattle.inode.specs.WriteSets.WriteSetContents.{Shows, fresh, image_of, dirty_count};
ghost use Rattle.bitmap.specs.Frees.{AreCleared, Frees, IsInPiece};

use base::FIRST_HOME_BLOCK;
use inode::{Suspend, WriteSet, bytes_at};
use layout::PIECE_BITS;
use layout_records::{piece_addr, put_bit};
use std::alloc::Global;

// How many of the first numbers are of blocks that have their bits in this piece, before one that hasn't.
fn count_in_piece(numbers: &[u32], blocks: u32, piece: u32) -> usize
    ensures most { result ≤ length numbers.now }
    ensures are { All (IsInPiece blocks piece) (take result numbers.now) }
    ensures next { result < length numbers.now → IsInPiece blocks piece (get_or numbers.now result 0) → ⊥ }
{
    'numbers: for at in 0..numbers.len() {
        let number = numbers[at];
        if number >= blocks || number / PIECE_BITS != piece {
            return at;
        }
    }
    numbers.len()
}

// Clears the bits of these numbers in the bytes of their piece.
fn unmark_bits(bytes: &mut [u8], numbers: &[u32])
    requires { length bytes.old ≡ PIECE_BYTES }
    ensures len { length bytes.new ≡ PIECE_BYTES }
    ensures are { AreCleared numbers.now bytes.old bytes.new }
{
    for number in numbers {
        put_bit(bytes, (*number % PIECE_BITS) as usize, false);
    }
}

/// Marks as free the first of these blocks and as many of the next as have their bits in the same piece of the bitmap,
/// which is written once. Said is how many these are.
pub fn unmark_blocks(
    alloc: Global,
    write_set: &mut WriteSet,
    numbers: &[u32],
) -> Result<usize, Suspend>
    requires some { 0 < length numbers.now }
    requires first { get_or numbers.now 0 0 < write_set.old.there.geometry.blocks }
    ensures some { IfOk result (λ count. 0 < count) }
    ensures most { IfOk result (λ count. count ≤ length numbers.now) }
    ensures shows { OnOk result ((blocks : Image) → Shows write_set.old (image_of blocks write_set.old)
        → Shows write_set.new (image_of blocks write_set.new)) }
    ensures frees { IfOk result (λ count. (blocks : Image) → Shows write_set.old (image_of blocks write_set.old)
        → Frees write_set.old.there.geometry (take count numbers.now) (image_of blocks write_set.old)
        (image_of blocks write_set.new)) }
    ensures seen { write_set.new.seen ≡ write_set.old.seen }
    ensures geometry { write_set.new.there.geometry ≡ write_set.old.there.geometry }
    ensures dirty_count { dirty_count write_set.new ≤ dirty_count write_set.old }
    ensures stays { (block offset len : ℕ) → fresh block offset len write_set.new ≤ fresh block offset len write_set.old }
    ensures err { IfErr result (λ suspend. MaySuspend write_set.old.seen suspend) }
    ensures resumable { IfErr result (λ suspend. IsResumable suspend) }
{
    let piece = numbers[0] / PIECE_BITS;
    let count = count_in_piece(numbers, write_set.there().geometry.blocks, piece);
    let addr = piece_addr(FIRST_HOME_BLOCK, piece);
    let old = match bytes_at(write_set.there(), addr) {
        Ok(bytes) => Vec::from_slice(alloc, bytes),
        Err(suspend) => return Err(suspend),
    };
    let mut bytes = old?;
    unmark_bits(&mut bytes, &numbers[..count]);
    write_set.put(addr, bytes)?;
    Ok(count)
}
