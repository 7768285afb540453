//! The bits of the bitmaps, and the pieces in which they are read and written.
ghost use Rattle.std.specs.Prelude.{◌≡◌, ◌+◌, ◌*◌, ◌/◌, ◌%◌, ◌<◌, length};
ghost use Rattle.layout.specs.declared.grid.TheConstants.{PIECE_BYTES, PIECES_PER_BLOCK};
ghost use Rattle.layout_records.specs.Bits.{HasBit};

use disk::BlockNo;
use layout::{PIECE_BYTES, PIECES_PER_BLOCK};
use objects::Addr;

/// Where a piece of the bitmap lies that begins with this block.
pub fn piece_addr(first: u32, piece: u32) -> Addr
    requires { first + piece / PIECES_PER_BLOCK < 4096 }
    ensures block { result.block.0 ≡ first + piece / PIECES_PER_BLOCK }
    ensures offset { result.offset ≡ PIECE_BYTES * (piece % PIECES_PER_BLOCK) }
    ensures len { result.len ≡ PIECE_BYTES }
{
    Addr {
        block: BlockNo(first + piece / PIECES_PER_BLOCK),
        offset: PIECE_BYTES * (piece % PIECES_PER_BLOCK) as usize,
        len: PIECE_BYTES,
    }
}

/// Gives one bit of bytes a value: the least bit of a byte comes first.
pub fn put_bit(bytes: &mut [u8], bit: usize, is: bool)
    requires { bit < 8 * length bytes.old }
    ensures { HasBit bit is bytes.old bytes.new }
{
    if is {
        bytes[bit / 8] |= 1 << (bit % 8);
    } else {
        bytes[bit / 8] &= !(1 << (bit % 8));
    }
}
