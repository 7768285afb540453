//! The pieces of the bitmaps: FSSTAT asks for all of them (RFC 1813, section 3.3.18).
ghost use Rattle.std.specs.Prelude.{◌≡◌, ◌+◌, ◌-◌, ◌*◌, ◌/◌, ◌<◌, length, IfErr, IfOk};
ghost use Rattle.base.specs.declared.TheConstants.{FIRST_HOME_BLOCK};
ghost use Rattle.layout.specs.Geometry.{inode_bitmap_at, table_at};
ghost use Rattle.layout.specs.declared.grid.TheConstants.{PIECE_BYTES, PIECES_PER_BLOCK};
ghost use Rattle.inode.specs.Over.{MaySuspend};

use base::FIRST_HOME_BLOCK;
use inode::{Snap, Suspend, bytes_at};
use layout::{PIECE_BITS, PIECES_PER_BLOCK};
use layout_records::piece_addr;

/// How many pieces of the two bitmaps were asked for: that of inodes lies behind that of blocks.
#[derive(Drop)]
pub(crate) struct Pieces {
    at: u32,
}

/// The bytes of a piece.
pub(crate) fn piece_bytes(snap: &Snap, piece: u32) -> Result<&[u8], Suspend>
    requires { FIRST_HOME_BLOCK + piece / PIECES_PER_BLOCK
        < table_at snap.now.geometry.blocks snap.now.geometry.inodes }
    ensures len { IfOk result (λ bytes. length bytes.now ≡ PIECE_BYTES) }
    ensures err { IfErr result (λ why. MaySuspend snap.now why) }
{
    match bytes_at(snap, piece_addr(FIRST_HOME_BLOCK, piece)) {
        Ok(bytes) => Ok(bytes),
        Err(suspend) => Err(suspend),
    }
}

/// How many pieces the bitmap of blocks has.
pub(crate) fn pieces_of_blocks(snap: &Snap) -> u32
    ensures { result ≡ PIECES_PER_BLOCK * (inode_bitmap_at snap.now.geometry.blocks - FIRST_HOME_BLOCK) }
{
    PIECES_PER_BLOCK * (snap.geometry.inode_bitmap().0 - FIRST_HOME_BLOCK)
}

// How many pieces the two bitmaps have.
fn pieces_of_both(snap: &Snap) -> u32
    ensures { result
        ≡ PIECES_PER_BLOCK * (table_at snap.now.geometry.blocks snap.now.geometry.inodes - FIRST_HOME_BLOCK) }
{
    PIECES_PER_BLOCK * (snap.geometry.inode_table().0 - FIRST_HOME_BLOCK)
}

// Asks for a piece, if there is one.
fn ask_piece(snap: &Snap, piece: u32) -> Result<(), Suspend>
    ensures { IfErr result (λ why. MaySuspend snap.now why) }
{
    if piece < pieces_of_both(snap) {
        piece_bytes(snap, piece)?;
    }
    Ok(())
}

/// Asks for the piece that has the bit of a block.
pub(crate) fn ask_block_bit(snap: &Snap, block: u32) -> Result<(), Suspend>
    ensures { IfErr result (λ why. MaySuspend snap.now why) }
{
    ask_piece(snap, block / PIECE_BITS)
}

/// Asks for the piece that has the bit of a file's number.
pub(crate) fn ask_number_bit(snap: &Snap, number: u32) -> Result<(), Suspend>
    ensures { IfErr result (λ why. MaySuspend snap.now why) }
{
    ask_piece(
        snap,
        pieces_of_blocks(snap).saturating_add(number / PIECE_BITS),
    )
}

impl Pieces {
    /// None was asked for.
    pub(crate) fn begin() -> Pieces {
        Pieces { at: 0 }
    }

    /// Asks for the next one that wasn't read.
    pub(crate) fn go_on(&mut self, snap: &Snap) -> Result<(), Suspend>
        ensures { IfErr result (λ why. MaySuspend snap.now why) }
    {
        let end = pieces_of_both(snap);
        'pieces: while self.at < end {
            piece_bytes(snap, self.at)?;
            self.at += 1;
        }
        Ok(())
    }
}
