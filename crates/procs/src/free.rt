//! What is free, as a call asks for it behind a run: whether there are enough blocks, each of them as a claim, and a
//! number that no file has. These are positions, of which nothing is claimed.
ghost use Rattle.std.specs.Prelude.{◌≡◌, ◌<◌, ◌≤◌, length, true, IfErr, IfSome};
ghost use Rattle.layout.specs.declared.grid.TheConstants.{PIECE_BITS, PIECE_BYTES};
ghost use Rattle.inode.specs.Over.{MaySuspend};

use crate::pieces::{piece_bytes, pieces_of_blocks};
use base::FIRST_HOME_BLOCK;
use disk::BlockNo;
use inode::{Snap, Suspend};
use layout::{PIECE_BITS, PIECES_PER_BLOCK};
use layout_records::clear_in;

/// How many pieces of the bitmap of blocks were counted, from where free blocks are looked for, and how many of their
/// bits are clear.
#[derive(Drop)]
pub(crate) struct Room {
    counted: u32,
    clear: u32,
}

/// How many pieces of the bitmap of blocks were gone through for free ones, from where these are looked for, and how
/// many bits of the next.
#[derive(Drop)]
pub(crate) struct FreeBlocks {
    passed: u32,
    bit: u32,
}

/// How many pieces of the bitmap of inodes were gone through for a number that no file has.
#[derive(Drop)]
pub(crate) struct FreeNumber {
    passed: u32,
}

// The piece behind so many others, from where free blocks are looked for; behind the last comes the first.
fn piece_behind(snap: &Snap, pieces: u32, passed: u32) -> u32
    requires { passed < pieces }
    ensures { result < pieces }
{
    let start = if snap.from < pieces { snap.from } else { 0 };
    let behind = pieces - start;
    if passed < behind {
        start + passed
    } else {
        passed - behind
    }
}

// The first clear bit of a piece from one on.
fn clear_from(bytes: &[u8], from: u32) -> Option<u32>
    requires { length bytes.now ≡ PIECE_BYTES }
    ensures { IfSome result (λ bit. bit < PIECE_BITS) }
{
    let first = (from / 8) as usize;
    'bytes: for at in first..bytes.len() {
        let below = if at == first { from % 8 } else { 0 };
        let bit = (bytes[at] | !(255 << below)).trailing_ones();
        if bit < 8 {
            return Some(8 * at as u32 + bit);
        }
    }
    None
}

// Asks to claim a block that is free.
fn ask_claim(snap: &Snap, number: u32) -> Result<(), Suspend>
    ensures { IfErr result (λ why. MaySuspend snap.now why) }
{
    if !snap.geometry.is_data(number) {
        return Err(Suspend::Io);
    }
    if !snap.has_claim(BlockNo(number)) {
        return Err(Suspend::Claim(BlockNo(number)));
    }
    Ok(())
}

impl Room {
    /// Nothing was counted.
    pub(crate) fn begin() -> Room {
        Room {
            counted: 0,
            clear: 0,
        }
    }

    /// Whether so many blocks are free. Asks for the next piece until it is known.
    pub(crate) fn is_for(&mut self, snap: &Snap, wanted: u32) -> Result<bool, Suspend>
        ensures { IfErr result (λ why. MaySuspend snap.now why) }
    {
        let pieces = pieces_of_blocks(snap);
        'pieces: for passed in self.counted..pieces {
            if self.clear >= wanted {
                return Ok(true);
            }
            let bytes = piece_bytes(snap, piece_behind(snap, pieces, passed))?;
            self.clear = self.clear.saturating_add(clear_in(bytes));
            self.counted = passed + 1;
        }
        Ok(self.clear >= wanted)
    }
}

impl FreeBlocks {
    /// No bit was looked at.
    pub(crate) fn begin() -> FreeBlocks {
        FreeBlocks { passed: 0, bit: 0 }
    }

    /// Asks for the next free block: for the pieces up to its bit, and then for itself, until it was claimed.
    pub(crate) fn take(&mut self, snap: &Snap) -> Result<(), Suspend>
        ensures { IfErr result (λ why. MaySuspend snap.now why) }
    {
        let pieces = pieces_of_blocks(snap);
        'pieces: for passed in self.passed..pieces {
            let piece = piece_behind(snap, pieces, passed);
            let bytes = piece_bytes(snap, piece)?;
            let from = if passed == self.passed { self.bit } else { 0 };
            if let Some(bit) = clear_from(bytes, from) {
                self.passed = passed;
                self.bit = bit;
                ask_claim(snap, PIECE_BITS * piece + bit)?;
                self.bit = bit + 1;
                return Ok(());
            }
        }
        Ok(())
    }
}

impl FreeNumber {
    /// No bit was looked at.
    pub(crate) fn begin() -> FreeNumber {
        FreeNumber { passed: 0 }
    }

    /// The first number that no file has, if there is one. Asks for the pieces up to its bit.
    pub(crate) fn find(&mut self, snap: &Snap) -> Result<Option<u32>, Suspend>
        ensures { IfErr result (λ why. MaySuspend snap.now why) }
    {
        let first = pieces_of_blocks(snap);
        let pieces = PIECES_PER_BLOCK * (snap.geometry.inode_table().0 - FIRST_HOME_BLOCK) - first;
        'pieces: for passed in self.passed..pieces {
            self.passed = passed;
            let bytes = piece_bytes(snap, first + passed)?;
            if let Some(bit) = clear_from(bytes, 0) {
                return Ok(Some(PIECE_BITS * passed + bit));
            }
        }
        Ok(None)
    }
}
