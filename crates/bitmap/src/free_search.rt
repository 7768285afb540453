//! A number that no file has, and a block that is free.
ghost use Rattle.std.specs.Prelude.{ℕ, ◌≡◌, ◌+◌, ◌*◌, ◌/◌, ◌<◌, ◌≤◌, length, List, true, IfErr, IfOk, IfSome};
ghost use Rattle.base.specs.declared.TheConstants.{FIRST_HOME_BLOCK};
ghost use Rattle.disk.specs.Crash.{Image};
ghost use Rattle.layout.specs.Geometry.{table_at};
ghost use Rattle.layout.specs.Holds.{Holds};
ghost use Rattle.nfs_spec.specs.Model.Tree.{Tree};
ghost use Rattle.nfs_spec.specs.Procedures.Fresh.{IsNewNumber};
ghost use Rattle.inode.specs.Over.{IsResumable, MaySuspend};
ghost use Rattle.inode.specs.Read.{NoneStand, Saw};
ghost use Rattle.inode.specs.Snap.{IsNew};
ghost use Rattle.layout.specs.Places.{is_data};
ghost use Rattle.layout.specs.declared.grid.TheConstants.{PIECE_BITS, PIECE_BYTES, PIECES_PER_BLOCK};
ghost use Rattle.layout_records.specs.Bits.{piece_in};
ghost use Rattle.bitmap.specs.Bits.{IsClearBetween, IsClearIn, IsClearOf};
ghost use Rattle.bitmap.specs.NewBlock.{HasTaken, IsNewBlock};
ghost use Rattle.bitmap.specs.Pieces.{IsAskedObject};

use crate::pieces::start_in;
use base::FIRST_HOME_BLOCK;
use inode::{Snap, Suspend, bytes_at};
use layout::{PIECE_BITS, PIECE_BYTES, PIECES_PER_BLOCK};
use layout_records::piece_addr;

// A clear bit of a piece, if it has one.
fn clear_bit(bytes: &[u8]) -> Option<u32>
    requires { length bytes.now ≡ PIECE_BYTES }
    ensures is { IsClearIn bytes.now result }
    ensures few { IfSome result (λ bit. bit < PIECE_BITS) }
{
    'bytes: for at in 0..PIECE_BYTES {
        let byte = bytes[at];
        if byte != 255 {
            return Some(8 * at as u32 + byte.trailing_ones());
        }
    }
    None
}

// A clear bit of a piece of the bitmap that begins with this block, if it has one.
fn clear_in_piece(snap: &Snap, first: u32, piece: u32) -> Result<Option<u32>, Suspend>
    requires from { FIRST_HOME_BLOCK ≤ first }
    requires to { first + piece / PIECES_PER_BLOCK < table_at snap.now.geometry.blocks snap.now.geometry.inodes }
    ensures few { IfOk result (λ found. IfSome found (λ bit. bit < PIECE_BITS)) }
    ensures ok { IfOk result (λ found. (blocks : Image) → Saw blocks snap.now
        → IsClearIn (piece_in blocks first piece) found) }
    ensures err { IfErr result (λ suspend. IsNew snap.now suspend) }
    ensures asks { IfErr result (λ suspend. IsAskedObject snap.now.geometry suspend) }
    ensures io { IfErr result (λ suspend. NoneStand snap.now suspend) }
    ensures resumable { IfErr result (λ suspend. IsResumable suspend) }
{
    match bytes_at(snap, piece_addr(first, piece)) {
        Ok(bytes) => Ok(clear_bit(bytes)),
        Err(suspend) => Err(suspend),
    }
}

// A clear bit of the pieces from one up to another, if they have one.
fn clear_between(snap: &Snap, first: u32, from: u32, end: u32) -> Result<Option<u32>, Suspend>
    requires low { FIRST_HOME_BLOCK ≤ first }
    requires to { PIECES_PER_BLOCK * first + end
        ≤ PIECES_PER_BLOCK * table_at snap.now.geometry.blocks snap.now.geometry.inodes }
    ensures ok { IfOk result (λ found. (blocks : Image) → Saw blocks snap.now
        → IsClearBetween blocks first from end found) }
    ensures err { IfErr result (λ suspend. IsNew snap.now suspend) }
    ensures asks { IfErr result (λ suspend. IsAskedObject snap.now.geometry suspend) }
    ensures io { IfErr result (λ suspend. NoneStand snap.now suspend) }
    ensures resumable { IfErr result (λ suspend. IsResumable suspend) }
{
    'pieces: for piece in from..end {
        match clear_in_piece(snap, first, piece) {
            Ok(Some(bit)) => return Ok(Some(PIECE_BITS * piece + bit)),
            Ok(None) => {}
            Err(suspend) => return Err(suspend),
        }
    }
    Ok(None)
}

// A clear bit of the bitmap of so many blocks that begins with this one, if it has one. Its pieces are gone through
// from one of them on, and then from the first.
fn clear_among(snap: &Snap, first: u32, count: u32, from: u32) -> Result<Option<u32>, Suspend>
    requires low { FIRST_HOME_BLOCK ≤ first }
    requires to { first + count ≤ table_at snap.now.geometry.blocks snap.now.geometry.inodes }
    ensures ok { IfOk result (λ found. (blocks : Image) → Saw blocks snap.now
        → IsClearOf blocks first count found) }
    ensures err { IfErr result (λ suspend. IsNew snap.now suspend) }
    ensures asks { IfErr result (λ suspend. IsAskedObject snap.now.geometry suspend) }
    ensures io { IfErr result (λ suspend. NoneStand snap.now suspend) }
    ensures resumable { IfErr result (λ suspend. IsResumable suspend) }
{
    let pieces = PIECES_PER_BLOCK * count;
    let start = start_in(from, pieces);
    match clear_between(snap, first, start, pieces) {
        Ok(Some(bit)) => Ok(Some(bit)),
        Ok(None) => clear_between(snap, first, 0, start),
        Err(suspend) => Err(suspend),
    }
}

/// A number that a file may have and none has.
pub fn new_number(snap: &Snap) -> Result<Option<u32>, Suspend>
    ensures ok { IfOk result (λ found. (blocks : Image) (tree : Tree) → Saw blocks snap.now
        → Holds snap.now.geometry blocks tree → IsNewNumber tree found) }
    ensures err { IfErr result (λ suspend. IsNew snap.now suspend) }
    ensures asks { IfErr result (λ suspend. IsAskedObject snap.now.geometry suspend) }
    ensures io { IfErr result (λ suspend. NoneStand snap.now suspend) }
{
    let first = snap.geometry.inode_bitmap();
    let end = snap.geometry.inode_table();
    clear_among(snap, first.0, end.0 - first.0, 0)
}

/// A data block that is free, and was not taken for a file that doesn't have it yet. The bitmap is gone through from
/// where the snapshot says.
pub fn new_block(snap: &Snap) -> Result<Option<u32>, Suspend>
    ensures ok { IfOk result (λ found. (image base : Image) (tree : Tree) (taken : List ℕ) → Saw image snap.now
        → HasTaken snap.now.geometry base tree taken image
        → IsNewBlock snap.now.geometry base tree taken found) }
    ensures lies { IfOk result (λ found. IfSome found (λ number. is_data snap.now.geometry number ≡ true)) }
    ensures err { IfErr result (λ suspend. MaySuspend snap.now suspend) }
    ensures resumable { IfErr result (λ suspend. (image base : Image) (tree : Tree) (taken : List ℕ)
        → Saw image snap.now → HasTaken snap.now.geometry base tree taken image → IsResumable suspend) }
{
    let first = snap.geometry.inode_bitmap();
    let count = first.0 - FIRST_HOME_BLOCK;
    match clear_among(snap, FIRST_HOME_BLOCK, count, snap.from) {
        Ok(Some(number)) => {
            if snap.geometry.is_data(number) {
                Ok(Some(number))
            } else {
                Err(Suspend::Io)
            }
        }
        Ok(None) => Ok(None),
        Err(suspend) => Err(suspend),
    }
}
