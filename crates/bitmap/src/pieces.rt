//! The bitmaps of what was read, piece by piece.
ghost use Rattle.std.specs.Prelude.{ℕ, ◌≡◌, ◌+◌, ◌*◌, ◌/◌, ◌%◌, ◌<◌, ◌≤◌, length, IfErr, IfOk};
ghost use Rattle.base.specs.declared.TheConstants.{BLOCK_BYTES, FIRST_HOME_BLOCK};
ghost use Rattle.disk.specs.Crash.{Image};
ghost use Rattle.layout.specs.Geometry.{bitmap_blocks, inode_bitmap_at, table_at};
ghost use Rattle.layout.specs.Holds.{Holds};
ghost use Rattle.nfs_spec.specs.Model.Tree.{Tree, free};
ghost use Rattle.nfs_spec.specs.Procedures.FsStat.{unused_numbers};
ghost use Rattle.inode.specs.Read.{NoneStand, Saw};
ghost use Rattle.inode.specs.Snap.{IsNew};
ghost use Rattle.layout.specs.declared.grid.TheConstants.{PIECE_BITS, PIECES_PER_BLOCK};
ghost use Rattle.layout_records.specs.Bits.{clear_in, piece_in};
ghost use Rattle.bitmap.specs.Clear.{clear_of};
ghost use Rattle.bitmap.specs.Pieces.{IsAskedObject};

use base::FIRST_HOME_BLOCK;
use inode::{Snap, Suspend, bytes_at};
use layout::PIECES_PER_BLOCK;
use layout_records::{clear_in, piece_addr};

/// The piece from which a bitmap of so many is gone through: this one, if there is one, or else the first.
pub(crate) fn start_in(from: u32, pieces: u32) -> u32
    ensures within { result ≤ pieces }
    ensures same { from < pieces → result ≡ from }
{
    if from < pieces { from } else { 0 }
}

// How many bits are clear in a piece.
pub(crate) fn clear_at(snap: &Snap, first: u32, piece: u32) -> Result<u32, Suspend>
    requires from { FIRST_HOME_BLOCK ≤ first }
    requires to { first + piece / PIECES_PER_BLOCK < table_at snap.now.geometry.blocks snap.now.geometry.inodes }
    ensures few { IfOk result (λ clear. clear ≤ PIECE_BITS) }
    ensures ok { IfOk result (λ clear. (blocks : Image) → Saw blocks snap.now
        → clear ≡ clear_in (piece_in blocks first piece)) }
    ensures err { IfErr result (λ suspend. IsNew snap.now suspend) }
    ensures asks { IfErr result (λ suspend. IsAskedObject snap.now.geometry suspend) }
    ensures io { IfErr result (λ suspend. NoneStand snap.now suspend) }
{
    match bytes_at(snap, piece_addr(first, piece)) {
        Ok(bytes) => Ok(clear_in(bytes)),
        Err(suspend) => Err(suspend),
    }
}

// How many bits are clear in the bitmap of so many blocks that begins with this one.
fn clear_of(snap: &Snap, first: u32, count: u32) -> Result<u32, Suspend>
    requires from { FIRST_HOME_BLOCK ≤ first }
    requires to { first + count ≤ table_at snap.now.geometry.blocks snap.now.geometry.inodes }
    ensures ok { IfOk result (λ clear. (blocks : Image) → Saw blocks snap.now
        → ((number : ℕ) → number < first + count → length (blocks number) ≡ BLOCK_BYTES)
        → clear ≡ clear_of blocks first count) }
    ensures err { IfErr result (λ suspend. IsNew snap.now suspend) }
    ensures asks { IfErr result (λ suspend. IsAskedObject snap.now.geometry suspend) }
    ensures io { IfErr result (λ suspend. NoneStand snap.now suspend) }
{
    let mut clear = 0;
    for piece in 0..PIECES_PER_BLOCK * count {
        clear += clear_at(snap, first, piece)?;
    }
    Ok(clear)
}

/// How many data blocks are free.
pub fn free_blocks(snap: &Snap) -> Result<u32, Suspend>
    ensures ok { IfOk result (λ clear. (blocks : Image) (tree : Tree) → Saw blocks snap.now
        → Holds snap.now.geometry blocks tree → clear ≡ free tree) }
    ensures err { IfErr result (λ suspend. IsNew snap.now suspend) }
    ensures asks { IfErr result (λ suspend. IsAskedObject snap.now.geometry suspend) }
    ensures io { IfErr result (λ suspend. NoneStand snap.now suspend) }
{
    let first = snap.geometry.inode_bitmap();
    clear_of(snap, FIRST_HOME_BLOCK, first.0 - FIRST_HOME_BLOCK)
}

/// How many numbers no file has.
pub fn free_numbers(snap: &Snap) -> Result<u32, Suspend>
    ensures ok { IfOk result (λ clear. (blocks : Image) (tree : Tree) → Saw blocks snap.now
        → Holds snap.now.geometry blocks tree → clear ≡ unused_numbers tree) }
    ensures err { IfErr result (λ suspend. IsNew snap.now suspend) }
    ensures asks { IfErr result (λ suspend. IsAskedObject snap.now.geometry suspend) }
    ensures io { IfErr result (λ suspend. NoneStand snap.now suspend) }
{
    let first = snap.geometry.inode_bitmap();
    let end = snap.geometry.inode_table();
    clear_of(snap, first.0, end.0 - first.0)
}
