//! Whether so much is free, counted only until there is enough.
ghost use Rattle.std.specs.Prelude.{ℕ, ◌≡◌, ◌+◌, ◌-◌, ◌*◌, ◌<◌, ◌≤◌, length, nat_le, sum_by, IfErr, IfOk};
ghost use Rattle.std.specs.List.{range_with_len};
ghost use Rattle.base.specs.declared.TheConstants.{BLOCK_BYTES, FIRST_HOME_BLOCK};
ghost use Rattle.disk.specs.Crash.{Image};
ghost use Rattle.layout.specs.Geometry.{table_at};
ghost use Rattle.layout.specs.Holds.{Holds};
ghost use Rattle.layout.specs.declared.grid.TheConstants.{PIECE_BITS, PIECES_PER_BLOCK};
ghost use Rattle.layout_records.specs.Bits.{clear_in, piece_in};
ghost use Rattle.nfs_spec.specs.Model.Tree.{Tree, free};
ghost use Rattle.inode.specs.Read.{NoneStand, Saw};
ghost use Rattle.inode.specs.Snap.{IsNew};
ghost use Rattle.bitmap.specs.Clear.{clear_of};
ghost use Rattle.bitmap.specs.Enough.{IsEnough};
ghost use Rattle.bitmap.specs.Pieces.{IsAskedObject};

use crate::pieces::{clear_at, start_in};
use base::FIRST_HOME_BLOCK;
use inode::{Snap, Suspend};
use layout::PIECES_PER_BLOCK;

// How many bits are clear in the pieces from one up to another; where there are more than are wanted, at least as
// many as are wanted.
fn clear_until(snap: &Snap, first: u32, from: u32, end: u32, wanted: u32) -> Result<u32, Suspend>
    requires low { FIRST_HOME_BLOCK ≤ first }
    requires order { from ≤ end }
    requires to { PIECES_PER_BLOCK * first + end
        ≤ PIECES_PER_BLOCK * table_at snap.now.geometry.blocks snap.now.geometry.inodes }
    ensures few { IfOk result (λ clear. clear ≤ PIECE_BITS * (end - from)) }
    ensures ok { IfOk result (λ clear. (blocks : Image) → Saw blocks snap.now → IsEnough wanted clear
        (sum_by (λ piece. clear_in (piece_in blocks first piece)) (range_with_len from (end - from)))) }
    ensures err { IfErr result (λ suspend. IsNew snap.now suspend) }
    ensures asks { IfErr result (λ suspend. IsAskedObject snap.now.geometry suspend) }
    ensures io { IfErr result (λ suspend. NoneStand snap.now suspend) }
{
    let mut clear = 0;
    'pieces: for piece in from..end {
        if clear >= wanted {
            return Ok(clear);
        }
        clear += clear_at(snap, first, piece)?;
    }
    Ok(clear)
}

// Whether so many bits are clear in the bitmap of so many blocks that begins with this one. Its pieces are counted
// from where free blocks are looked for, and then from the first.
fn is_clear_enough(snap: &Snap, first: u32, count: u32, wanted: u32) -> Result<bool, Suspend>
    requires low { FIRST_HOME_BLOCK ≤ first }
    requires to { first + count ≤ table_at snap.now.geometry.blocks snap.now.geometry.inodes }
    ensures ok { IfOk result (λ is. (blocks : Image) → Saw blocks snap.now
        → ((number : ℕ) → number < first + count → length (blocks number) ≡ BLOCK_BYTES)
        → is ≡ nat_le wanted (clear_of blocks first count)) }
    ensures err { IfErr result (λ suspend. IsNew snap.now suspend) }
    ensures asks { IfErr result (λ suspend. IsAskedObject snap.now.geometry suspend) }
    ensures io { IfErr result (λ suspend. NoneStand snap.now suspend) }
{
    let pieces = PIECES_PER_BLOCK * count;
    let start = start_in(snap.from, pieces);
    let behind = clear_until(snap, first, start, pieces, wanted)?;
    if behind >= wanted {
        return Ok(true);
    }
    let rest = wanted - behind;
    let before = clear_until(snap, first, 0, start, rest)?;
    Ok(before >= rest)
}

/// Whether so many data blocks are free. They are counted only until there are enough, from where free blocks are
/// looked for: nothing is read where none is wanted, and where there are too few each piece once.
pub fn are_enough_free(snap: &Snap, wanted: u32) -> Result<bool, Suspend>
    ensures ok { IfOk result (λ is. (blocks : Image) (tree : Tree) → Saw blocks snap.now
        → Holds snap.now.geometry blocks tree → is ≡ nat_le wanted (free tree)) }
    ensures err { IfErr result (λ suspend. IsNew snap.now suspend) }
    ensures asks { IfErr result (λ suspend. IsAskedObject snap.now.geometry suspend) }
    ensures io { IfErr result (λ suspend. NoneStand snap.now suspend) }
{
    let first = snap.geometry.inode_bitmap();
    is_clear_enough(snap, FIRST_HOME_BLOCK, first.0 - FIRST_HOME_BLOCK, wanted)
}
