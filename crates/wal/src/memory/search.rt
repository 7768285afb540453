//! Searches among changes.
ghost use Rattle.std.specs.Prelude.{◌≡◌, ◌≤◌, length, drop, All};
ghost use Rattle.circ.specs.Log.Grows.{IsWholeChange};
ghost use Rattle.circ.specs.Log.Log.{changed_blocks, new_blocks, place_before};

use crate::changes::Changes;
use crate::{LogChange, Seq};
use disk::BlockNo;
use std::collections::VecDeque;

// Each of the changes is of a whole block.
pub(super) fn are_whole(changes: &VecDeque<LogChange>)
    ensures { All IsWholeChange changes.now.items }
{
    for i in 0..changes.len() {
        let _ = changes[i].content.as_slice();
    }
}

// How many of the blocks no change from an index on is of.
pub(super) fn count_new(changes: &Changes, from: usize, blocks: &[BlockNo]) -> usize
    requires { from ≤ length changes.now.changes }
    ensures { result ≡ length (new_blocks (changed_blocks (drop from changes.now.changes)) blocks.now) }
{
    let mut count = 0;
    for block in blocks {
        if !changes.has(from, *block) {
            count += 1;
        }
    }
    count
}

// The place before that of a change, or the last where there is none at the index.
pub(super) fn seq_before(changes: &VecDeque<LogChange>, index: usize, places: u64) -> Seq
    requires { index ≤ length changes.now.items }
    ensures { result.0 ≡ place_before (drop index changes.now.items) places }
{
    if index == changes.len() {
        return Seq(places);
    }
    let change = &changes[index];
    Seq(change.place.saturating_sub(1))
}
