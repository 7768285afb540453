//! Changes that come: those of an opening, and those of a commit.
ghost use Rattle.std.specs.Prelude.{◌≡◌, ◌≤◌, ◌<◌, ◌^◌, ◌+◌, ◌++◌, false, length, drop, take, All, IfOk};
ghost use Rattle.std.specs.VecDeque.{deque_capacity};
ghost use Rattle.wal.specs.Changes.Index.{IsIndex, numbers};
ghost use Rattle.wal.specs.Changes.AbsorbedIn.{absorbed_in, replaced};
ghost use Rattle.circ.specs.Log.Log.{AreOnce, IsHomeOn, blocks_of, changed_blocks, changes_of, is_among, new_blocks};
ghost use Rattle.circ.specs.Log.Room.{tail_with};

use crate::changes::index::Index;
use circ::LogChange;
use disk::{Block, BlockNo, SharedBlock};
use std::alloc::{AllocError, Global};
use std::collections::VecDeque;

/// Shares the blocks that an opening found.
pub(crate) fn shared(
    alloc: Global,
    group: Vec<(BlockNo, Block)>,
) -> Result<Vec<(BlockNo, SharedBlock)>, AllocError>
    ensures { IfOk result (λ shared. shared.items ≡ group.items) }
{
    let mut shared = Vec::with_capacity(alloc, group.len())?;
    for (block, content) in group {
        shared.push((block, SharedBlock::new(alloc, content)?))?;
    }
    Ok(shared)
}

/// Adds what an opening found.
pub(crate) fn push_group(
    list: &mut VecDeque<LogChange>,
    index: &mut Index,
    group: Vec<(BlockNo, SharedBlock)>,
)
    requires has_space { length list.old.items + length group.items ≤ deque_capacity list.old }
    requires names { length index.old.behind.items + length group.items ≤ deque_capacity index.old.behind }
    requires positions { index.old.start + (length list.old.items + length group.items) < 2 ^ 64 }
    requires homes { All (IsHomeOn (length index.old.newest.items)) (blocks_of group.items) }
    requires index { IsIndex index.old.start (numbers list.old.items) index.old.newest.items index.old.behind.items }
    ensures list { list.new.items ≡ list.old.items ++ changes_of 0 group.items }
    ensures start { index.new.start ≡ index.old.start }
    ensures table { length index.new.newest.items ≡ length index.old.newest.items }
    ensures index { IsIndex index.new.start (numbers list.new.items) index.new.newest.items index.new.behind.items }
{
    for (block, content) in group {
        index.track(list, block);
        list.push_back_reserved(LogChange {
            place: 0,
            block,
            content,
        });
    }
}

/// Lays the changes of the commit of a place into the tail that begins at an index.
pub(crate) fn absorb(
    list: &mut VecDeque<LogChange>,
    index: &mut Index,
    preceding: usize,
    place: u64,
    group: Vec<(BlockNo, SharedBlock)>,
)
    requires preceding { preceding ≤ length list.old.items }
    requires has_space { length list.old.items + length (new_blocks (changed_blocks (drop preceding list.old.items))
        (blocks_of group.items)) ≤ deque_capacity list.old }
    requires names { length index.old.behind.items + length (new_blocks (changed_blocks (drop preceding list.old.items))
        (blocks_of group.items)) ≤ deque_capacity index.old.behind }
    requires positions { index.old.start + (length list.old.items + length (new_blocks (changed_blocks
        (drop preceding list.old.items)) (blocks_of group.items))) < 2 ^ 64 }
    requires homes { All (IsHomeOn (length index.old.newest.items)) (blocks_of group.items) }
    requires index { IsIndex index.old.start (numbers list.old.items) index.old.newest.items index.old.behind.items }
    requires tail { AreOnce (changed_blocks (drop preceding list.old.items)) }
    requires once { AreOnce (blocks_of group.items) }
    ensures list { list.new.items ≡ take preceding list.old.items
        ++ tail_with (drop preceding list.old.items) place group.items }
    ensures start { index.new.start ≡ index.old.start }
    ensures table { length index.new.newest.items ≡ length index.old.newest.items }
    ensures index { IsIndex index.new.start (numbers list.new.items) index.new.newest.items index.new.behind.items }
{
    for (block, content) in group {
        absorb_change(list, index, preceding, place, block, content);
    }
}

// Lays one change into the tail that begins at an index: in place of the content of its block there, or behind all.
fn absorb_change(
    list: &mut VecDeque<LogChange>,
    index: &mut Index,
    preceding: usize,
    place: u64,
    block: BlockNo,
    content: SharedBlock,
)
    requires preceding { preceding ≤ length list.old.items }
    requires has_space { is_among block (changed_blocks (drop preceding list.old.items)) ≡ false
        → (length list.old.items < deque_capacity list.old)
        × (length index.old.behind.items < deque_capacity index.old.behind)
        × (index.old.start + length list.old.items + 1 < 2 ^ 64) }
    requires position { index.old.start + length list.old.items < 2 ^ 64 }
    requires home { block.0 < length index.old.newest.items }
    requires index { IsIndex index.old.start (numbers list.old.items) index.old.newest.items index.old.behind.items }
    ensures list { list.new.items ≡ absorbed_in preceding place block content list.old.items }
    ensures has_space { deque_capacity list.new ≡ deque_capacity list.old }
    ensures names { deque_capacity index.new.behind ≡ deque_capacity index.old.behind }
    ensures start { index.new.start ≡ index.old.start }
    ensures table { length index.new.newest.items ≡ length index.old.newest.items }
    ensures index { IsIndex index.new.start (numbers list.new.items) index.new.newest.items index.new.behind.items }
{
    let name = index.name_of(block);
    if index.start + (preceding as u64) < name {
        replace(list, (name - index.start - 1) as usize, content);
    } else {
        index.track(list, block);
        list.push_back_reserved(LogChange {
            place,
            block,
            content,
        });
    }
}

// Gives a change this content.
fn replace(list: &mut VecDeque<LogChange>, at: usize, content: SharedBlock)
    requires { at < length list.old.items }
    ensures list { list.new.items ≡ replaced list.old.items at content }
    ensures has_space { deque_capacity list.new ≡ deque_capacity list.old }
{
    list[at].content = content;
}
