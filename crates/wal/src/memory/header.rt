//! The header of the log, as the memory log knows it.
ghost use Rattle.std.specs.Prelude.{◌≡◌, ◌≤◌, ◌<◌, ◌+◌, ◌^◌, length, take};
ghost use Rattle.base.specs.declared.TheConstants.{LOG_SLOTS};
ghost use Rattle.circ.specs.Log.Logger.{IsHeader};

use crate::LogChange;
use base::LOG_SLOTS;
use circ::{put_address, put_end};
use disk::Block;
use std::collections::VecDeque;

// Makes the content the header of the positions from the start on that the first of these changes take.
pub(super) fn put_header(
    content: &mut Block,
    start: u64,
    changes: &VecDeque<LogChange>,
    count: usize,
)
    requires count { count ≤ length changes.now.items }
    requires slots { count ≤ LOG_SLOTS }
    requires positions { start + count < 2 ^ 64 }
    ensures { IsHeader content.new start (take count changes.now.items) }
{
    put_end(content, start + count as u64);
    for i in 0..count {
        let position = start + i as u64;
        let home = changes[i].block;
        put_address(content, position % LOG_SLOTS, home);
    }
}
