//! Slots of a directory that were found free, so that a position doesn't look at them again. Nothing is claimed of it.
ghost use Rattle.base.specs.declared.TheConstants.{FILE_INDEXES, MOST_SPAN};

use base::{MOST_SPAN, SLOTS_PER_BLOCK};
use inode::{Snap, ask_block};
use layout::Inode;

/// Where a search for names goes on, which from this slot on found none before it lacked a block: at that block.
pub(crate) fn behind_free_slots(snap: &Snap, directory: &Inode, from: u64) -> u64 {
    let first = (from / SLOTS_PER_BLOCK as u64) as usize;
    'blocks: for index in first..MOST_SPAN {
        if ask_block(snap, directory, index).is_err() {
            return from.max(index as u64 * SLOTS_PER_BLOCK as u64);
        }
    }
    from
}
