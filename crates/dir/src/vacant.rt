//! Slots of directories in which no name lies.
ghost use Rattle.std.specs.Prelude.{◌≡◌, ◌+◌, ◌*◌, ◌<◌, ◌≤◌, ℕ, length, IfErr, IfOk};
ghost use Rattle.base.specs.declared.TheConstants.{BLOCK_BYTES, MOST_SPAN, SLOTS_PER_BLOCK};
ghost use Rattle.disk.specs.Crash.{Image};
ghost use Rattle.nfs_spec.specs.Model.Tree.{Tree};
ghost use Rattle.nfs_spec.specs.Procedures.Places.{least_free_slot};
ghost use Rattle.layout.specs.Decode.{directory_in, span_of};
ghost use Rattle.layout.specs.Parts.{content_in};
ghost use Rattle.inode.specs.Over.{IsResumable, MaySuspend};
ghost use Rattle.dir.specs.Slots.{IsDirectoryOf, block_slot, slot_at};
ghost use Rattle.dir.specs.Vacant.{IsFirstFree};
ghost use Rattle.inode.specs.Asked.{IsNeededAt, IsSuspendFor};
ghost use Rattle.dir.specs.Asked.{IsNeededBehind, TakenBefore};

use crate::span::{directory_block, span_of};
use base::{MOST_SPAN, SLOTS_PER_BLOCK};
use inode::{Snap, Suspend};
use layout::{Inode, Slot};

// The first free slot of a block, where the block's slots are numbered from one on.
fn free_in_block(block: &[u8], first: u32) -> Option<u32>
    requires len { length block.now ≡ BLOCK_BYTES }
    requires small { first + SLOTS_PER_BLOCK ≤ SLOTS_PER_BLOCK * MOST_SPAN }
    ensures { (inodes : ℕ)
        → IsFirstFree (block_slot inodes first block.now) first (first + SLOTS_PER_BLOCK) result }
{
    'slots: for slot in first..first + SLOTS_PER_BLOCK {
        if Slot::is_free(Slot::bytes_in(block, slot - first)) {
            return Some(slot);
        }
    }
    None
}

// The first free slot of those in the block at an index.
fn free_at(snap: &Snap, inode: &Inode, index: usize) -> Result<Option<u32>, Suspend>
    requires { index < MOST_SPAN }
    ensures ok { IfOk result (λ free. (blocks : Image) (tree : Tree) (file : ℕ)
        → IsDirectoryOf snap.now blocks tree file inode.now → index < span_of inode.now
        → IsFirstFree (slot_at snap.now.geometry.inodes (content_in snap.now.geometry blocks) inode.now)
        (SLOTS_PER_BLOCK * index) (SLOTS_PER_BLOCK * index + SLOTS_PER_BLOCK) free) }
    ensures err { IfErr result (λ suspend. MaySuspend snap.now suspend) }
    ensures asks { IfErr result (λ suspend. IsSuspendFor (IsNeededAt snap.now inode.now index) suspend) }
    ensures resumable { IfErr result (λ suspend. (blocks : Image) (tree : Tree) (file : ℕ)
        → IsDirectoryOf snap.now blocks tree file inode.now → index < span_of inode.now → IsResumable suspend) }
{
    match directory_block(snap, inode, index) {
        Ok(block) => Ok(free_in_block(block, SLOTS_PER_BLOCK * index as u32)),
        Err(suspend) => Err(suspend),
    }
}

/// The least slot of a directory in which no name lies, of all that one may ever have.
pub fn free_slot(snap: &Snap, inode: &Inode) -> Result<Option<u32>, Suspend>
    ensures ok { IfOk result (λ free. (blocks : Image) (tree : Tree) (file : ℕ)
        → IsDirectoryOf snap.now blocks tree file inode.now
        → free ≡ least_free_slot (directory_in snap.now.geometry.inodes (content_in snap.now.geometry blocks)
        inode.now)) }
    ensures err { IfErr result (λ suspend. MaySuspend snap.now suspend) }
    ensures asks { IfErr result (λ suspend. IsSuspendFor (IsNeededBehind TakenBefore snap.now inode.now) suspend) }
    ensures resumable { IfErr result (λ suspend. (blocks : Image) (tree : Tree) (file : ℕ)
        → IsDirectoryOf snap.now blocks tree file inode.now → IsResumable suspend) }
{
    let Some(span) = span_of(inode) else {
        return Err(Suspend::Io);
    };
    'indexes: for index in 0..span {
        match free_at(snap, inode, index)? {
            Some(slot) => return Ok(Some(slot)),
            None => {}
        }
    }
    if span < MOST_SPAN {
        return Ok(Some(SLOTS_PER_BLOCK * span as u32));
    }
    Ok(None)
}
