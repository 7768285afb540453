//! A slot of a directory that gets other bytes.
ghost use Rattle.std.specs.Prelude.{◌≡◌, ◌+◌, ◌*◌, ◌<◌, ◌≤◌, ℕ, length, true, IfErr, IfOk, OnOk};
ghost use Rattle.base.specs.declared.TheConstants.{BLOCK_BYTES, SLOTS_PER_BLOCK};
ghost use Rattle.disk.specs.Crash.{Image};
ghost use Rattle.nfs_spec.specs.Model.Tree.{Tree};
ghost use Rattle.layout.specs.declared.slot.TheConstants.{SLOT_BYTES};
ghost use Rattle.layout.specs.Decode.{span_of};
ghost use Rattle.layout.specs.Parts.{content_in};
ghost use Rattle.layout.specs.Places.{is_data};
ghost use Rattle.inode.specs.Over.{IsResumable, MaySuspend};
ghost use Rattle.dir.specs.Slots.{IsDirectoryOf};
ghost use Rattle.inode.specs.WriteSets.WriteSetContents.{IsWriteSet, Shows, image_of, dirty_count};
ghost use Rattle.dir_writes.specs.SlotWrites.{IsSlotted, IsSlottedIn};

use base::{MOST_SPAN, SLOTS_PER_BLOCK};
use disk::BlockNo;
use inode::{Snap, Suspend, WriteSet, block_number, data_block};
use layout::Inode;
use layout_records::with_slot;
use objects::Addr;
use std::alloc::Global;

// The block of a directory in which a slot lies, and its bytes with these in the slot.
fn slotted_block(
    alloc: Global,
    snap: &Snap,
    inode: &Inode,
    slot: u32,
    bytes: &[u8],
) -> Result<(u32, Vec<u8>), Suspend>
    requires { length bytes.now ≡ SLOT_BYTES }
    ensures data { IfOk result (λ made. is_data snap.now.geometry made.0 ≡ true) }
    ensures len { IfOk result (λ made. length made.1.items ≡ BLOCK_BYTES) }
    ensures ok { IfOk result (λ made. (blocks : Image) (tree : Tree) (file : ℕ)
        → IsDirectoryOf snap.now blocks tree file inode.now → slot < SLOTS_PER_BLOCK * span_of inode.now
        → IsSlotted (content_in snap.now.geometry blocks) inode.now slot bytes.now made.0 made.1.items) }
    ensures err { IfErr result (λ suspend. MaySuspend snap.now suspend) }
    ensures resumable { IfErr result (λ suspend. (blocks : Image) (tree : Tree) (file : ℕ)
        → IsDirectoryOf snap.now blocks tree file inode.now → slot < SLOTS_PER_BLOCK * span_of inode.now
        → IsResumable suspend) }
{
    let index = (slot / SLOTS_PER_BLOCK) as usize;
    if index >= MOST_SPAN {
        return Err(Suspend::Io);
    }
    let number = match block_number(snap, inode, index) {
        Ok(number) => number,
        Err(suspend) => return Err(suspend),
    };
    if number == 0 {
        return Err(Suspend::Io);
    }
    match data_block(snap, number) {
        Ok(block) => Ok((
            number,
            with_slot(alloc, block, slot % SLOTS_PER_BLOCK, bytes)?,
        )),
        Err(suspend) => Err(suspend),
    }
}

/// Gives a slot of a directory these bytes.
pub(crate) fn put_slot(
    alloc: Global,
    write_set: &mut WriteSet,
    inode: &Inode,
    slot: u32,
    bytes: &[u8],
) -> Result<(), Suspend>
    requires { length bytes.now ≡ SLOT_BYTES }
    ensures ok { OnOk result ((blocks : Image) (tree : Tree) (file : ℕ) → IsWriteSet write_set.old blocks tree
        → IsDirectoryOf write_set.old.there (image_of blocks write_set.old) tree file inode.now
        → slot < SLOTS_PER_BLOCK * span_of inode.now
        → Shows write_set.new (image_of blocks write_set.new)
        × IsSlottedIn write_set.old.there.geometry inode.now slot bytes.now (image_of blocks write_set.old)
        (image_of blocks write_set.new)) }
    ensures seen { write_set.new.seen ≡ write_set.old.seen }
    ensures geometry { write_set.new.there.geometry ≡ write_set.old.there.geometry }
    ensures dirty_count { dirty_count write_set.new ≤ dirty_count write_set.old + 1 }
    ensures err { IfErr result (λ suspend. MaySuspend write_set.old.seen suspend) }
    ensures resumable { IfErr result (λ suspend. (blocks : Image) (tree : Tree) (file : ℕ)
        → IsWriteSet write_set.old blocks tree
        → IsDirectoryOf write_set.old.there (image_of blocks write_set.old) tree file inode.now
        → slot < SLOTS_PER_BLOCK * span_of inode.now → IsResumable suspend) }
{
    match slotted_block(alloc, write_set.there(), inode, slot, bytes) {
        Ok((number, block)) => {
            write_set.put(Addr::whole(BlockNo(number)), block)?;
            Ok(())
        }
        Err(suspend) => Err(suspend),
    }
}
