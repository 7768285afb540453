//! Blocks that are taken for a file.
ghost use Rattle.std.specs.Prelude.{ℕ, ◌≡◌, ◌≤◌, List, Some, true, IfErr, IfNone, IfOk, IfSome, OnOk};
ghost use Rattle.disk.specs.Crash.{Image};
ghost use Rattle.layout.specs.Places.{is_data};
ghost use Rattle.nfs_spec.specs.Model.Tree.{Tree};
ghost use Rattle.inode.specs.Over.{IsResumable, MaySuspend};
ghost use Rattle.inode.specs.WriteSets.WriteSetContents.{Shows, fresh, image_of, dirty_count};
ghost use Rattle.bitmap.specs.Bits.{MarksBlock};
ghost use Rattle.bitmap.specs.NewBlock.{HasTaken, TakesNext};

use crate::free_search::new_block;
use crate::mark::mark_block;
use disk::BlockNo;
use inode::{Suspend, WriteSet};
use std::alloc::Global;

// Marks a free block as used, once it was claimed.
fn mark_claimed(
    alloc: Global,
    write_set: &mut WriteSet,
    number: u32,
) -> Result<Option<u32>, Suspend>
    requires { is_data write_set.old.there.geometry number ≡ true }
    ensures is { IfOk result (λ found. found ≡ Some number) }
    ensures shows { OnOk result ((blocks : Image) → Shows write_set.old (image_of blocks write_set.old)
        → Shows write_set.new (image_of blocks write_set.new)) }
    ensures marks { OnOk result ((blocks : Image) → Shows write_set.old (image_of blocks write_set.old)
        → MarksBlock write_set.old.there.geometry number true (image_of blocks write_set.old)
        (image_of blocks write_set.new)) }
    ensures seen { write_set.new.seen ≡ write_set.old.seen }
    ensures geometry { write_set.new.there.geometry ≡ write_set.old.there.geometry }
    ensures dirty_count { dirty_count write_set.new ≤ dirty_count write_set.old }
    ensures stays { (block offset len : ℕ) → fresh block offset len write_set.new ≤ fresh block offset len write_set.old }
    ensures err { IfErr result (λ suspend. MaySuspend write_set.old.seen suspend) }
    ensures resumable { IfErr result (λ suspend. IsResumable suspend) }
{
    if !write_set.there().has_claim(BlockNo(number)) {
        return Err(Suspend::Claim(BlockNo(number)));
    }
    match mark_block(alloc, write_set, number, true) {
        Ok(()) => Ok(Some(number)),
        Err(suspend) => Err(suspend),
    }
}

/// Takes a free block for a file: it is claimed, so that it may be put as a whole, and marked as used. There is
/// none only where all that were free are taken, and then nothing is done.
pub fn take_block(alloc: Global, write_set: &mut WriteSet) -> Result<Option<u32>, Suspend>
    ensures ok { IfOk result (λ found. (blocks base : Image) (tree : Tree) (taken : List ℕ)
        → Shows write_set.old (image_of blocks write_set.old)
        → HasTaken write_set.old.there.geometry base tree taken (image_of blocks write_set.old)
        → TakesNext write_set.old.there.geometry base tree taken (image_of blocks write_set.new) found) }
    ensures shows { OnOk result ((blocks : Image) → Shows write_set.old (image_of blocks write_set.old)
        → Shows write_set.new (image_of blocks write_set.new)) }
    ensures none { IfOk result (λ found. IfNone found (write_set.new ≡ write_set.old)) }
    ensures lies { IfOk result
        (λ found. IfSome found (λ number. is_data write_set.old.there.geometry number ≡ true)) }
    ensures seen { write_set.new.seen ≡ write_set.old.seen }
    ensures geometry { write_set.new.there.geometry ≡ write_set.old.there.geometry }
    ensures dirty_count { dirty_count write_set.new ≤ dirty_count write_set.old }
    ensures stays { (block offset len : ℕ) → fresh block offset len write_set.new ≤ fresh block offset len write_set.old }
    ensures err { IfErr result (λ suspend. MaySuspend write_set.old.seen suspend) }
    ensures resumable { IfErr result (λ suspend. (blocks base : Image) (tree : Tree) (taken : List ℕ)
        → Shows write_set.old (image_of blocks write_set.old)
        → HasTaken write_set.old.there.geometry base tree taken (image_of blocks write_set.old) → IsResumable suspend) }
{
    match new_block(write_set.there()) {
        Ok(Some(number)) => mark_claimed(alloc, write_set, number),
        Ok(None) => Ok(None),
        Err(suspend) => Err(suspend),
    }
}
