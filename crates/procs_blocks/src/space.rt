//! How much is free.
ghost use Rattle.std.specs.Prelude.{◌≡◌, nat_le, IfErr, IfOk};
ghost use Rattle.disk.specs.Crash.{Image};
ghost use Rattle.nfs_spec.specs.Model.Tree.{Tree, free};
ghost use Rattle.nfs_spec.specs.Procedures.Fresh.{IsNewNumber};
ghost use Rattle.nfs_spec.specs.Procedures.FsStat.{unused_numbers};
ghost use Rattle.inode.specs.Over.{IsOver, IsResumable, MaySuspend};

use bitmap::{are_enough_free, free_blocks, free_numbers, new_number};
use inode::{Snap, Suspend};

/// The data blocks that no file uses.
pub(crate) fn blocks_left(snap: &Snap) -> Result<u32, Suspend>
    ensures ok { IfOk result (λ left. (blocks : Image) (tree : Tree) → IsOver snap.now blocks tree
        → left ≡ free tree) }
    ensures err { IfErr result (λ suspend. MaySuspend snap.now suspend) }
    ensures resumable { IfErr result (λ suspend. (blocks : Image) (tree : Tree) → IsOver snap.now blocks tree
        → IsResumable suspend) }
{
    free_blocks(snap)
}

/// How many numbers no file has.
pub(crate) fn numbers_left(snap: &Snap) -> Result<u32, Suspend>
    ensures ok { IfOk result (λ left. (blocks : Image) (tree : Tree) → IsOver snap.now blocks tree
        → left ≡ unused_numbers tree) }
    ensures err { IfErr result (λ suspend. MaySuspend snap.now suspend) }
    ensures resumable { IfErr result (λ suspend. (blocks : Image) (tree : Tree) → IsOver snap.now blocks tree
        → IsResumable suspend) }
{
    free_numbers(snap)
}

/// A number that a file may have and none has.
pub(crate) fn unused_number(snap: &Snap) -> Result<Option<u32>, Suspend>
    ensures ok { IfOk result (λ number. (blocks : Image) (tree : Tree) → IsOver snap.now blocks tree
        → IsNewNumber tree number) }
    ensures err { IfErr result (λ suspend. MaySuspend snap.now suspend) }
    ensures resumable { IfErr result (λ suspend. (blocks : Image) (tree : Tree) → IsOver snap.now blocks tree
        → IsResumable suspend) }
{
    new_number(snap)
}

/// Whether so many data blocks are free.
pub(crate) fn are_enough_free_for(snap: &Snap, wanted: u32) -> Result<bool, Suspend>
    ensures ok { IfOk result (λ is. (blocks : Image) (tree : Tree) → IsOver snap.now blocks tree
        → is ≡ nat_le wanted (free tree)) }
    ensures err { IfErr result (λ suspend. MaySuspend snap.now suspend) }
    ensures resumable { IfErr result (λ suspend. (blocks : Image) (tree : Tree) → IsOver snap.now blocks tree
        → IsResumable suspend) }
{
    are_enough_free(snap, wanted)
}
