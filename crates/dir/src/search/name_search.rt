//! A name that is looked for.
ghost use Rattle.std.specs.Prelude.{◌≡◌, ◌+◌, ◌*◌, ◌^◌, ◌<◌, ◌≤◌, IfErr};
ghost use Rattle.base.specs.declared.TheConstants.{MOST_SPAN, SLOTS_PER_BLOCK};
ghost use Rattle.inode.specs.Over.{MaySuspend};
ghost use Rattle.dir.specs.SearchCursor.{IsSearchCursor};

use crate::{SearchCursor, go_on};
use inode::{Snap, Suspend, inode_of};
use layout::InodeKind;

/// Looks for a name, as far as its directory and blocks of it were read, and stops for the next block.
pub(crate) fn search(
    snap: &Snap,
    cursor: &mut SearchCursor,
    compared: &mut u64,
) -> Result<(), Suspend>
    requires no_overflow { compared.old + SLOTS_PER_BLOCK * MOST_SPAN < 2 ^ 64 }
    ensures knows { IsSearchCursor snap.now cursor.old → IsSearchCursor snap.now cursor.new }
    ensures directory { cursor.new.directory ≡ cursor.old.directory }
    ensures name { cursor.new.name ≡ cursor.old.name }
    ensures few { cursor.old.blocks ≤ MOST_SPAN → cursor.new.blocks ≤ MOST_SPAN }
    ensures count { compared.new + SLOTS_PER_BLOCK * cursor.old.blocks
        ≤ compared.old + SLOTS_PER_BLOCK * cursor.new.blocks }
    ensures none { cursor.old.directory ≡ 0 → cursor.new ≡ cursor.old }
    ensures err { IfErr result (λ suspend. MaySuspend snap.now suspend) }
{
    if cursor.directory == 0 || cursor.directory >= snap.geometry.inodes {
        return Ok(());
    }
    if cursor.found.is_some() {
        return Ok(());
    }
    match inode_of(snap, cursor.directory) {
        Ok(Some(inode)) => match inode.kind {
            InodeKind::Directory => go_on(snap, &inode, cursor, compared),
            InodeKind::Regular | InodeKind::Link => Ok(()),
        },
        Ok(None) => Ok(()),
        Err(_) => Ok(()),
    }
}
