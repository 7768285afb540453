//! The names of a directory, by their slots.
ghost use Rattle.std.specs.Prelude.{◌≡◌, ◌+◌, ◌*◌, ◌<◌, ◌≤◌, ℕ, IfErr, IfOk, IfSome};
ghost use Rattle.base.specs.declared.TheConstants.{MOST_SPAN, SLOTS_PER_BLOCK};
ghost use Rattle.disk.specs.Crash.{Image};
ghost use Rattle.nfs_spec.specs.Model.Tree.{Tree};
ghost use Rattle.layout.specs.Decode.{span_of};
ghost use Rattle.layout.specs.Parts.{content_in};
ghost use Rattle.inode.specs.Over.{IsResumable, MaySuspend};
ghost use Rattle.dir.specs.Slots.{IsDirectoryOf, IsNext, slot_at};
ghost use Rattle.inode.specs.Asked.{IsNeededAt, MaySuspendFor};
ghost use Rattle.dir.specs.Asked.{FreeBefore, IsNeededBehind};

use crate::block::next_in_block;
use crate::span::{directory_block, span_of};
use base::SLOTS_PER_BLOCK;
use inode::{Snap, Suspend};
use layout::Inode;
use procs_files::SlotName;
use std::alloc::Global;

// The later one of a slot and the first of a block.
fn later(from: u32, first: u32) -> u32
    ensures from { from ≤ result }
    ensures first { first ≤ result }
    ensures least { (slot : ℕ) → from ≤ slot → first ≤ slot → result ≤ slot }
{
    if from < first { first } else { from }
}

// The first slot from one on in which a name lies, of those in the block at an index.
fn next_at(
    alloc: Global,
    snap: &Snap,
    inode: &Inode,
    index: usize,
    from: u32,
) -> Result<Option<SlotName>, Suspend>
    requires index { index < MOST_SPAN }
    requires from { SLOTS_PER_BLOCK * index ≤ from }
    ensures ok { IfOk result (λ found. (blocks : Image) (tree : Tree) (file : ℕ)
        → IsDirectoryOf snap.now blocks tree file inode.now → index < span_of inode.now
        → IsNext (slot_at snap.now.geometry.inodes (content_in snap.now.geometry blocks) inode.now) from
        (SLOTS_PER_BLOCK * index + SLOTS_PER_BLOCK) found) }
    ensures past { IfOk result (λ found. IfSome found (λ named. from ≤ named.slot)) }
    ensures err { IfErr result (λ suspend. MaySuspend snap.now suspend) }
    ensures asks { IfErr result (λ suspend. MaySuspendFor (IsNeededAt snap.now inode.now index) suspend) }
    ensures resumable { IfErr result (λ suspend. (blocks : Image) (tree : Tree) (file : ℕ)
        → IsDirectoryOf snap.now blocks tree file inode.now → index < span_of inode.now → IsResumable suspend) }
{
    let block = directory_block(snap, inode, index)?;
    match next_in_block(
        alloc,
        snap.geometry.inodes,
        block,
        SLOTS_PER_BLOCK * index as u32,
        from,
    )? {
        Ok(found) => Ok(found),
        Err(_) => Err(Suspend::Io),
    }
}

// The first slot from one on in which a name lies, of a directory of so many blocks.
fn next_below(
    alloc: Global,
    snap: &Snap,
    inode: &Inode,
    span: usize,
    from: u32,
) -> Result<Option<SlotName>, Suspend>
    requires few { span ≤ MOST_SPAN }
    requires spans { span ≡ span_of inode.now }
    ensures ok { IfOk result (λ found. (blocks : Image) (tree : Tree) (file : ℕ)
        → IsDirectoryOf snap.now blocks tree file inode.now
        → IsNext (slot_at snap.now.geometry.inodes (content_in snap.now.geometry blocks) inode.now) from
        (SLOTS_PER_BLOCK * span) found) }
    ensures past { IfOk result (λ found. IfSome found (λ named. from ≤ named.slot)) }
    ensures err { IfErr result (λ suspend. MaySuspend snap.now suspend) }
    ensures asks { IfErr result (λ suspend. MaySuspendFor (IsNeededBehind (FreeBefore from) snap.now inode.now) suspend) }
    ensures resumable { IfErr result (λ suspend. (blocks : Image) (tree : Tree) (file : ℕ)
        → IsDirectoryOf snap.now blocks tree file inode.now → IsResumable suspend) }
{
    'indexes: for index in (from / SLOTS_PER_BLOCK) as usize..span {
        let start = later(from, SLOTS_PER_BLOCK * index as u32);
        match next_at(alloc, snap, inode, index, start)? {
            Some(named) => return Ok(Some(named)),
            None => {}
        }
    }
    Ok(None)
}

/// The first name of a directory in this slot or past it.
pub fn next_name(
    alloc: Global,
    snap: &Snap,
    inode: &Inode,
    from: u64,
) -> Result<Option<SlotName>, Suspend>
    ensures ok { IfOk result (λ found. (blocks : Image) (tree : Tree) (file : ℕ)
        → IsDirectoryOf snap.now blocks tree file inode.now
        → IsNext (slot_at snap.now.geometry.inodes (content_in snap.now.geometry blocks) inode.now) from
        (SLOTS_PER_BLOCK * span_of inode.now) found) }
    ensures past { IfOk result (λ found. IfSome found (λ named. from ≤ named.slot)) }
    ensures err { IfErr result (λ suspend. MaySuspend snap.now suspend) }
    ensures asks { IfErr result (λ suspend. MaySuspendFor (IsNeededBehind (FreeBefore from) snap.now inode.now) suspend) }
    ensures resumable { IfErr result (λ suspend. (blocks : Image) (tree : Tree) (file : ℕ)
        → IsDirectoryOf snap.now blocks tree file inode.now → IsResumable suspend) }
{
    let Some(span) = span_of(inode) else {
        return Err(Suspend::Io);
    };
    if from >= SLOTS_PER_BLOCK as u64 * span as u64 {
        return Ok(None);
    }
    next_below(alloc, snap, inode, span, from as u32)
}
