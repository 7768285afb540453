//! The slot of a name.
ghost use Rattle.std.specs.Prelude.{◌≡◌, ◌+◌, ◌-◌, ◌*◌, ◌<◌, ◌≤◌, ℕ, IfErr, IfOk, IfSome, Some};
ghost use Rattle.std.specs.FinMap.{get};
ghost use Rattle.std.specs.Option.{option_map};
ghost use Rattle.base.specs.declared.TheConstants.{MOST_SPAN, SLOTS_PER_BLOCK};
ghost use Rattle.disk.specs.Crash.{Image};
ghost use Rattle.nfs_spec.specs.Model.Tree.{Tree};
ghost use Rattle.layout.specs.Decode.{entries_in, span_of};
ghost use Rattle.layout.specs.Parts.{content_in};
ghost use Rattle.inode.specs.Over.{IsResumable, MaySuspend};
ghost use Rattle.dir.specs.Slots.{IsDirectoryOf, IsFound, slot_at};
ghost use Rattle.procs_files.specs.Heads.{dirent_of};
ghost use Rattle.inode.specs.Asked.{IsNeededAt, IsReadAt, IsSuspendFor};
ghost use Rattle.dir.specs.Asked.{IsNeededBehind, LackBefore, StopsAt};

use crate::block::find_in_block;
use crate::span::{directory_block, span_of};
use base::SLOTS_PER_BLOCK;
use inode::{Snap, Suspend};
use layout::Inode;
use procs_files::SlotDirent;

// A slot that has a name, of those in the block at an index.
fn find_at(
    snap: &Snap,
    inode: &Inode,
    index: usize,
    name: &[u8],
) -> Result<Option<SlotDirent>, Suspend>
    requires { index < MOST_SPAN }
    ensures ok { IfOk result (λ found. (blocks : Image) (tree : Tree) (file : ℕ)
        → IsDirectoryOf snap.now blocks tree file inode.now → index < span_of inode.now
        → IsFound (slot_at snap.now.geometry.inodes (content_in snap.now.geometry blocks) inode.now) name.now
        (SLOTS_PER_BLOCK * index) (SLOTS_PER_BLOCK * index + SLOTS_PER_BLOCK) found) }
    ensures err { IfErr result (λ suspend. MaySuspend snap.now suspend) }
    ensures asks { IfErr result (λ suspend. IsSuspendFor (IsNeededAt snap.now inode.now index) suspend) }
    ensures resumable { IfErr result (λ suspend. (blocks : Image) (tree : Tree) (file : ℕ)
        → IsDirectoryOf snap.now blocks tree file inode.now → index < span_of inode.now → IsResumable suspend) }
{
    let block = directory_block(snap, inode, index)?;
    let mut compared = 0;
    let first = SLOTS_PER_BLOCK * index as u32;
    let scanned = find_in_block(snap.geometry.inodes, block, first, name, &mut compared);
    Ok(scanned.found)
}

// How many of a directory's first blocks were read, as it seems: the last of them was, and the one behind them
// wasn't, where there are any.
fn reached(snap: &Snap, inode: &Inode, span: usize) -> usize
    requires { span ≤ MOST_SPAN }
    ensures few { result ≤ span }
    ensures last { 0 < result → IsReadAt snap.now inode.now (result - 1) }
    ensures next { result < span → StopsAt snap.now inode.now result }
{
    let mut least = 0;
    let mut most = span;
    'halves: while least < most {
        let middle = least + (most - least) / 2;
        match directory_block(snap, inode, middle) {
            Ok(_) => least = middle + 1,
            Err(_) => most = middle,
        }
    }
    least
}

// A slot that has a name, of those in the block before an index.
fn find_last(
    snap: &Snap,
    inode: &Inode,
    index: usize,
    name: &[u8],
) -> Result<Option<SlotDirent>, Suspend>
    requires { index < MOST_SPAN }
    ensures ok { IfOk result (λ found. (blocks : Image) (tree : Tree) (file : ℕ)
        → IsDirectoryOf snap.now blocks tree file inode.now → index < span_of inode.now
        → IsFound (slot_at snap.now.geometry.inodes (content_in snap.now.geometry blocks) inode.now) name.now
        (SLOTS_PER_BLOCK * (index - 1)) (SLOTS_PER_BLOCK * index) found) }
    ensures err { IfErr result (λ suspend. MaySuspend snap.now suspend) }
{
    if index == 0 {
        return Ok(None);
    }
    find_at(snap, inode, index - 1, name)
}

// What a name leads to, where it lies in the block before an index, which was read last, and the next one wasn't
// read. For this one it stops.
fn find_before(
    snap: &Snap,
    inode: &Inode,
    index: usize,
    name: &[u8],
) -> Result<Option<SlotDirent>, Suspend>
    requires { index < MOST_SPAN }
    ensures ok { IfOk result (λ found. (blocks : Image) (tree : Tree) (file : ℕ)
        → IsDirectoryOf snap.now blocks tree file inode.now → index < span_of inode.now
        → IfSome found (λ search_hit. IsFound (slot_at snap.now.geometry.inodes (content_in snap.now.geometry blocks)
        inode.now) name.now 0 (SLOTS_PER_BLOCK * span_of inode.now) (Some search_hit))) }
    ensures err { IfErr result (λ suspend. MaySuspend snap.now suspend) }
    ensures asks { IfErr result (λ suspend. index < span_of inode.now
        → IsSuspendFor (IsNeededBehind (LackBefore name.now) snap.now inode.now) suspend) }
    ensures resumable { IfErr result (λ suspend. (blocks : Image) (tree : Tree) (file : ℕ)
        → IsDirectoryOf snap.now blocks tree file inode.now → index < span_of inode.now → IsResumable suspend) }
{
    match find_last(snap, inode, index, name) {
        Ok(Some(search_hit)) => Ok(Some(search_hit)),
        Ok(None) => match directory_block(snap, inode, index) {
            Ok(_) => Ok(None),
            Err(suspend) => Err(suspend),
        },
        // It was read, so this doesn't come.
        Err(_) => Ok(None),
    }
}

// What a name leads to, by a look at all slots.
fn find_among(
    snap: &Snap,
    inode: &Inode,
    span: usize,
    name: &[u8],
) -> Result<Option<SlotDirent>, Suspend>
    requires few { span ≤ MOST_SPAN }
    requires spans { span ≡ span_of inode.now }
    ensures ok { IfOk result (λ found. (blocks : Image) (tree : Tree) (file : ℕ)
        → IsDirectoryOf snap.now blocks tree file inode.now
        → IsFound (slot_at snap.now.geometry.inodes (content_in snap.now.geometry blocks) inode.now) name.now 0
        (SLOTS_PER_BLOCK * span_of inode.now) found) }
    ensures err { IfErr result (λ suspend. MaySuspend snap.now suspend) }
    ensures asks { IfErr result (λ suspend. IsSuspendFor (IsNeededBehind (LackBefore name.now) snap.now inode.now) suspend) }
    ensures resumable { IfErr result (λ suspend. (blocks : Image) (tree : Tree) (file : ℕ)
        → IsDirectoryOf snap.now blocks tree file inode.now → IsResumable suspend) }
{
    'indexes: for index in 0..span {
        match find_at(snap, inode, index, name)? {
            Some(search_hit) => return Ok(Some(search_hit)),
            None => {}
        }
    }
    Ok(None)
}

/// What a name in a directory leads to, and where it lies. Where a block wasn't read, only the one before it is
/// looked at, as those before that were when it wasn't read itself.
pub fn find(snap: &Snap, inode: &Inode, name: &[u8]) -> Result<Option<SlotDirent>, Suspend>
    ensures ok { IfOk result (λ found. (blocks : Image) (tree : Tree) (file : ℕ)
        → IsDirectoryOf snap.now blocks tree file inode.now
        → option_map dirent_of found
        ≡ get (entries_in snap.now.geometry.inodes (content_in snap.now.geometry blocks) inode.now) name.now) }
    ensures err { IfErr result (λ suspend. MaySuspend snap.now suspend) }
    ensures asks { IfErr result (λ suspend. IsSuspendFor (IsNeededBehind (LackBefore name.now) snap.now inode.now) suspend) }
    ensures resumable { IfErr result (λ suspend. (blocks : Image) (tree : Tree) (file : ℕ)
        → IsDirectoryOf snap.now blocks tree file inode.now → IsResumable suspend) }
{
    let Some(span) = span_of(inode) else {
        return Err(Suspend::Io);
    };
    let index = reached(snap, inode, span);
    if index < span {
        match find_before(snap, inode, index, name)? {
            Some(search_hit) => return Ok(Some(search_hit)),
            None => {}
        }
    }
    find_among(snap, inode, span, name)
}
