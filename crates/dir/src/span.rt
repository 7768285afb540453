//! The blocks that a directory spans.
ghost use Rattle.std.specs.Prelude.{◌≡◌, ◌+◌, ◌*◌, ◌<◌, ◌≤◌, ℕ, cond, length, nat_lt, IfErr, IfNone, IfOk, IfSome};
ghost use Rattle.base.specs.declared.TheConstants.{BLOCK_BYTES, DIRECT_INDEXES, MOST_SPAN, SLOTS_PER_BLOCK};
ghost use Rattle.disk.specs.Crash.{Image};
ghost use Rattle.nfs_spec.specs.Model.Tree.{Tree};
ghost use Rattle.layout.specs.Decode.{span_of};
ghost use Rattle.layout.specs.Parts.{content_in};
ghost use Rattle.inode.specs.declared.snap.Snap.{Snap};
ghost use Rattle.inode.specs.Over.{IsResumable, MaySuspend};
ghost use Rattle.inode.specs.Shown.{IsShown, body_in};
ghost use Rattle.inode.specs.Read.{Saw};
ghost use Rattle.dir.specs.Slots.{HasBlockAt, IsDirectoryOf, block_slot, slot_at};
ghost use Rattle.inode.specs.Asked.{IsNeededAt, IsReadAt, IsSuspendFor};

use base::{BLOCK_BYTES, DIRECT_INDEXES, LARGEST_DIRECTORY};
use inode::{Snap, Suspend, block_number, data_block};
use layout::Inode;

/// How many blocks a directory spans: None where it is larger than one may be.
pub(crate) fn span_of(inode: &Inode) -> Option<usize>
    ensures few { IfSome result (λ span. span ≤ MOST_SPAN) }
    ensures some { IfSome result (λ span. span ≡ span_of inode.now) }
    ensures none { IfNone result ((snap : Snap) (blocks : Image) (tree : Tree) (file : ℕ)
        → IsDirectoryOf snap blocks tree file inode.now → ⊥) }
{
    if inode.size > LARGEST_DIRECTORY {
        return None;
    }
    Some((inode.size / BLOCK_BYTES as u64) as usize)
}

/// How many blocks a directory uses: those that it spans, and its indirect block where it needs one. None where it
/// is larger than one may be.
pub fn used_of_directory(inode: &Inode) -> Option<u32>
    ensures few { IfSome result (λ used. used ≤ MOST_SPAN + 1) }
    ensures some { IfSome result (λ used. (snap : Snap) (blocks : Image) (tree : Tree) (file : ℕ)
        → IsDirectoryOf snap blocks tree file inode.now
        → IsShown inode.now used (body_in snap.geometry blocks inode.now)) }
    ensures none { IfNone result ((snap : Snap) (blocks : Image) (tree : Tree) (file : ℕ)
        → IsDirectoryOf snap blocks tree file inode.now → ⊥) }
{
    match span_of(inode) {
        Some(span) => Some(with_indirect(span as u32)),
        None => None,
    }
}

// So many blocks, and an indirect one where an inode doesn't name them all.
fn with_indirect(span: u32) -> u32
    requires { span ≤ MOST_SPAN }
    ensures { result ≡ span + cond (nat_lt DIRECT_INDEXES span) 1 0 }
{
    if (span as usize) > DIRECT_INDEXES {
        span + 1
    } else {
        span
    }
}

/// The block at an index of a directory.
pub(crate) fn directory_block<'a>(
    snap: &'a Snap,
    inode: &Inode,
    index: usize,
) -> Result<&'a [u8], Suspend>
    requires { index < MOST_SPAN }
    ensures len { IfOk result (λ block. length block.now ≡ BLOCK_BYTES) }
    ensures ok { IfOk result (λ block. (blocks : Image) (tree : Tree) (file : ℕ)
        → IsDirectoryOf snap.now blocks tree file inode.now → index < span_of inode.now
        → (slot : ℕ) → SLOTS_PER_BLOCK * index ≤ slot → slot < SLOTS_PER_BLOCK * index + SLOTS_PER_BLOCK
        → slot_at snap.now.geometry.inodes (content_in snap.now.geometry blocks) inode.now slot
        ≡ block_slot snap.now.geometry.inodes (SLOTS_PER_BLOCK * index) block.now slot) }
    ensures is { IfOk result (λ block. (blocks : Image) (number : ℕ) → Saw blocks snap.now
        → HasBlockAt blocks inode.now index number → length (blocks number) ≡ BLOCK_BYTES
        → block.now ≡ blocks number) }
    ensures err { IfErr result (λ suspend. MaySuspend snap.now suspend) }
    ensures asks { IfErr result (λ suspend. IsSuspendFor (IsNeededAt snap.now inode.now index) suspend) }
    ensures read { IfOk result (λ block. IsReadAt snap.now inode.now index) }
    ensures resumable { IfErr result (λ suspend. (blocks : Image) (tree : Tree) (file : ℕ)
        → IsDirectoryOf snap.now blocks tree file inode.now → index < span_of inode.now → IsResumable suspend) }
{
    let number = block_number(snap, inode, index)?;
    if number == 0 {
        return Err(Suspend::Io);
    }
    data_block(snap, number)
}
