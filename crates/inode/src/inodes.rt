//! The inode of a number, and what it shows.
ghost use Rattle.std.specs.Prelude.{◌≡◌, ◌≤◌, ◌+◌, ℕ, cond, nat_eq, true, false, IfErr, IfOk};
ghost use Rattle.base.specs.declared.TheConstants.{DOUBLE_INDEXES, FILE_INDEXES, INDIRECT_INDEXES};
ghost use Rattle.disk.specs.Crash.{Image};
ghost use Rattle.std.specs.List.{list_all};
ghost use Rattle.layout.specs.declared.inode.Inode.{Inode};
ghost use Rattle.layout.specs.Fields.{count_of, numbers_at};
ghost use Rattle.layout.specs.InodeForm.{is_data_block_or_none};
ghost use Rattle.layout.specs.Parts.{content_in};
ghost use Rattle.nfs_spec.specs.Model.Tree.{Tree};
ghost use Rattle.inode.specs.Asked.{IsBlockAddr, IsOfDouble, IsPointerOf, IsSuspendFor};
ghost use Rattle.inode.specs.Read.{IsAskedInode};
ghost use Rattle.inode.specs.Over.{AreInnerPlaced, HasInode, IsOver, IsResumable, MaySuspend, are_pointers_placed};
ghost use Rattle.inode.specs.Shown.{double_held, IsInodeOf, IsShown, body_in, file_kind};

use crate::map::{data_block, data_object};
use crate::read::inode_of;
use crate::snap::Snap;
use crate::suspend::Suspend;
use base::INDIRECT_INDEXES;
use layout::{Inode, InodeKind, Numbers};
use nfs_types::FileKind;

/// The kind of file that an inode is of.
pub fn file_kind(kind: InodeKind) -> FileKind
    ensures { result ≡ file_kind kind }
{
    match kind {
        InodeKind::Regular => FileKind::Regular,
        InodeKind::Directory => FileKind::Directory,
        InodeKind::Link => FileKind::Link,
    }
}

/// The inode of a number: None where no file has it.
pub fn held(snap: &Snap, number: u32) -> Result<Option<Inode>, Suspend>
    ensures ok { IfOk result (λ found. (blocks : Image) (tree : Tree) → IsOver snap.now blocks tree
        → IsInodeOf snap.now blocks tree number found) }
    ensures err { IfErr result (λ suspend. MaySuspend snap.now suspend) }
    ensures asks { IfErr result (λ suspend. IsAskedInode snap.now.geometry number suspend) }
    ensures resumable { IfErr result (λ suspend. (blocks : Image) (tree : Tree) → IsOver snap.now blocks tree
        → IsResumable suspend) }
{
    if number >= snap.geometry.inodes {
        return Ok(None);
    }
    inode_of(snap, number)
}

/// How many blocks a pointer block maps, and itself: none where there is none.
pub fn pointer_used(snap: &Snap, indirect: u32) -> Result<u32, Suspend>
    ensures few { IfOk result (λ used. used ≤ INDIRECT_INDEXES + 1) }
    ensures ok { IfOk result (λ used. (blocks : Image) (tree : Tree) → IsOver snap.now blocks tree
        → used ≡ cond (nat_eq indirect 0) 0
        (count_of (numbers_at INDIRECT_INDEXES 0 (content_in snap.now.geometry blocks indirect)) + 1)) }
    ensures err { IfErr result (λ suspend. MaySuspend snap.now suspend) }
    ensures asks { IfErr result (λ suspend. IsSuspendFor (IsBlockAddr indirect) suspend) }
    ensures resumable { IfErr result (λ suspend. (blocks : Image) (tree : Tree) → IsOver snap.now blocks tree
        → is_data_block_or_none snap.now.geometry indirect ≡ true
        → are_pointers_placed snap.now.geometry blocks indirect → IsResumable suspend) }
{
    if indirect == 0 {
        return Ok(0);
    }
    if !snap.geometry.is_data(indirect) {
        return Err(Suspend::Io);
    }
    let block = data_object(snap, indirect)?;
    match Numbers::mapped_in(&snap.geometry, block) {
        Ok(mapped) => Ok(mapped + 1),
        Err(_) => Err(Suspend::Io),
    }
}

// How many blocks a double indirect block reaches, with itself and its inner blocks: none where there is none.
fn double_used(snap: &Snap, double: u32) -> Result<u32, Suspend>
    ensures few { IfOk result (λ used. used ≤ DOUBLE_INDEXES + INDIRECT_INDEXES + 1) }
    ensures ok { IfOk result (λ used. (blocks : Image) (tree : Tree) → IsOver snap.now blocks tree
        → used ≡ double_held (content_in snap.now.geometry blocks) double) }
    ensures err { IfErr result (λ suspend. MaySuspend snap.now suspend) }
    ensures asks { IfErr result (λ suspend. IsSuspendFor (IsOfDouble snap.now.objects.items double) suspend) }
    ensures resumable { IfErr result (λ suspend. (blocks : Image) (tree : Tree) → IsOver snap.now blocks tree
        → is_data_block_or_none snap.now.geometry double ≡ true
        → AreInnerPlaced snap.now.geometry blocks double → IsResumable suspend) }
{
    if double == 0 {
        return Ok(0);
    }
    if !snap.geometry.is_data(double) {
        return Err(Suspend::Io);
    }
    let bytes = data_block(snap, double)?;
    let mut used = 1;
    'inner: for inner in 0..INDIRECT_INDEXES {
        let indirect_part = pointer_used(snap, Numbers::at(bytes, inner))?;
        used += indirect_part;
    }
    Ok(used)
}

/// How many blocks a file uses.
pub fn used_of(snap: &Snap, inode: &Inode) -> Result<u32, Suspend>
    ensures few { IfOk result (λ used. used ≤ FILE_INDEXES + INDIRECT_INDEXES + 2) }
    ensures ok { IfOk result (λ used. (blocks : Image) (tree : Tree) (file : ℕ)
        → HasInode snap.now blocks tree file inode.now
        → IsShown inode.now used (body_in snap.now.geometry blocks inode.now)) }
    ensures err { IfErr result (λ suspend. MaySuspend snap.now suspend) }
    ensures asks { IfErr result (λ suspend. IsSuspendFor (IsPointerOf snap.now.objects.items inode.now) suspend) }
    ensures resumable { IfErr result (λ suspend. (blocks : Image) (tree : Tree) (file : ℕ)
        → HasInode snap.now blocks tree file inode.now → IsResumable suspend) }
{
    let indirect_part = pointer_used(snap, inode.indirect)?;
    let further = double_used(snap, inode.double)?;
    Ok(inode.directly_used() + indirect_part + further)
}
