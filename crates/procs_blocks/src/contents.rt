//! What is in the file of an inode.
ghost use Rattle.std.specs.Prelude.{◌≡◌, ◌≤◌, Ok, ℕ, min, not, IfErr, IfOk, IfSome};
ghost use Rattle.std.specs.FinMap.{get};
ghost use Rattle.std.specs.Option.{option_map};
ghost use Rattle.base.specs.declared.TheConstants.{TRANSFER_BYTES};
ghost use Rattle.disk.specs.Crash.{Image};
ghost use Rattle.layout.specs.declared.inode.InodeKind.TheVariants as kinds;
ghost use Rattle.layout.specs.Decode.{entries_in};
ghost use Rattle.layout.specs.Parts.{content_in};
ghost use Rattle.nfs_spec.specs.Model.Tree.{Tree};
ghost use Rattle.nfs_spec.specs.Procedures.Places.{dirent_at, least_free_slot};
ghost use Rattle.nfs_spec.specs.Procedures.Read.{bytes_of, piece};
ghost use Rattle.nfs_spec.specs.Procedures.ReadLink.{target_of};
ghost use Rattle.nfs_spec.specs.Procedures.RmDir.{has_names};
ghost use Rattle.procs_files.specs.Heads.{IsNextName, dirent_of};
ghost use Rattle.inode.specs.Over.{HasInode, IsResumable, MaySuspend};
ghost use Rattle.inode.specs.Shown.{body_in};
ghost use Rattle.dir.specs.Slots.{IsDirectoryOf};
ghost use Rattle.dir.specs.Search.Known.{AreKnown};

use base::TRANSFER_BYTES;
use dir::{Names, find, free_slot, is_empty, next_name};
use inode::{Snap, Suspend, piece, target};
use layout::{Inode, InodeKind};
use nfs_types::Pieces;
use procs_files::{SlotDirent, SlotName};
use std::alloc::Global;

// What a name leads to in the directory of a number: by what is known of these names, if there are any.
fn found_in(
    snap: &Snap,
    names: Option<&Names>,
    number: u32,
    inode: &Inode,
    name: &[u8],
) -> Result<Option<SlotDirent>, Suspend>
    requires { AreKnown snap.now names }
    ensures ok { IfOk result (λ found. (blocks : Image) (tree : Tree)
        → IsDirectoryOf snap.now blocks tree number inode.now
        → option_map dirent_of found
        ≡ get (entries_in snap.now.geometry.inodes (content_in snap.now.geometry blocks) inode.now) name.now) }
    ensures err { IfErr result (λ suspend. MaySuspend snap.now suspend) }
    ensures resumable { IfErr result (λ suspend. (blocks : Image) (tree : Tree) (file : ℕ)
        → IsDirectoryOf snap.now blocks tree file inode.now → IsResumable suspend) }
{
    match names {
        Some(names) => names.dirent(snap, number, inode, name),
        None => find(snap, inode, name),
    }
}

/// What a name leads to in the file of a number: to nothing, but in a directory.
pub(crate) fn dirent_under(
    snap: &Snap,
    names: Option<&Names>,
    number: u32,
    inode: &Inode,
    name: &[u8],
) -> Result<Option<SlotDirent>, Suspend>
    requires { AreKnown snap.now names }
    ensures ok { IfOk result (λ found. (blocks : Image) (tree : Tree)
        → HasInode snap.now blocks tree number inode.now
        → option_map dirent_of found ≡ dirent_at (body_in snap.now.geometry blocks inode.now) name.now) }
    ensures err { IfErr result (λ suspend. MaySuspend snap.now suspend) }
    ensures resumable { IfErr result (λ suspend. (blocks : Image) (tree : Tree) (file : ℕ)
        → HasInode snap.now blocks tree file inode.now → IsResumable suspend) }
{
    match inode.kind {
        InodeKind::Directory => found_in(snap, names, number, inode, name),
        InodeKind::Regular => Ok(None),
        InodeKind::Link => Ok(None),
    }
}

/// The first name in a slot or past it: none, but in a directory.
pub(crate) fn name_from(
    alloc: Global,
    snap: &Snap,
    inode: &Inode,
    from: u64,
) -> Result<Option<SlotName>, Suspend>
    ensures ok { IfOk result (λ found. (blocks : Image) (tree : Tree) (file : ℕ)
        → HasInode snap.now blocks tree file inode.now
        → IsNextName (body_in snap.now.geometry blocks inode.now) from found) }
    ensures past { IfOk result (λ found. IfSome found (λ name. from ≤ name.slot)) }
    ensures err { IfErr result (λ suspend. MaySuspend snap.now suspend) }
    ensures resumable { IfErr result (λ suspend. (blocks : Image) (tree : Tree) (file : ℕ)
        → HasInode snap.now blocks tree file inode.now → IsResumable suspend) }
{
    match inode.kind {
        InodeKind::Directory => next_name(alloc, snap, inode, from),
        InodeKind::Regular => Ok(None),
        InodeKind::Link => Ok(None),
    }
}

/// Whether no name lies in it.
pub(crate) fn has_no_names(alloc: Global, snap: &Snap, inode: &Inode) -> Result<bool, Suspend>
    ensures ok { IfOk result (λ empty. (blocks : Image) (tree : Tree) (file : ℕ)
        → HasInode snap.now blocks tree file inode.now
        → empty ≡ not (has_names (body_in snap.now.geometry blocks inode.now))) }
    ensures err { IfErr result (λ suspend. MaySuspend snap.now suspend) }
    ensures resumable { IfErr result (λ suspend. (blocks : Image) (tree : Tree) (file : ℕ)
        → HasInode snap.now blocks tree file inode.now → IsResumable suspend) }
{
    match inode.kind {
        InodeKind::Directory => is_empty(alloc, snap, inode),
        InodeKind::Regular => Ok(true),
        InodeKind::Link => Ok(true),
    }
}

/// The least slot in which no name lies: the first one, but of a directory.
pub(crate) fn first_free_slot(snap: &Snap, inode: &Inode) -> Result<Option<u32>, Suspend>
    ensures ok { IfOk result (λ free. (blocks : Image) (tree : Tree) (file : ℕ)
        → HasInode snap.now blocks tree file inode.now
        → free ≡ least_free_slot (body_in snap.now.geometry blocks inode.now)) }
    ensures err { IfErr result (λ suspend. MaySuspend snap.now suspend) }
    ensures resumable { IfErr result (λ suspend. (blocks : Image) (tree : Tree) (file : ℕ)
        → HasInode snap.now blocks tree file inode.now → IsResumable suspend) }
{
    match inode.kind {
        InodeKind::Directory => free_slot(snap, inode),
        InodeKind::Regular => Ok(Some(0)),
        InodeKind::Link => Ok(Some(0)),
    }
}

/// A piece of the bytes: none, but of a regular file.
pub(crate) fn bytes_from(
    alloc: Global,
    snap: &Snap,
    inode: &Inode,
    offset: u64,
    count: u32,
) -> Result<Pieces, Suspend>
    ensures ok { IfOk result (λ bytes. (blocks : Image) (tree : Tree) (file : ℕ)
        → HasInode snap.now blocks tree file inode.now
        → bytes ≡ piece offset count (bytes_of (body_in snap.now.geometry blocks inode.now))) }
    ensures err { IfErr result (λ suspend. MaySuspend snap.now suspend) }
    ensures resumable { IfErr result (λ suspend. (blocks : Image) (tree : Tree) (file : ℕ)
        → HasInode snap.now blocks tree file inode.now → IsResumable suspend) }
{
    match inode.kind {
        InodeKind::Regular => piece(alloc, snap, inode, offset, at_most(count)),
        InodeKind::Directory => Ok(Pieces::new(alloc)),
        InodeKind::Link => Ok(Pieces::new(alloc)),
    }
}

// So many bytes, as far as one call moves them.
fn at_most(count: u32) -> u32
    ensures { result ≡ min count TRANSFER_BYTES }
{
    if count < TRANSFER_BYTES {
        count
    } else {
        TRANSFER_BYTES
    }
}

/// The target: nothing, but of a link.
pub(crate) fn target_in(alloc: Global, snap: &Snap, inode: &Inode) -> Result<Vec<u8>, Suspend>
    ensures ok { IfOk result (λ bytes. (blocks : Image) (tree : Tree) (file : ℕ)
        → HasInode snap.now blocks tree file inode.now → inode.now.kind ≡ kinds.Link
        → target_of (body_in snap.now.geometry blocks inode.now) ≡ Ok bytes.items) }
    ensures err { IfErr result (λ suspend. MaySuspend snap.now suspend) }
    ensures resumable { IfErr result (λ suspend. (blocks : Image) (tree : Tree) (file : ℕ)
        → HasInode snap.now blocks tree file inode.now → IsResumable suspend) }
{
    match inode.kind {
        InodeKind::Link => target(alloc, snap, inode),
        InodeKind::Regular => Ok(Vec::new(alloc)),
        InodeKind::Directory => Ok(Vec::new(alloc)),
    }
}
