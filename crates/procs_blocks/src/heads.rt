//! The files of an image by their numbers.
ghost use Rattle.std.specs.Prelude.{ℕ, ◌≡◌, ◌+◌, ◌≤◌, IfErr, IfOk};
ghost use Rattle.base.specs.declared.TheConstants.{FILE_INDEXES, INDIRECT_INDEXES};
ghost use Rattle.disk.specs.Crash.{Image};
ghost use Rattle.nfs_spec.specs.Model.Tree.{Tree};
ghost use Rattle.procs_files.specs.Heads.{IsFileAt};
ghost use Rattle.inode.specs.Over.{HasInode, IsOver, IsResumable, MaySuspend};
ghost use Rattle.inode.specs.Shown.{IsShown, body_in};
ghost use Rattle.procs_blocks.specs.Heads.{inode_attributes_of};

use base::BLOCK_BYTES;
use dir::used_of_directory;
use inode::{Snap, Suspend, file_kind, held, used_of};
use layout::{Inode, InodeKind};
use procs_files::InodeAttributes;

/// The head of the file of an inode that uses so many blocks.
pub fn inode_attributes_of(number: u32, inode: &Inode, used: u32) -> InodeAttributes
    ensures { result ≡ inode_attributes_of number inode.now used }
{
    InodeAttributes {
        number,
        kind: file_kind(inode.kind),
        mode: inode.mode,
        uid: inode.uid,
        gid: inode.gid,
        nlink: inode.nlink,
        size: inode.size,
        used: BLOCK_BYTES as u64 * used as u64,
        parent: inode.parent,
        atime: inode.atime,
        mtime: inode.mtime,
        ctime: inode.ctime,
        stamp: inode.stamp,
        verifier: inode.verifier,
    }
}

// How many blocks the file of an inode uses. What a directory uses is told by its size, and no block of it is read.
fn used_in(snap: &Snap, inode: &Inode) -> Result<u32, Suspend>
    ensures few { IfOk result (λ used. used ≤ FILE_INDEXES + INDIRECT_INDEXES + 2) }
    ensures ok { IfOk result (λ used. (blocks : Image) (tree : Tree) (file : ℕ)
        → HasInode snap.now blocks tree file inode.now
        → IsShown inode.now used (body_in snap.now.geometry blocks inode.now)) }
    ensures err { IfErr result (λ suspend. MaySuspend snap.now suspend) }
    ensures resumable { IfErr result (λ suspend. (blocks : Image) (tree : Tree) (file : ℕ)
        → HasInode snap.now blocks tree file inode.now → IsResumable suspend) }
{
    match inode.kind {
        InodeKind::Directory => match used_of_directory(inode) {
            Some(used) => Ok(used),
            None => Err(Suspend::Io),
        },
        InodeKind::Regular => used_of(snap, inode),
        InodeKind::Link => used_of(snap, inode),
    }
}

/// The file of a number.
pub(crate) fn file(snap: &Snap, number: u32) -> Result<Option<InodeAttributes>, Suspend>
    ensures ok { IfOk result (λ found. (blocks : Image) (tree : Tree) → IsOver snap.now blocks tree
        → IsFileAt tree number found) }
    ensures err { IfErr result (λ suspend. MaySuspend snap.now suspend) }
    ensures resumable { IfErr result (λ suspend. (blocks : Image) (tree : Tree) → IsOver snap.now blocks tree
        → IsResumable suspend) }
{
    let Some(inode) = held(snap, number)? else {
        return Ok(None);
    };
    let used = used_in(snap, &inode)?;
    Ok(Some(inode_attributes_of(number, &inode, used)))
}
