//! What a new file is before its number is known and its attributes are set (RFC 1813, sections 3.3.8 to
//! 3.3.10).
ghost use Rattle.std.specs.Prelude.{◌≡◌, ◌≤◌, ℕ, List, None};
ghost use Rattle.std.specs.FinMap as map;
ghost use Rattle.base.specs.declared.TheConstants.{NEW_DIRECTORY_MODE, NEW_LINK_MODE};
ghost use Rattle.nfs_spec.specs.Model.Cost.{cost};
ghost use Rattle.nfs_spec.specs.Model.Node.{Directory, Link};
ghost use Rattle.nfs_spec.specs.Procedures.Create.{no_bytes};
ghost use Rattle.nfs_spec.specs.Procedures.Fresh.{without_size};
ghost use Rattle.procs_files.specs.Writable.{first_body};
ghost use Rattle.procs_updates.specs.Creates.Making.{IsFresh, blank_inode_attributes};

use base::{BLOCK_BYTES, NEW_DIRECTORY_MODE, NEW_LINK_MODE};
use nfs_types::{Ctx, FileKind, NewAttributes, Stamp, Verifier};
use procs_files::InodeAttributes;

/// The attributes of what has no size to be given.
pub fn without_size(wanted: &NewAttributes) -> NewAttributes
    ensures { result ≡ without_size wanted.now }
{
    NewAttributes {
        size: None,
        ..*wanted
    }
}

// A file of the caller's, made now by this transaction, of no size.
fn blank_inode_attributes(
    ctx: &Ctx,
    kind: FileKind,
    mode: u32,
    verifier: Option<Verifier>,
    nlink: u32,
) -> InodeAttributes
    ensures { result ≡ blank_inode_attributes ctx.now kind mode verifier nlink }
{
    InodeAttributes {
        number: 0,
        kind,
        mode,
        uid: ctx.credential.uid,
        gid: ctx.credential.gid,
        nlink,
        size: 0,
        used: 0,
        parent: 0,
        atime: ctx.moment,
        mtime: ctx.moment,
        ctime: ctx.moment,
        stamp: Stamp {
            boot: ctx.boot,
            transaction: ctx.transaction,
        },
        verifier,
    }
}

/// A directory without names in the directory of this number.
pub fn blank_directory(ctx: &Ctx, parent: u32) -> InodeAttributes
    ensures { (target : List ℕ) → IsFresh ctx.now result target NEW_DIRECTORY_MODE None
        (Directory map.empty 0 parent) }
{
    InodeAttributes {
        parent,
        ..blank_inode_attributes(ctx, FileKind::Directory, NEW_DIRECTORY_MODE, None, 2)
    }
}

/// A link with this target.
pub fn blank_link(ctx: &Ctx, target: &[u8]) -> InodeAttributes
    ensures { IsFresh ctx.now result target.now NEW_LINK_MODE None (Link target.now) }
{
    InodeAttributes {
        size: target.len() as u64,
        used: BLOCK_BYTES as u64,
        ..blank_inode_attributes(ctx, FileKind::Link, NEW_LINK_MODE, None, 1)
    }
}

/// A regular file without bytes.
pub fn blank_file(ctx: &Ctx, mode: u32, verifier: Option<Verifier>) -> InodeAttributes
    ensures { (target : List ℕ) → IsFresh ctx.now result target mode verifier no_bytes }
{
    blank_inode_attributes(ctx, FileKind::Regular, mode, verifier, 1)
}

/// The blocks that a new file uses: one for the target of a link.
pub fn first_blocks(inode_attributes: &InodeAttributes) -> u32
    ensures is { (target : List ℕ) → result ≡ cost (first_body inode_attributes.now target) }
    ensures small { result ≤ 1 }
{
    match inode_attributes.kind {
        FileKind::Directory => 0,
        FileKind::Regular => 0,
        _ => 1,
    }
}
