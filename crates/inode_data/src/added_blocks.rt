//! What bytes that are written add to the blocks of a file.
ghost use Rattle.std.specs.Prelude.{ℕ, ◌≡◌, ◌+◌, ◌-◌, ◌<◌, ◌≤◌, List, length, cond, nat_eq, IfErr, IfOk};
ghost use Rattle.base.specs.declared.TheConstants.{FILE_INDEXES, INDIRECT_INDEXES, LARGEST_FILE};
ghost use Rattle.disk.specs.Crash.{Image};
ghost use Rattle.std.specs.List.{range_with_len};
ghost use Rattle.nfs_spec.specs.Model.Cost.{cost, file_cost};
ghost use Rattle.nfs_spec.specs.Model.Tree.{Tree};
ghost use Rattle.nfs_spec.specs.Procedures.Write.{mapped_with, with_text};
ghost use Rattle.layout.specs.Decode.{mapped_of, numbers_in, numbers_of};
ghost use Rattle.layout.specs.Fields.{count_of};
ghost use Rattle.layout.specs.Parts.{content_in};
ghost use Rattle.inode.specs.Over.{HasInode, IsResumable, MaySuspend};
ghost use Rattle.inode.specs.Shown.{body_in};
ghost use Rattle.inode_data.specs.Adding.{filled_up, missing_between, new_indirect, new_pointers};
ghost use Rattle.inode_data.specs.Filling.{HasRegular};

use crate::doubles::inner_of;
use base::{BLOCK_BYTES, DIRECT_INDEXES, FIRST_DOUBLE_INDEX};
use inode::{Snap, Suspend, block_number, inner_number};
use layout::{Inode, InodeKind};

// One for no block.
fn one_if_none(number: u32) -> u32
    ensures is { result ≡ cond (nat_eq number 0) 1 0 }
    ensures few { result ≤ 1 }
{
    if number == 0 { 1 } else { 0 }
}

// How many of so many indexes of a file have no block.
fn missing(snap: &Snap, inode: &Inode, first: usize, count: usize) -> Result<u32, Suspend>
    requires { first + count ≤ FILE_INDEXES }
    ensures few { IfOk result (λ missing. missing ≤ count) }
    ensures ok { IfOk result (λ missing. (blocks : Image) (tree : Tree) (file : ℕ)
        → HasInode snap.now blocks tree file inode.now
        → missing + count_of (numbers_of (content_in snap.now.geometry blocks) inode.now)
        ≡ count_of (filled_up (numbers_of (content_in snap.now.geometry blocks) inode.now) first count)) }
    ensures err { IfErr result (λ suspend. MaySuspend snap.now suspend) }
    ensures resumable { IfErr result (λ suspend. (blocks : Image) (tree : Tree) (file : ℕ)
        → HasInode snap.now blocks tree file inode.now → IsResumable suspend) }
{
    let mut missing = 0;
    'indexes: for step in 0..count {
        match block_number(snap, inode, first + step) {
            Ok(number) => missing += one_if_none(number),
            Err(suspend) => return Err(suspend),
        }
    }
    Ok(missing)
}

// Whether bytes that are written from one index of a file to another add an indirect block to it.
fn adds_indirect(inode: &Inode, first: usize, last: usize) -> u32
    ensures few { result ≤ 1 }
    ensures is { result ≡ new_indirect inode.now first last }
{
    if inode.indirect == 0 && first < FIRST_DOUBLE_INDEX && last >= DIRECT_INDEXES {
        1
    } else {
        0
    }
}

// How many of the inner blocks from one on up to another a file doesn't have.
fn missing_inner(snap: &Snap, inode: &Inode, first: usize, count: usize) -> Result<u32, Suspend>
    requires { first + count ≤ INDIRECT_INDEXES }
    ensures few { IfOk result (λ missing. missing ≤ count) }
    ensures ok { IfOk result (λ missing. (blocks : Image) (tree : Tree) (file : ℕ)
        → HasInode snap.now blocks tree file inode.now
        → missing ≡ missing_between (numbers_in (content_in snap.now.geometry blocks) inode.now.double) first count) }
    ensures err { IfErr result (λ suspend. MaySuspend snap.now suspend) }
    ensures resumable { IfErr result (λ suspend. (blocks : Image) (tree : Tree) (file : ℕ)
        → HasInode snap.now blocks tree file inode.now → IsResumable suspend) }
{
    let mut missing = 0;
    'inner: for step in 0..count {
        match inner_number(snap, inode, first + step) {
            Ok(number) => missing += one_if_none(number),
            Err(suspend) => return Err(suspend),
        }
    }
    Ok(missing)
}

// How many pointer blocks bytes that are written from one index of a file to another add to it.
fn new_pointers(snap: &Snap, inode: &Inode, first: usize, last: usize) -> Result<u32, Suspend>
    requires order { first ≤ last }
    requires within { last < FILE_INDEXES }
    ensures few { IfOk result (λ added. added ≤ INDIRECT_INDEXES + 2) }
    ensures ok { IfOk result (λ added. (blocks : Image) (tree : Tree) (file : ℕ)
        → HasInode snap.now blocks tree file inode.now
        → added ≡ new_pointers (content_in snap.now.geometry blocks) inode.now first last) }
    ensures err { IfErr result (λ suspend. MaySuspend snap.now suspend) }
    ensures resumable { IfErr result (λ suspend. (blocks : Image) (tree : Tree) (file : ℕ)
        → HasInode snap.now blocks tree file inode.now → IsResumable suspend) }
{
    let indirect = adds_indirect(inode, first, last);
    if last < FIRST_DOUBLE_INDEX {
        return Ok(indirect);
    }
    let least = inner_of(first.max(FIRST_DOUBLE_INDEX));
    let count = inner_of(last) + 1 - least;
    match missing_inner(snap, inode, least, count) {
        Ok(missing) => Ok(indirect + one_if_none(inode.double) + missing),
        Err(suspend) => Err(suspend),
    }
}

// What bytes that are written from one index of a regular file to another add to its blocks.
fn unmapped_between(snap: &Snap, inode: &Inode, first: usize, last: usize) -> Result<u32, Suspend>
    requires order { first ≤ last }
    requires within { last < FILE_INDEXES }
    ensures ok { IfOk result (λ added. (blocks : Image) (tree : Tree) (file : ℕ)
        → HasRegular snap.now.geometry blocks tree file inode.now → HasInode snap.now blocks tree file inode.now
        → added ≡ file_cost (mapped_with (range_with_len first (last + 1 - first))
        (mapped_of (numbers_of (content_in snap.now.geometry blocks) inode.now)))
        - file_cost (mapped_of (numbers_of (content_in snap.now.geometry blocks) inode.now))) }
    ensures err { IfErr result (λ suspend. MaySuspend snap.now suspend) }
    ensures resumable { IfErr result (λ suspend. (blocks : Image) (tree : Tree) (file : ℕ)
        → HasInode snap.now blocks tree file inode.now → IsResumable suspend) }
{
    let missing = match missing(snap, inode, first, last + 1 - first) {
        Ok(missing) => missing,
        Err(suspend) => return Err(suspend),
    };
    match new_pointers(snap, inode, first, last) {
        Ok(pointers) => Ok(missing + pointers),
        Err(suspend) => Err(suspend),
    }
}

/// What so many bytes that are written to a file add to its blocks.
pub fn unmapped(snap: &Snap, inode: &Inode, offset: u64, count: usize) -> Result<u32, Suspend>
    requires some { 0 < count }
    requires small { offset + count ≤ LARGEST_FILE }
    ensures ok { IfOk result (λ added. (blocks : Image) (tree : Tree) (file : ℕ) (text : List ℕ)
        → HasInode snap.now blocks tree file inode.now → length text ≡ count
        → added ≡ cost (with_text offset text (body_in snap.now.geometry blocks inode.now))
        - cost (body_in snap.now.geometry blocks inode.now)) }
    ensures err { IfErr result (λ suspend. MaySuspend snap.now suspend) }
    ensures resumable { IfErr result (λ suspend. (blocks : Image) (tree : Tree) (file : ℕ)
        → HasInode snap.now blocks tree file inode.now → IsResumable suspend) }
{
    let first = offset / BLOCK_BYTES as u64;
    let last = (offset + count as u64 - 1) / BLOCK_BYTES as u64;
    match inode.kind {
        InodeKind::Regular => unmapped_between(snap, inode, first as usize, last as usize),
        InodeKind::Directory => Ok(0),
        InodeKind::Link => Ok(0),
    }
}
