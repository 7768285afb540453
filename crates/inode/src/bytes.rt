//! What is in regular files and in links.
ghost use Rattle.std.specs.Prelude.{[], ◌≡◌, ◌+◌, ◌-◌, ◌%◌, ◌<◌, ◌≤◌, ◌++◌, ℕ, true, min, take, drop, length};
ghost use Rattle.std.specs.Prelude.{IfOk, IfErr, OnOk};
ghost use Rattle.base.specs.declared.TheConstants.{BLOCK_BYTES, FILE_INDEXES, LARGEST_FILE};
ghost use Rattle.disk.specs.Crash.{Image};
ghost use Rattle.nfs_spec.specs.Model.Tree.{Tree};
ghost use Rattle.layout.specs.declared.inode.InodeKind.TheVariants as kinds;
ghost use Rattle.layout.specs.Decode.{bytes_of, content_of};
ghost use Rattle.layout.specs.InodeForm.{is_data_block_or_none};
ghost use Rattle.layout.specs.Parts.{content_in};
ghost use Rattle.inode.specs.Asked.{IsBlockAddr, IsNeededAt, IsNeededBetween, IsSuspendFor, MaySuspendFor};
ghost use Rattle.inode.specs.Over.{HasInode, IsOver, IsResumable, MaySuspend, all_bytes};

use crate::map::{block_number, data_block, data_object};
use crate::snap::Snap;
use crate::suspend::Suspend;
use base::{BLOCK_BYTES, LARGEST_FILE, Pieces, SharedOctets, TARGET_BYTES};
use layout::Inode;
use std::alloc::{AllocError, Global};

// A piece of the block of a number: zeros where there is none. The bytes of a block that was read aren't copied.
fn block_part(
    alloc: Global,
    snap: &Snap,
    number: u32,
    from: usize,
    len: usize,
) -> Result<SharedOctets, Suspend>
    requires placed { is_data_block_or_none snap.now.geometry number ≡ true }
    requires within { from + len ≤ BLOCK_BYTES }
    ensures ok { IfOk result (λ part. (blocks : Image) (tree : Tree) → IsOver snap.now blocks tree
        → part ≡ take len (drop from (content_of (content_in snap.now.geometry blocks) number))) }
    ensures short { IfOk result (λ part. length part ≤ len) }
    ensures err { IfErr result (λ suspend. MaySuspend snap.now suspend) }
    ensures asks { IfErr result (λ suspend. MaySuspendFor (IsBlockAddr number) suspend) }
    ensures resumable { IfErr result (λ suspend. IsResumable suspend) }
{
    if number == 0 {
        let zeros = SharedOctets::copied(alloc, &[0; BLOCK_BYTES][from..from + len])?;
        return Ok(zeros);
    }
    let object = data_object(snap, number)?;
    let part = object.part(from, len)?;
    Ok(part)
}

// How many bytes from a place on lie in its block, before the end.
fn piece_len(at: u64, end: u64) -> usize
    requires order { at < end }
    ensures some { 0 < result }
    ensures within { at % BLOCK_BYTES + result ≤ BLOCK_BYTES }
    ensures end { at + result ≤ end }
{
    let bytes_left = BLOCK_BYTES - (at % BLOCK_BYTES as u64) as usize;
    if end - at < bytes_left as u64 {
        (end - at) as usize
    } else {
        bytes_left
    }
}

// No fewer blocks than those that have bytes of a file from one place to another.
fn blocks_between(start: u64, end: u64) -> usize
    requires order { start ≤ end }
    requires small { end ≤ LARGEST_FILE }
{
    (end / BLOCK_BYTES as u64 - start / BLOCK_BYTES as u64) as usize + 1
}

/// Asks for the block at an index of a file, if it has one.
pub fn ask_block(snap: &Snap, inode: &Inode, index: usize) -> Result<(), Suspend>
    requires { index < FILE_INDEXES }
    ensures err { IfErr result (λ suspend. MaySuspend snap.now suspend) }
    ensures asks { IfErr result (λ suspend. IsSuspendFor (IsNeededAt snap.now inode.now index) suspend) }
    ensures resumable { IfErr result (λ suspend. (blocks : Image) (tree : Tree) (file : ℕ)
        → HasInode snap.now blocks tree file inode.now → IsResumable suspend) }
{
    let number = block_number(snap, inode, index)?;
    if number != 0 {
        data_block(snap, number)?;
    }
    Ok(())
}

// Asks for the blocks of a file from one place to another, so that its bytes are copied only once all are there.
fn ask_between(snap: &Snap, inode: &Inode, start: u64, end: u64) -> Result<(), Suspend>
    requires { end ≤ LARGEST_FILE }
    ensures err { IfErr result (λ suspend. MaySuspend snap.now suspend) }
    ensures asks { IfErr result (λ suspend. IsSuspendFor (IsNeededBetween snap.now inode.now start end) suspend) }
    ensures resumable { IfErr result (λ suspend. (blocks : Image) (tree : Tree) (file : ℕ)
        → HasInode snap.now blocks tree file inode.now → IsResumable suspend) }
{
    let first = (start / BLOCK_BYTES as u64) as usize;
    let past = ((end + BLOCK_BYTES as u64 - 1) / BLOCK_BYTES as u64) as usize;
    'indexes: for index in first..past {
        ask_block(snap, inode, index)?;
    }
    Ok(())
}

// The bytes of a file's blocks from one place to another.
fn bytes_between(
    alloc: Global,
    snap: &Snap,
    inode: &Inode,
    start: u64,
    end: u64,
) -> Result<Pieces, Suspend>
    requires order { start ≤ end }
    requires small { end ≤ LARGEST_FILE }
    ensures ok { IfOk result (λ bytes. (blocks : Image) (tree : Tree) (file : ℕ)
        → HasInode snap.now blocks tree file inode.now
        → bytes ≡ take (end - start) (drop start (all_bytes snap.now.geometry blocks inode.now))) }
    ensures err { IfErr result (λ suspend. MaySuspend snap.now suspend) }
    ensures asks { IfErr result (λ suspend. MaySuspendFor (IsNeededBetween snap.now inode.now start end) suspend) }
    ensures resumable { IfErr result (λ suspend. (blocks : Image) (tree : Tree) (file : ℕ)
        → HasInode snap.now blocks tree file inode.now → IsResumable suspend) }
{
    ask_between(snap, inode, start, end)?;
    let mut bytes = Pieces::with_reserved(alloc, blocks_between(start, end))?;
    let mut at = start;
    'pieces: while at < end {
        let len = piece_len(at, end);
        let number = block_number(snap, inode, (at / BLOCK_BYTES as u64) as usize)?;
        let from = (at % BLOCK_BYTES as u64) as usize;
        let part = block_part(alloc, snap, number, from, len)?;
        bytes.push(part)?;
        at += len as u64;
    }
    Ok(bytes)
}

/// The bytes of a regular file from an offset on: as many as are asked for, as far as there are any.
pub fn piece(
    alloc: Global,
    snap: &Snap,
    inode: &Inode,
    offset: u64,
    count: u32,
) -> Result<Pieces, Suspend>
    ensures ok { IfOk result (λ bytes. (blocks : Image) (tree : Tree) (file : ℕ)
        → HasInode snap.now blocks tree file inode.now → bytes
        ≡ take count (drop offset (take inode.now.size (all_bytes snap.now.geometry blocks inode.now)))) }
    ensures err { IfErr result (λ suspend. MaySuspend snap.now suspend) }
    ensures asks { IfErr result (λ suspend. MaySuspendFor
        (IsNeededBetween snap.now inode.now offset (min inode.now.size (offset + count))) suspend) }
    ensures resumable { IfErr result (λ suspend. (blocks : Image) (tree : Tree) (file : ℕ)
        → HasInode snap.now blocks tree file inode.now → inode.now.kind ≡ kinds.Regular → IsResumable suspend) }
{
    if inode.size > LARGEST_FILE {
        return Err(Suspend::Io);
    }
    if offset >= inode.size {
        return Ok(Pieces::new(alloc));
    }
    let rest = inode.size - offset;
    if rest < count as u64 {
        bytes_between(alloc, snap, inode, offset, inode.size)
    } else {
        bytes_between(alloc, snap, inode, offset, offset + count as u64)
    }
}

// The first bytes of the block of a number: zeros where there is none.
fn first_bytes(alloc: Global, snap: &Snap, number: u32, len: usize) -> Result<Vec<u8>, Suspend>
    requires placed { is_data_block_or_none snap.now.geometry number ≡ true }
    requires within { len ≤ BLOCK_BYTES }
    ensures ok { IfOk result (λ bytes. (blocks : Image) (tree : Tree) → IsOver snap.now blocks tree
        → bytes.items ≡ take len (drop 0 (content_of (content_in snap.now.geometry blocks) number))) }
    ensures err { IfErr result (λ suspend. MaySuspend snap.now suspend) }
    ensures asks { IfErr result (λ suspend. MaySuspendFor (IsBlockAddr number) suspend) }
    ensures resumable { IfErr result (λ suspend. IsResumable suspend) }
{
    let part = block_part(alloc, snap, number, 0, len)?;
    let bytes = Vec::from_slice(alloc, part.as_slice())?;
    Ok(bytes)
}

/// The target of a link.
pub fn target(alloc: Global, snap: &Snap, inode: &Inode) -> Result<Vec<u8>, Suspend>
    ensures ok { IfOk result (λ bytes. (blocks : Image) (tree : Tree) (file : ℕ)
        → HasInode snap.now blocks tree file inode.now
        → bytes.items ≡ take inode.now.size (bytes_of (content_in snap.now.geometry blocks)
        (take 1 inode.now.direct))) }
    ensures err { IfErr result (λ suspend. MaySuspend snap.now suspend) }
    ensures asks { IfErr result (λ suspend. MaySuspendFor (IsNeededAt snap.now inode.now 0) suspend) }
    ensures resumable { IfErr result (λ suspend. (blocks : Image) (tree : Tree) (file : ℕ)
        → HasInode snap.now blocks tree file inode.now → inode.now.kind ≡ kinds.Link → IsResumable suspend) }
{
    if inode.size > TARGET_BYTES as u64 {
        return Err(Suspend::Io);
    }
    match block_number(snap, inode, 0) {
        Ok(number) => first_bytes(alloc, snap, number, inode.size as usize),
        Err(suspend) => Err(suspend),
    }
}
