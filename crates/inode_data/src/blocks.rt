//! Bytes that are put in a block of a file.
ghost use Rattle.std.specs.Prelude.{ℕ, ◌≡◌, ◌+◌, ◌≤◌, length, replicate, true, IfErr, IfOk, OnOk};
ghost use Rattle.base.specs.declared.TheConstants.{BLOCK_BYTES};
ghost use Rattle.disk.specs.Crash.{Image};
ghost use Rattle.objects.specs.Spliced.{spliced};
ghost use Rattle.nfs_spec.specs.Model.Tree.{Tree};
ghost use Rattle.layout.specs.Decode.{content_of};
ghost use Rattle.layout.specs.InodeForm.{is_data_block_or_none};
ghost use Rattle.layout.specs.Parts.{content_in, with_bytes};
ghost use Rattle.layout.specs.Places.{is_data};
ghost use Rattle.inode.specs.Over.{IsOver, IsResumable, MaySuspend};
ghost use Rattle.inode.specs.WriteSets.WriteSetContents.{Shows, fresh, fresh_block, image_of, dirty_count};

use base::BLOCK_BYTES;
use disk::{Block, BlockNo, SharedBlock};
use inode::{Snap, Suspend, WriteSet, data_block};
use layout_records::with_piece;
use objects::{Addr, SharedBytes};
use std::alloc::{AllocError, Global};

// The bytes that take the place of all that a block has. It is claimed where it wasn't read.
fn whole(alloc: Global, snap: &Snap, number: u32, bytes: &[u8]) -> Result<Vec<u8>, Suspend>
    requires { is_data snap.now.geometry number ≡ true }
    ensures are { IfOk result (λ new. new.items ≡ bytes.now) }
    ensures err { IfErr result (λ suspend. MaySuspend snap.now suspend) }
    ensures resumable { IfErr result (λ suspend. IsResumable suspend) }
{
    let block = BlockNo(number);
    if snap.get(Addr::whole(block)).is_none() && !snap.has_claim(block) {
        return Err(Suspend::Claim(block));
    }
    Ok(Vec::from_slice(alloc, bytes)?)
}

// The bytes of a block that begins with a piece: zeros around it, where it isn't the whole block.
fn begun(alloc: Global, from: usize, piece: &[u8]) -> Result<Vec<u8>, AllocError>
    requires { from + length piece.now ≤ BLOCK_BYTES }
    ensures { IfOk result (λ bytes. bytes.items ≡ spliced (replicate BLOCK_BYTES 0) from piece.now) }
{
    if piece.len() < BLOCK_BYTES {
        let zeros = [0; BLOCK_BYTES];
        return with_piece(alloc, &zeros, from, piece);
    }
    Vec::from_slice(alloc, piece)
}

/// The bytes of the block of a number, zeros where there is none, with a piece in them. A block that is wholly written
/// isn't read.
pub(crate) fn filled(
    alloc: Global,
    snap: &Snap,
    number: u32,
    from: usize,
    piece: &[u8],
) -> Result<Vec<u8>, Suspend>
    requires placed { is_data_block_or_none snap.now.geometry number ≡ true }
    requires within { from + length piece.now ≤ BLOCK_BYTES }
    ensures len { IfOk result (λ bytes. length bytes.items ≡ BLOCK_BYTES) }
    ensures are { IfOk result (λ bytes. (blocks : Image) (tree : Tree) → IsOver snap.now blocks tree
        → bytes.items ≡ spliced (content_of (content_in snap.now.geometry blocks) number) from piece.now) }
    ensures err { IfErr result (λ suspend. MaySuspend snap.now suspend) }
    ensures resumable { IfErr result (λ suspend. IsResumable suspend) }
{
    if number == 0 {
        return Ok(begun(alloc, from, piece)?);
    }
    if piece.len() == BLOCK_BYTES {
        return whole(alloc, snap, number, piece);
    }
    let bytes = data_block(snap, number)?;
    Ok(with_piece(alloc, bytes, from, piece)?)
}

// The bytes of a block, shared.
fn shared(bytes: Vec<u8>) -> Result<SharedBytes, AllocError>
    requires { length bytes.items ≡ BLOCK_BYTES }
    ensures is { IfOk result (λ block. block ≡ bytes.items) }
    ensures len { IfOk result (λ block. length block ≡ BLOCK_BYTES) }
{
    let alloc = *bytes.allocator();
    let block = SharedBlock::new(alloc, Block::from_vec(bytes))?;
    SharedBytes::of_whole(&block)
}

/// Writes a data block. None of its bytes is copied.
pub fn put_block(write_set: &mut WriteSet, number: u32, bytes: Vec<u8>) -> Result<(), Suspend>
    requires lies { is_data write_set.old.there.geometry number ≡ true }
    requires len { length bytes.items ≡ BLOCK_BYTES }
    ensures shows { OnOk result ((image : Image) → Shows write_set.old image
        → Shows write_set.new (with_bytes image number 0 bytes.items)) }
    ensures image { OnOk result ((blocks : Image) → image_of blocks write_set.new
        ≡ with_bytes (image_of blocks write_set.old) number 0 bytes.items) }
    ensures seen { write_set.new.seen ≡ write_set.old.seen }
    ensures geometry { write_set.new.there.geometry ≡ write_set.old.there.geometry }
    ensures dirty_count { dirty_count write_set.new ≤ dirty_count write_set.old + 1 }
    ensures once { dirty_count write_set.new + fresh_block write_set.new number ≤ dirty_count write_set.old + fresh_block write_set.old number }
    ensures stays { (block offset len : ℕ) → fresh block offset len write_set.new ≤ fresh block offset len write_set.old }
    ensures err { IfErr result (λ suspend. MaySuspend write_set.old.seen suspend) }
    ensures resumable { IfErr result (λ suspend. IsResumable suspend) }
{
    let whole = Addr::whole(BlockNo(number));
    match shared(bytes) {
        Ok(block) => write_set.put_shared(whole, block),
        Err(error) => Err(Suspend::NoMemory(error)),
    }
}
