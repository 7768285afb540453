//! What a write makes of the bytes and the blocks of a file.
ghost use Rattle.std.specs.Prelude.{◌≡◌, ◌<◌, ◌≤◌, ◌+◌, ◌-◌, length, IfOk};
ghost use Rattle.nfs_spec.specs.Procedures.Write.{mapped_with, overwritten, touched};

use base::{BLOCK_BYTES, LARGEST_FILE};
use plain_tree::MappedIndexes;
use std::alloc::{AllocError, Global};

/// The indexes with each in which some of so many bytes from the offset on lie.
pub(crate) fn with_touched(
    mapped: &MappedIndexes,
    offset: u64,
    count: usize,
) -> Result<MappedIndexes, AllocError>
    requires some { 0 < count }
    requires small { offset + count ≤ LARGEST_FILE }
    ensures { IfOk result (λ all. all ≡ mapped_with (touched offset count) mapped.now) }
{
    let first = (offset / BLOCK_BYTES as u64) as u32;
    let last = ((offset + count as u64 - 1) / BLOCK_BYTES as u64) as u32;
    let mut all = mapped.copied()?;
    'indexes: for index in first..last + 1 {
        all.map_index(index)?;
    }
    Ok(all)
}

/// What is written, laid over the bytes.
pub(crate) fn overwritten(
    alloc: Global,
    bytes: &[u8],
    offset: usize,
    text: &[u8],
) -> Result<Vec<u8>, AllocError>
    requires { offset + length text.now ≤ LARGEST_FILE }
    ensures { IfOk result (λ all. all.items ≡ overwritten offset text.now bytes.now) }
{
    let left_over = offset.min(bytes.len());
    let mut all = bytes[..left_over].to_vec(alloc)?;
    all.resize(offset, 0)?;
    all.extend_from_slice(text)?;
    let end = offset + text.len();
    if end < bytes.len() {
        all.extend_from_slice(&bytes[end..])?;
    }
    Ok(all)
}
