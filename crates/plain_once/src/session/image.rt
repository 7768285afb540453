//! The counts of an image.
ghost use Rattle.plain_once.specs.Session.Counts.{HasData};

use base::{
    BITS_PER_BLOCK, FIRST_HOME_BLOCK, INODES_PER_BLOCK, LEAST_BLOCKS, LEAST_DATA_BLOCKS,
    LEAST_INODES, MOST_BLOCKS, MOST_INODES,
};

/// The data blocks of an image with these counts: what the log, the two bitmaps and the inodes leave. There
/// is none with other counts than an image may have.
pub fn data_blocks(blocks: u32, inodes: u32) -> Option<u32>
    ensures { HasData blocks inodes result }
{
    let has_blocks = blocks >= LEAST_BLOCKS && blocks <= MOST_BLOCKS;
    let has_inodes = inodes >= LEAST_INODES && inodes <= MOST_INODES;
    if !has_blocks || !has_inodes || inodes % INODES_PER_BLOCK != 0 {
        return None;
    }
    let taken = FIRST_HOME_BLOCK
        .checked_add(blocks.div_ceil(BITS_PER_BLOCK))?
        .checked_add(inodes.div_ceil(BITS_PER_BLOCK))?
        .checked_add(inodes / INODES_PER_BLOCK)?;
    let left = blocks.checked_sub(taken)?;
    if left < LEAST_DATA_BLOCKS {
        None
    } else {
        Some(left)
    }
}
