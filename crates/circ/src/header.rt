//! The blocks that tell where the log begins and ends, as numbers of eight bytes, the lowest byte first. The
//! first block of the log holds the end, and then the home address of each slot. The block behind the slots
//! holds the start.
ghost use Rattle.std.specs.Prelude.{◌≡◌, ◌+◌, ◌*◌, ◌^◌, ◌<◌, ◌≤◌, length, replicate};
ghost use Rattle.circ.specs.Log.EightBytes.{number_at, with_number};

use base::{BLOCK_BYTES, LOG_SLOTS};
use disk::{Block, BlockNo};

// The bytes of a number.
const NUMBER_BYTES: usize = 8;

/// The end that the log's header tells.
pub fn end_of(header: &Block) -> u64
    ensures { result ≡ number_at header.now 0 }
{
    number(header, 0)
}

/// The home address that the log's header tells of a slot.
pub fn address_at(header: &Block, slot: u64) -> u64
    requires { slot < LOG_SLOTS }
    ensures { result ≡ number_at header.now (8 + 8 * slot) }
{
    number(header, 8 + 8 * slot as usize)
}

/// The start that the block behind the slots tells.
pub fn start_of(block: &Block) -> u64
    ensures { result ≡ number_at block.now 0 }
{
    number(block, 0)
}

/// Makes a block a header of this end, with an address of 0 at each slot.
#[tactic(auto, unfolding(crate::specs::Log::EightBytes::with_number))]
pub fn put_end(header: &mut Block, end: u64)
    ensures { header.new ≡ with_number (replicate BLOCK_BYTES 0) 0 end }
{
    fill_with_zeros(header);
    header.put(0, &end.to_le_bytes());
}

/// Sets the home address of a slot, and leaves the rest of the header.
#[tactic(auto, unfolding(crate::specs::Log::EightBytes::with_number))]
pub fn put_address(header: &mut Block, slot: u64, home: BlockNo)
    requires { slot < LOG_SLOTS }
    ensures header { header.new ≡ with_number header.old (8 + 8 * slot) home.0 }
    ensures fits { home.0 < 2 ^ 32 }
{
    header.put(8 + 8 * slot as usize, &(home.0 as u64).to_le_bytes());
}

/// Makes a block tell this start.
#[tactic(auto, unfolding(crate::specs::Log::EightBytes::with_number))]
pub fn put_start(block: &mut Block, start: u64)
    ensures { block.new ≡ with_number (replicate BLOCK_BYTES 0) 0 start }
{
    fill_with_zeros(block);
    block.put(0, &start.to_le_bytes());
}

// The number at an offset of a block.
#[tactic(auto, unfolding(crate::specs::Log::EightBytes::number_at))]
fn number(block: &Block, offset: usize) -> u64
    requires { offset + 8 ≤ BLOCK_BYTES }
    ensures { result ≡ number_at block.now offset }
{
    let bytes = block.as_slice();
    u64::from_le_bytes([
        bytes[offset],
        bytes[offset + 1],
        bytes[offset + 2],
        bytes[offset + 3],
        bytes[offset + 4],
        bytes[offset + 5],
        bytes[offset + 6],
        bytes[offset + 7],
    ])
}

// Makes a block zeros.
fn fill_with_zeros(block: &mut Block)
    ensures { block.new ≡ replicate BLOCK_BYTES 0 }
{
    block.put(0, &[0; BLOCK_BYTES]);
}
