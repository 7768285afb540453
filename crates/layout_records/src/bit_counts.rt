//! How many bits are clear.
ghost use Rattle.std.specs.Prelude.{◌≡◌, ◌+◌, ◌*◌, ◌≤◌, drop, length, take};
ghost use Rattle.base.specs.declared.TheConstants.{BLOCK_BYTES};
ghost use Rattle.layout_records.specs.Bits.{clear_in, clear_in_byte};

// How many bits of a byte are clear.
fn clear_in_byte(byte: u8) -> u32
    ensures is { result ≡ clear_in_byte byte }
    ensures few { result ≤ 8 }
{
    8 - byte.count_ones()
}

// How many bits are set in the 8 bytes from an offset on.
fn set_at(bytes: &[u8], offset: usize) -> u32
    requires { offset + 8 ≤ length bytes.now }
    ensures is { result + clear_in (take 8 (drop offset bytes.now)) ≡ 64 }
{
    let word = u64::from_le_bytes([
        bytes[offset],
        bytes[offset + 1],
        bytes[offset + 2],
        bytes[offset + 3],
        bytes[offset + 4],
        bytes[offset + 5],
        bytes[offset + 6],
        bytes[offset + 7],
    ]);
    word.count_ones()
}

/// How many bits of so few bytes are clear: they are counted eight bytes at a time.
pub fn clear_in(bytes: &[u8]) -> u32
    requires { length bytes.now ≤ BLOCK_BYTES }
    ensures is { result ≡ clear_in bytes.now }
    ensures few { result ≤ 8 * length bytes.now }
{
    let words = bytes.len() / 8;
    let mut clear = 0;
    'words: for word in 0..words {
        clear += 64 - set_at(bytes, 8 * word);
    }
    'rest: for at in 8 * words..bytes.len() {
        clear += clear_in_byte(bytes[at]);
    }
    clear
}
