//! Numbers in bytes, the least byte first.
ghost use Rattle.std.specs.Prelude.{◌≡◌, ◌+◌, ◌≤◌, ◌++◌, length, take, drop, OnOk};
ghost use Rattle.layout.specs.Fields.{four_at, eight_at, four_bytes, eight_bytes, is_zeros};

use std::alloc::AllocError;

/// The number in the 4 bytes from an offset on.
pub(crate) fn four_at(bytes: &[u8], offset: usize) -> u32
    requires { offset + 4 ≤ length bytes.now }
    ensures { result ≡ four_at offset bytes.now }
{
    u32::from_le_bytes([
        bytes[offset],
        bytes[offset + 1],
        bytes[offset + 2],
        bytes[offset + 3],
    ])
}

/// The number in the 8 bytes from an offset on.
pub(crate) fn eight_at(bytes: &[u8], offset: usize) -> u64
    requires { offset + 8 ≤ length bytes.now }
    ensures { result ≡ eight_at offset bytes.now }
{
    u64::from_le_bytes([
        bytes[offset],
        bytes[offset + 1],
        bytes[offset + 2],
        bytes[offset + 3],
        bytes[offset + 4],
        bytes[offset + 5],
        bytes[offset + 6],
        bytes[offset + 7],
    ])
}

/// Whether each byte is zero: they are looked at eight at a time.
pub(crate) fn is_zeros(bytes: &[u8]) -> bool
    ensures { result ≡ is_zeros bytes.now }
{
    let words = bytes.len() / 8;
    'words: for word in 0..words {
        if eight_at(bytes, 8 * word) != 0 {
            return false;
        }
    }
    let (_, rest) = bytes.split_at(8 * words);
    are_zero(rest)
}

/// Whether each of the 32 bytes from an offset on is zero: all of them are looked at, with one test.
pub(crate) fn are_zeros_at(bytes: &[u8], offset: usize) -> bool
    requires { offset + 32 ≤ length bytes.now }
    ensures { result ≡ is_zeros (take 32 (drop offset bytes.now)) }
{
    let first = eight_at(bytes, offset) | eight_at(bytes, offset + 8);
    let second = eight_at(bytes, offset + 16) | eight_at(bytes, offset + 24);
    (first | second) == 0
}

// The same, one by one.
fn are_zero(bytes: &[u8]) -> bool
    ensures { result ≡ is_zeros bytes.now }
{
    bytes.iter().all(|byte| *byte == 0)
}

/// Adds a number in 4 bytes.
pub(crate) fn put_four(bytes: &mut Vec<u8>, number: u32) -> Result<(), AllocError>
    ensures bytes { OnOk result (bytes.new.items ≡ bytes.old.items ++ four_bytes number) }
    ensures len { OnOk result (length bytes.new.items ≡ length bytes.old.items + 4) }
{
    bytes.extend_from_slice(&number.to_le_bytes())
}

/// Adds a number in 8 bytes.
pub(crate) fn put_eight(bytes: &mut Vec<u8>, number: u64) -> Result<(), AllocError>
    ensures bytes { OnOk result (bytes.new.items ≡ bytes.old.items ++ eight_bytes number) }
    ensures len { OnOk result (length bytes.new.items ≡ length bytes.old.items + 8) }
{
    bytes.extend_from_slice(&number.to_le_bytes())
}
