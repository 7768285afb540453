//! File handles (RFC 1813, section 2.6, `nfs_fh3`).
ghost use Rattle.std.specs.Prelude.{◌≡◌, ◌≢◌, length, IfOk, IfSome, IfNone};
ghost use Rattle.std.specs.Int.{w32, w64, to_be_bytes};
ghost use Rattle.nfs_types.specs.Handle.{handle_bytes};

use crate::Octets;
use base::HANDLE_BYTES;
use std::alloc::{AllocError, Global};

/// When a file was made: the boot number of the store, and the number in that boot of the transaction that
/// made it. The root has 0 and 0.
#[derive(Clone, Copy, Debug, PartialEq, Eq)]
pub struct Stamp {
    pub boot: u64,
    pub transaction: u64,
}

/// A handle as it stands on the wire: at most 64 bytes there. Only those of 20 bytes can name a file: its
/// number in 4 bytes, then its stamp in twice 8, each with the greatest byte first.
#[derive(Clone, Drop)]
pub struct Handle {
    pub bytes: Octets,
}

impl Handle {
    /// The handle of a file.
    pub fn of(alloc: Global, number: u32, stamp: Stamp) -> Result<Handle, AllocError>
        ensures { IfOk result (λ h. h.bytes ≡ handle_bytes number stamp) }
    {
        let mut bytes = Vec::with_capacity(alloc, HANDLE_BYTES)?;
        bytes.extend_from_slice(&number.to_be_bytes())?;
        bytes.extend_from_slice(&stamp.boot.to_be_bytes())?;
        bytes.extend_from_slice(&stamp.transaction.to_be_bytes())?;
        Ok(Handle {
            bytes: Octets::new(bytes),
        })
    }

    /// The number and the stamp that the handle names, or None where it hasn't 20 bytes.
    pub fn parts(&self) -> Option<(u32, Stamp)>
        ensures some { IfSome result (λ p. self.now.bytes ≡ handle_bytes p.0 p.1) }
        ensures none { IfNone result (length self.now.bytes ≢ HANDLE_BYTES) }
    {
        let bytes = self.bytes.as_slice();
        if bytes.len() != HANDLE_BYTES {
            return None;
        }
        let (number, stamp) = bytes.split_at(4);
        let (boot, transaction) = stamp.split_at(8);
        let number = number_of_four(number);
        let boot = number_of_eight(boot);
        let transaction = number_of_eight(transaction);
        Some((number, Stamp { boot, transaction }))
    }
}

// The number that four bytes spell, the greatest first.
fn number_of_four(bytes: &[u8]) -> u32
    requires { length bytes.now ≡ 4 }
    ensures { to_be_bytes w32 result ≡ bytes.now }
{
    u32::from_be_bytes([bytes[0], bytes[1], bytes[2], bytes[3]])
}

// The number that eight bytes spell, the greatest first.
fn number_of_eight(bytes: &[u8]) -> u64
    requires { length bytes.now ≡ 8 }
    ensures { to_be_bytes w64 result ≡ bytes.now }
{
    u64::from_be_bytes([
        bytes[0], bytes[1], bytes[2], bytes[3], bytes[4], bytes[5], bytes[6], bytes[7],
    ])
}
