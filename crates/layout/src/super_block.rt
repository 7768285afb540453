//! The super block.
ghost use Rattle.std.specs.Prelude.{◌≡◌, ◌+◌, ◌++◌, ◌≤◌, ◌↔◌, length, IfOk, IfErr, IfSome, IfNone, OnOk};
ghost use Rattle.std.specs.Prelude.{IsTrue};
ghost use Rattle.base.specs.declared.TheConstants.{BLOCK_BYTES};
ghost use Rattle.layout.specs.SuperForm.{HasMagic, HasSizes, is_unused_zero, super_header};
ghost use Rattle.layout.specs.Fields.{four_at};
ghost use Rattle.layout.specs.declared.super_block.TheConstants.{VERSION_AT, BLOCKS_AT, INODES_AT, REST_AT};

use crate::fields::{eight_at, four_at, is_zeros, put_eight, put_four};
use crate::{FormatVersion, Geometry, LayoutFault};
use base::BLOCK_BYTES;
use std::alloc::{AllocError, Global};

/// The bytes that an image of this format begins with.
pub const MAGIC: [u8; 8] = *b"NFSJRNL1";

// Where the fields of a super block begin in its bytes, behind the magic ones.

const VERSION_AT: usize = 8;

const BLOCKS_AT: usize = 12;

const INODES_AT: usize = 16;
// Four bytes that no field has.
const GAP_AT: usize = 20;

const BOOT_AT: usize = 24;
// From here on no field has a byte.
const REST_AT: usize = 32;

/// What the super block says: of which version the image is, how large it is, and how often it was opened.
#[derive(Clone, Copy, Debug, PartialEq, Eq)]
pub struct Super {
    pub geometry: Geometry,
    pub boot: u64,
}

impl Super {
    ghost use Rattle.layout.specs.SuperForm.{IsNoSuper, IsSuper, super_bytes};

    /// Reads a super block. It is refused by the first of these that holds: it doesn't begin with the magic
    /// bytes (Magic), its version is none of the format's (Version), its sizes aren't lawful or a byte that no
    /// field has isn't zero (Range).
    pub fn read(bytes: &[u8]) -> Result<Super, LayoutFault>
        requires { length bytes.now ≡ BLOCK_BYTES }
        ensures ok { IfOk result (λ s. IsSuper bytes.now s) }
        ensures err { IfErr result (λ fault. IsNoSuper bytes.now fault) }
    {
        if !has_magic(bytes) {
            return Err(LayoutFault::Magic);
        }
        let Some(version) = FormatVersion::of_number(four_at(bytes, VERSION_AT)) else {
            return Err(LayoutFault::Version);
        };
        let Some(geometry) = geometry_in(version, bytes) else {
            return Err(LayoutFault::Range);
        };
        let boot = eight_at(bytes, BOOT_AT);
        Ok(Super { geometry, boot })
    }

    /// The bytes of the super block.
    pub fn write(&self, alloc: Global) -> Result<Vec<u8>, AllocError>
        ensures bytes { IfOk result (λ bytes. bytes.items ≡ super_bytes self.now) }
        ensures len { IfOk result (λ bytes. length bytes.items ≡ BLOCK_BYTES) }
    {
        let mut bytes = Vec::with_capacity(alloc, BLOCK_BYTES)?;
        put_header_fields(&mut bytes, self)?;
        bytes.resize(BLOCK_BYTES, 0)?;
        Ok(bytes)
    }
}

// The sizes, if they are lawful and what isn't used is zero.
fn geometry_in(version: FormatVersion, bytes: &[u8]) -> Option<Geometry>
    requires { length bytes.now ≡ BLOCK_BYTES }
    ensures version { IfSome result (λ g. g.version ≡ version) }
    ensures some { IfSome result (λ g. HasSizes bytes.now × (g.blocks ≡ four_at BLOCKS_AT bytes.now)
        × (g.inodes ≡ four_at INODES_AT bytes.now)) }
    ensures none { IfNone result (HasSizes bytes.now → ⊥) }
{
    let geometry = Geometry::new(
        version,
        four_at(bytes, BLOCKS_AT),
        four_at(bytes, INODES_AT),
    )
    .ok()?;
    if is_unused_zero(bytes) {
        Some(geometry)
    } else {
        None
    }
}

// Whether what isn't used is zero.
fn is_unused_zero(bytes: &[u8]) -> bool
    requires { length bytes.now ≡ BLOCK_BYTES }
    ensures { result ≡ is_unused_zero bytes.now }
{
    let (_, rest) = bytes.split_at(REST_AT);
    four_at(bytes, GAP_AT) == 0 && is_zeros(rest)
}

// Whether the bytes begin as those of an image do.
fn has_magic(bytes: &[u8]) -> bool
    requires { VERSION_AT ≤ length bytes.now }
    ensures { IsTrue result ↔ HasMagic bytes.now }
{
    bytes[..VERSION_AT] == MAGIC[..]
}

// Adds what of the bytes isn't zero always.
fn put_header_fields(bytes: &mut Vec<u8>, super_block: &Super) -> Result<(), AllocError>
    ensures bytes { OnOk result (bytes.new.items ≡ bytes.old.items ++ super_header super_block.now) }
    ensures len { OnOk result (length bytes.new.items ≡ length bytes.old.items + REST_AT) }
{
    bytes.extend_from_slice(&MAGIC)?;
    put_four(bytes, super_block.geometry.version.number())?;
    put_four(bytes, super_block.geometry.blocks)?;
    put_four(bytes, super_block.geometry.inodes)?;
    put_four(bytes, 0)?;
    put_eight(bytes, super_block.boot)
}
