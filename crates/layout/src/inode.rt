//! Inodes: what the disk has of a file in 128 bytes.
ghost use Rattle.std.specs.Prelude.{◌≡◌, ◌≤◌, length, replicate, IfOk, IfErr, Option};
ghost use Rattle.base.specs.declared.TheConstants.{INODE_BYTES};
ghost use Rattle.layout.specs.InodeForm.{read_inode, IsInTable};

use crate::fields::{four_at, is_zeros};
use crate::inode_bytes::{put_header_fields, put_middle, put_tail};
use crate::inode_fields::{KIND_AT, fields_of, kind_of_number, rest_is_zero};
use crate::numbers::count_mapped;
use crate::{Geometry, LayoutFault};
use base::{DIRECT_INDEXES, INODE_BYTES};
use nfs_types::{Moment, Stamp, Verifier};
use std::alloc::{AllocError, Global};

/// What an inode is of (RFC 1813, section 2.6).
#[derive(Clone, Copy, Debug, PartialEq, Eq)]
pub enum InodeKind {
    Regular,
    Directory,
    Link,
}

/// The inode of a file. Its numbers of blocks are 0 where the file has none.
#[derive(Clone, Copy, Debug, PartialEq, Eq)]
pub struct Inode {
    pub kind: InodeKind,
    pub mode: u32,
    pub uid: u32,
    pub gid: u32,
    pub nlink: u32,
    pub size: u64,
    pub atime: Moment,
    pub mtime: Moment,
    pub ctime: Moment,
    pub stamp: Stamp,
    pub parent: u32,
    pub verifier: Option<Verifier>,
    pub direct: [u32; DIRECT_INDEXES],
    pub indirect: u32,
    pub double: u32,
}

impl Inode {
    ghost use Rattle.base.specs.declared.TheConstants.{DIRECT_INDEXES};
    ghost use Rattle.layout.specs.InodeForm.{inode_bytes};
    ghost use Rattle.layout.specs.Fields.{count_of};

    /// Reads an inode of an image of this geometry: None where it is free. It is refused (Range) exactly
    /// where no inode has the bytes, and a free one neither.
    pub fn read(geometry: &Geometry, bytes: &[u8]) -> Result<Option<Inode>, LayoutFault>
        requires { length bytes.now ≡ INODE_BYTES }
        ensures value { result ≡ read_inode geometry.now bytes.now }
        ensures ok { IfOk result
            (λ one. IsInTable geometry.now bytes.now one) }
        ensures err { IfErr result (λ fault. (fault ≡ LayoutFault.Range)
            × ((one : Option Inode) → IsInTable geometry.now bytes.now one → ⊥)) }
    {
        read_inode(geometry, bytes)
    }

    /// The bytes of the inode.
    pub fn write(&self, alloc: Global) -> Result<Vec<u8>, AllocError>
        ensures bytes { IfOk result (λ bytes. bytes.items ≡ inode_bytes self.now) }
        ensures len { IfOk result (λ bytes. length bytes.items ≡ INODE_BYTES) }
    {
        let mut bytes = Vec::with_capacity(alloc, INODE_BYTES)?;
        put_header_fields(&mut bytes, self)?;
        put_middle(&mut bytes, self)?;
        put_tail(&mut bytes, self)?;
        Ok(bytes)
    }

    /// The bytes of a free inode: nothing but zeros.
    pub fn free(alloc: Global) -> Result<Vec<u8>, AllocError>
        ensures { IfOk result (λ bytes. bytes.items ≡ replicate INODE_BYTES 0) }
    {
        vec![in alloc; 0; INODE_BYTES]
    }

    /// How many blocks it names directly.
    pub fn directly_used(&self) -> u32
        ensures few { result ≤ DIRECT_INDEXES }
        ensures count { result ≡ count_of self.now.direct }
    {
        count_mapped(&self.direct)
    }
}

// Reads an inode of an image of this geometry: None where it is free.
fn read_inode(geometry: &Geometry, bytes: &[u8]) -> Result<Option<Inode>, LayoutFault>
    requires { length bytes.now ≡ INODE_BYTES }
    ensures { result ≡ read_inode geometry.now bytes.now }
{
    if is_zeros(bytes) {
        return Ok(None);
    }
    let Some(kind) = kind_of_number(four_at(bytes, KIND_AT)) else {
        return Err(LayoutFault::Range);
    };
    let inode = fields_of(kind, bytes);
    if rest_is_zero(bytes) && inode.is_sound(geometry) {
        Ok(Some(inode))
    } else {
        Err(LayoutFault::Range)
    }
}
