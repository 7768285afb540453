//! The fields of an inode in its bytes.
ghost use Rattle.std.specs.Prelude.{◌≡◌, ◌+◌, ◌≤◌, length};
ghost use Rattle.base.specs.declared.TheConstants.{INODE_BYTES};
ghost use Rattle.layout.specs.InodeForm.{kind_of_number, fields_of, rest_is_zero, time_at, verifier_at};
ghost use Rattle.layout.specs.InodeForm.{verifier_of};
ghost use Rattle.layout.specs.Fields.{numbers_at};
ghost use Rattle.layout.specs.declared.inode_fields.TheConstants.{DIRECT_AT};

use crate::fields::{eight_at, four_at};
use crate::{Inode, InodeKind};
use base::DIRECT_INDEXES;
use nfs_types::{Moment, Stamp, Verifier};

// Where the fields of an inode begin in its bytes.

pub(crate) const KIND_AT: usize = 0;

const MODE_AT: usize = 4;

const UID_AT: usize = 8;

const GID_AT: usize = 12;

const NLINK_AT: usize = 16;
// Four bytes that no field has.
const GAP_AT: usize = 20;

const SIZE_AT: usize = 24;

const ATIME_AT: usize = 32;

const MTIME_AT: usize = 40;

const CTIME_AT: usize = 48;

const BOOT_AT: usize = 56;

const TRANSACTION_AT: usize = 64;

const PARENT_AT: usize = 72;
// Whether there is a verifier.
const FLAGS_AT: usize = 76;

const VERIFIER_AT: usize = 80;

const DIRECT_AT: usize = 88;

const INDIRECT_AT: usize = 120;

const DOUBLE_AT: usize = 124;

/// The kind of a number, if it is one's.
pub(crate) fn kind_of_number(number: u32) -> Option<InodeKind>
    ensures { result ≡ kind_of_number number }
{
    match number {
        1 => Some(InodeKind::Regular),
        2 => Some(InodeKind::Directory),
        5 => Some(InodeKind::Link),
        _ => None,
    }
}

// The time at an offset.
fn time_at(bytes: &[u8], offset: usize) -> Moment
    requires { offset + 8 ≤ length bytes.now }
    ensures { result ≡ time_at offset (offset + 4) bytes.now }
{
    Moment {
        seconds: four_at(bytes, offset),
        nanoseconds: four_at(bytes, offset + 4),
    }
}

// The eight bytes at an offset.
fn verifier_at(bytes: &[u8], offset: usize) -> Verifier
    requires { offset + 8 ≤ length bytes.now }
    ensures { result ≡ verifier_at offset bytes.now }
{
    Verifier {
        bytes: [
            bytes[offset],
            bytes[offset + 1],
            bytes[offset + 2],
            bytes[offset + 3],
            bytes[offset + 4],
            bytes[offset + 5],
            bytes[offset + 6],
            bytes[offset + 7],
        ],
    }
}

// The verifier, if the flags say that there is one.
fn verifier_of(flags: u32, verifier: Verifier) -> Option<Verifier>
    ensures { result ≡ verifier_of flags verifier }
{
    if flags == 1 { Some(verifier) } else { None }
}

// The numbers of the blocks that an inode names directly.
fn direct_of(bytes: &[u8]) -> [u32; DIRECT_INDEXES]
    requires { length bytes.now ≡ INODE_BYTES }
    ensures { result ≡ numbers_at DIRECT_INDEXES DIRECT_AT bytes.now }
{
    [
        four_at(bytes, DIRECT_AT),
        four_at(bytes, DIRECT_AT + 4),
        four_at(bytes, DIRECT_AT + 8),
        four_at(bytes, DIRECT_AT + 12),
        four_at(bytes, DIRECT_AT + 16),
        four_at(bytes, DIRECT_AT + 20),
        four_at(bytes, DIRECT_AT + 24),
        four_at(bytes, DIRECT_AT + 28),
    ]
}

/// The fields, each from its offset.
pub(crate) fn fields_of(kind: InodeKind, bytes: &[u8]) -> Inode
    requires { length bytes.now ≡ INODE_BYTES }
    ensures { result ≡ fields_of kind bytes.now }
{
    Inode {
        kind,
        mode: four_at(bytes, MODE_AT),
        uid: four_at(bytes, UID_AT),
        gid: four_at(bytes, GID_AT),
        nlink: four_at(bytes, NLINK_AT),
        size: eight_at(bytes, SIZE_AT),
        atime: time_at(bytes, ATIME_AT),
        mtime: time_at(bytes, MTIME_AT),
        ctime: time_at(bytes, CTIME_AT),
        stamp: Stamp {
            boot: eight_at(bytes, BOOT_AT),
            transaction: eight_at(bytes, TRANSACTION_AT),
        },
        parent: four_at(bytes, PARENT_AT),
        verifier: verifier_of(four_at(bytes, FLAGS_AT), verifier_at(bytes, VERIFIER_AT)),
        direct: direct_of(bytes),
        indirect: four_at(bytes, INDIRECT_AT),
        double: four_at(bytes, DOUBLE_AT),
    }
}

/// Whether what no field has is zero.
pub(crate) fn rest_is_zero(bytes: &[u8]) -> bool
    requires { length bytes.now ≡ INODE_BYTES }
    ensures { result ≡ rest_is_zero bytes.now }
{
    let flags = four_at(bytes, FLAGS_AT);
    four_at(bytes, GAP_AT) == 0 && (flags == 1 || flags == 0 && eight_at(bytes, VERIFIER_AT) == 0)
}
