//! The bytes of an inode.
ghost use Rattle.std.specs.Prelude.{◌≡◌, ◌+◌, ◌*◌, ◌++◌, length, OnOk};
ghost use Rattle.layout.specs.Fields.{number_bytes};
ghost use Rattle.layout.specs.InodeForm.{number_of_kind, time_bytes, verifier_bytes, header_bytes};
ghost use Rattle.layout.specs.InodeForm.{middle_bytes, tail_bytes};

use crate::fields::{put_eight, put_four};
use crate::{Inode, InodeKind};
use nfs_types::{Moment, Verifier};
use std::alloc::AllocError;

fn number_of_kind(kind: InodeKind) -> u32
    ensures { result ≡ number_of_kind kind }
{
    match kind {
        InodeKind::Regular => 1,
        InodeKind::Directory => 2,
        InodeKind::Link => 5,
    }
}

fn put_time(bytes: &mut Vec<u8>, time: &Moment) -> Result<(), AllocError>
    ensures bytes { OnOk result (bytes.new.items ≡ bytes.old.items ++ time_bytes time.now) }
    ensures len { OnOk result (length bytes.new.items ≡ length bytes.old.items + 8) }
{
    put_four(bytes, time.seconds)?;
    put_four(bytes, time.nanoseconds)
}

// Adds the flags and the verifier.
fn put_verifier(bytes: &mut Vec<u8>, verifier: Option<Verifier>) -> Result<(), AllocError>
    ensures bytes { OnOk result (bytes.new.items ≡ bytes.old.items ++ verifier_bytes verifier) }
    ensures len { OnOk result (length bytes.new.items ≡ length bytes.old.items + 12) }
{
    match verifier {
        None => {
            put_four(bytes, 0)?;
            put_eight(bytes, 0)
        }
        Some(verifier) => {
            put_four(bytes, 1)?;
            bytes.extend_from_slice(&verifier.bytes)
        }
    }
}

/// Adds numbers of 4 bytes.
pub(crate) fn put_numbers(bytes: &mut Vec<u8>, numbers: &[u32]) -> Result<(), AllocError>
    ensures bytes { OnOk result (bytes.new.items ≡ bytes.old.items ++ number_bytes numbers.now) }
    ensures len { OnOk result (length bytes.new.items ≡ length bytes.old.items + 4 * length numbers.now) }
{
    for number in numbers {
        put_four(bytes, *number)?;
    }
    Ok(())
}

/// Adds the kind, the mode, the owners and the count of links.
pub(crate) fn put_header_fields(bytes: &mut Vec<u8>, inode: &Inode) -> Result<(), AllocError>
    ensures bytes { OnOk result (bytes.new.items ≡ bytes.old.items ++ header_bytes inode.now) }
    ensures len { OnOk result (length bytes.new.items ≡ length bytes.old.items + 24) }
{
    put_four(bytes, number_of_kind(inode.kind))?;
    put_four(bytes, inode.mode)?;
    put_four(bytes, inode.uid)?;
    put_four(bytes, inode.gid)?;
    put_four(bytes, inode.nlink)?;
    put_four(bytes, 0)
}

/// Adds the size, the times and the stamp.
pub(crate) fn put_middle(bytes: &mut Vec<u8>, inode: &Inode) -> Result<(), AllocError>
    ensures bytes { OnOk result (bytes.new.items ≡ bytes.old.items ++ middle_bytes inode.now) }
    ensures len { OnOk result (length bytes.new.items ≡ length bytes.old.items + 48) }
{
    put_eight(bytes, inode.size)?;
    put_time(bytes, &inode.atime)?;
    put_time(bytes, &inode.mtime)?;
    put_time(bytes, &inode.ctime)?;
    put_eight(bytes, inode.stamp.boot)?;
    put_eight(bytes, inode.stamp.transaction)
}

/// Adds the parent, the create verifier and the numbers of blocks.
pub(crate) fn put_tail(bytes: &mut Vec<u8>, inode: &Inode) -> Result<(), AllocError>
    ensures bytes { OnOk result (bytes.new.items ≡ bytes.old.items ++ tail_bytes inode.now) }
    ensures len { OnOk result (length bytes.new.items ≡ length bytes.old.items + 56) }
{
    put_four(bytes, inode.parent)?;
    put_verifier(bytes, inode.verifier)?;
    put_numbers(bytes, &inode.direct)?;
    put_four(bytes, inode.indirect)?;
    put_four(bytes, inode.double)
}
