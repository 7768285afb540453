//! What is in a file, and names that come and go.
ghost use Rattle.std.specs.Prelude.{◌≡◌, IfSome, IfNone, Some, None, ◌+◌, ◌<◌, OnOk};
ghost use Rattle.nfs_spec.specs.Procedures.Places.{dirent_at};
ghost use Rattle.nfs_spec.specs.Procedures.RmDir.{has_names};
ghost use Rattle.plain_tree.specs.Tree.Named.{slot_and_number};
ghost use Rattle.plain_tree.specs.Tree.Plain.{body_of};
ghost use Rattle.nfs_spec.specs.Model.Names.{parent_of};
ghost use Rattle.nfs_spec.specs.Procedures.Read.{bytes_of, piece};
ghost use Rattle.nfs_spec.specs.Procedures.Changes.{with_dirent, without_dirent};

use base::{SLOTS_PER_BLOCK, TRANSFER_BYTES};
use nfs_types::Octets;
use plain_tree::{PlainBody, PlainDirent};
use std::alloc::AllocError;

/// What a name in a directory leads to.
pub(crate) fn dirent_at<'t>(body: &'t PlainBody, name: &[u8]) -> Option<&'t PlainDirent>
    ensures some { IfSome result (λ dirent. dirent_at (body_of body.now) name.now ≡ Some
        (slot_and_number dirent.now)) }
    ensures none { IfNone result (dirent_at (body_of body.now) name.now ≡ None) }
{
    let PlainBody::Directory { entries, .. } = body else {
        return None;
    };
    entries.get(name)
}

/// Whether some name lies in it.
pub(crate) fn has_names(body: &PlainBody) -> bool
    ensures { result ≡ has_names (body_of body.now) }
{
    match body {
        PlainBody::Directory { entries, .. } => entries.as_slice().len() > 0,
        PlainBody::Regular { .. } | PlainBody::Link { .. } => false,
    }
}

/// The number of the directory that a directory lies in; 0 of what is none.
pub(crate) fn parent_of(body: &PlainBody) -> u32
    ensures { result ≡ parent_of (body_of body.now) }
{
    match body {
        PlainBody::Directory { parent, .. } => *parent,
        PlainBody::Regular { .. } | PlainBody::Link { .. } => 0,
    }
}

/// The bytes of a regular file.
pub(crate) fn bytes_of(body: &PlainBody) -> &[u8]
    ensures { result.now ≡ bytes_of (body_of body.now) }
{
    match body {
        PlainBody::Regular { bytes, .. } => bytes,
        PlainBody::Directory { .. } | PlainBody::Link { .. } => &[],
    }
}

/// So many of the bytes from the offset on, as far as there are any and one call moves them.
pub(crate) fn piece(bytes: &[u8], offset: u64, count: u32) -> &[u8]
    ensures { result.now ≡ piece offset count bytes.now }
{
    if offset >= bytes.len() as u64 {
        return &[];
    }
    let rest = &bytes[offset as usize..];
    let most = count.min(TRANSFER_BYTES) as usize;
    if most < rest.len() {
        &rest[..most]
    } else {
        rest
    }
}

/// A directory gets a name for a file, in place of any that it led to.
pub(crate) fn add_dirent(
    body: &mut PlainBody,
    name: Octets,
    number: u32,
    slot: u32,
) -> Result<(), AllocError>
    ensures { OnOk result (body_of body.new ≡ with_dirent name (record { number = number; slot = slot })
        (body_of body.old)) }
{
    if let PlainBody::Directory { entries, span, .. } = body {
        entries.insert(name, number, slot)?;
        *span = (*span).max(slot / SLOTS_PER_BLOCK + 1);
    }
    Ok(())
}

/// A directory loses a name.
pub(crate) fn remove_dirent(body: &mut PlainBody, name: &[u8])
    ensures { body_of body.new ≡ without_dirent name.now (body_of body.old) }
{
    if let PlainBody::Directory { entries, .. } = body {
        entries.remove(name);
    }
}
