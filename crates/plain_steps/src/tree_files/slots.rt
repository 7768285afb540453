//! The slots of a directory that no name has.
ghost use Rattle.std.specs.Prelude.{◌≡◌, nat_eq};
ghost use Rattle.std.specs.List.{list_any};
ghost use Rattle.nfs_spec.specs.Procedures.Places.{is_taken_slot, least_free_slot};
ghost use Rattle.plain_tree.specs.Tree.Plain.{body_of};

use base::{MOST_SPAN, SLOTS_PER_BLOCK};
use plain_tree::{PlainBody, PlainDirent};

// The slots of the largest directory.
const MOST_SLOTS: u32 = SLOTS_PER_BLOCK * MOST_SPAN as u32;

fn has_slot(entries: &[PlainDirent], slot: u32) -> bool
    ensures { result ≡ list_any (λ dirent. nat_eq dirent.slot slot) entries.now }
{
    entries.iter().any(|dirent| dirent.slot == slot)
}

/// Whether a name of the directory lies in the slot.
fn is_taken_slot(body: &PlainBody, slot: u32) -> bool
    ensures { result ≡ is_taken_slot (body_of body.now) slot }
{
    match body {
        PlainBody::Directory { entries, .. } => has_slot(entries.as_slice(), slot),
        PlainBody::Regular { .. } | PlainBody::Link { .. } => false,
    }
}

/// The least slot in which no name lies, of all that a directory may ever have.
pub(crate) fn least_free_slot(body: &PlainBody) -> Option<u32>
    ensures { result ≡ least_free_slot (body_of body.now) }
{
    let mut slot = 0;
    'slots: while slot < MOST_SLOTS {
        if !is_taken_slot(body, slot) {
            return Some(slot);
        }
        slot += 1;
    }
    None
}
