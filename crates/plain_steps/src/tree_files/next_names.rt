//! The names of a directory, slot by slot.
ghost use Rattle.std.specs.Prelude.{◌≡◌, ◌≤◌, ◌<◌, ◌^◌, IfOk, IfSome, nat_eq, position};
ghost use Rattle.plain_tree.specs.Tree.Plain.{body_of};
ghost use Rattle.procs_files.specs.Heads.{IsNextName};
ghost use Rattle.plain_steps.specs.Slots.{IsIn, count_slots};

use base::SLOTS_PER_BLOCK;
use nfs_types::Octets;
use plain_tree::{PlainBody, PlainDirent};
use procs_files::SlotName;
use std::alloc::AllocError;

// Where the entry stands that lies in a slot.
fn slot_position(entries: &[PlainDirent], slot: u64) -> Option<usize>
    ensures { result ≡ position (λ dirent. nat_eq dirent.slot slot) entries.now }
{
    entries.iter().position(|dirent| dirent.slot as u64 == slot)
}

fn name_of(dirent: &PlainDirent) -> Result<Octets, AllocError>
    ensures { IfOk result (λ name. name ≡ dirent.now.name) }
{
    dirent.name.clone()
}

// The name that lies in a slot.
fn name_in(body: &PlainBody, slot: u64) -> Result<Option<SlotName>, AllocError>
    ensures slot { IfOk result (λ found. IfSome found (λ name. name.slot ≡ slot)) }
    ensures is { IfOk result (λ found. IsIn (body_of body.now) slot found) }
{
    let PlainBody::Directory { entries, .. } = body else {
        return Ok(None);
    };
    let entries = entries.as_slice();
    match slot_position(entries, slot) {
        Some(index) => {
            let dirent = &entries[index];
            let name = name_of(dirent)?;
            Ok(Some(SlotName {
                slot: dirent.slot,
                name,
                number: dirent.number,
            }))
        }
        None => Ok(None),
    }
}

// How many slots a directory has.
fn slots_of(body: &PlainBody) -> u64
    ensures is { result ≡ count_slots (body_of body.now) }
    ensures small { result < 2 ^ 37 }
{
    match body {
        PlainBody::Directory { span, .. } => SLOTS_PER_BLOCK as u64 * *span as u64,
        PlainBody::Regular { .. } | PlainBody::Link { .. } => 0,
    }
}

/// The first name of a directory in this slot or past it.
pub(crate) fn next_name(body: &PlainBody, from: u64) -> Result<Option<SlotName>, AllocError>
    ensures past { IfOk result (λ found. IfSome found (λ name. from ≤ name.slot)) }
    ensures small { IfOk result (λ found. IfSome found (λ name. name.slot < 2 ^ 32)) }
    ensures is { IfOk result (λ found. IsNextName (body_of body.now) from found) }
{
    let end = slots_of(body);
    let mut slot = from;
    'slots: while slot < end {
        if let Some(name) = name_in(body, slot)? {
            return Ok(Some(name));
        }
        slot += 1;
    }
    Ok(None)
}
