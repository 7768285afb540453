//! The names in a directory's slots.
ghost use Rattle.std.specs.Prelude.{◌≡◌, Ok, false, true};
ghost use Rattle.image_contents.specs.Names.Names.{AreNames, is_name};

use base::NAME_BYTES;
use layout::Slot;
use procs_files::{is_no_name, is_own_name};
use std::alloc::{AllocError, Global};
use std::collections::BTreeSet;

/// Whether each name in these slots is one that a file may be given, and none stands twice.
pub fn are_names(alloc: Global, slots: &[Slot]) -> Result<bool, AllocError>
    ensures yes { result ≡ Ok true → AreNames slots.now }
    ensures no { result ≡ Ok false → AreNames slots.now → ⊥ }
{
    let mut names: BTreeSet<Vec<u8>> = BTreeSet::new(alloc);
    'places: for index_within in 0..slots.len() {
        let name = slots[index_within].name.as_slice();
        if !is_name(name) {
            return Ok(false);
        }
        let key = name.to_vec(alloc)?;
        if !names.insert(key)? {
            return Ok(false);
        }
    }
    Ok(true)
}

// Whether a file may be given this name.
fn is_name(name: &[u8]) -> bool
    ensures { result ≡ is_name name.now }
{
    !is_no_name(name) && name.len() <= NAME_BYTES && !is_own_name(name)
}
