//! What all slots have in common that have one name.
ghost use Rattle.std.specs.Prelude.{◌≡◌, ◌+◌, ◌≤◌, ◌++◌, ℕ, List, length, take, drop, IfNone, IfSome, Ok, Some};
ghost use Rattle.layout.specs.SlotForm.{number_under, read_slot, used_bytes};

use crate::slot::{COUNT_AT, NAME_AT, SLOT_BYTES};
use base::NAME_BYTES;
use std::marker::Model;

/// A name with the bytes of the slots that have it, but for a number, which is zero.
#[derive(Drop)]
pub struct NamePattern<'a> {
    name: &'a [u8],
    bytes: [u8; SLOT_BYTES],
}

impl<'a> Model for NamePattern<'a> {
    ghost use Rattle.std.specs.Prelude.{◌≡◌, ℕ, List};
    ghost use Rattle.layout.specs.SlotForm.{used_bytes};

    ghost Value = { List ℕ };

    ghost view = { λ pattern. pattern.name.now };

    ghost invariant = { λ pattern. pattern.bytes ≡ used_bytes (record { number = 0; name = pattern.name.now }) };
}

impl<'a> NamePattern<'a> {
    ghost use Rattle.layout.specs.declared.slot.TheConstants.{SLOT_BYTES};

    /// That of a name: None where it is longer than that of a slot may be, so that none has it.
    pub fn of(name: &'a [u8]) -> Option<NamePattern<'a>>
        ensures some { IfSome result (λ pattern. pattern ≡ name.now) }
        ensures none { IfNone result ((inodes number : ℕ) (bytes : List ℕ) → length bytes ≡ SLOT_BYTES
            → number_under name.now (read_slot inodes bytes) ≡ Ok (Some number) → ⊥) }
    {
        if name.len() > NAME_BYTES {
            return None;
        }
        let mut bytes = [0; SLOT_BYTES];
        let count = (name.len() as u32).to_le_bytes();
        put(&mut bytes, COUNT_AT, &count);
        put(&mut bytes, NAME_AT, name);
        Some(NamePattern { name, bytes })
    }

    // The name.
    pub(crate) fn name(&self) -> &[u8]
        ensures { result.now ≡ self.now }
    {
        self.name
    }

    // The bytes.
    pub(crate) fn bytes(&self) -> &[u8]
        ensures bytes { result.now ≡ used_bytes (record { number = 0; name = self.now }) }
        ensures len { length result.now ≡ SLOT_BYTES }
    {
        &self.bytes
    }
}

// Lays bytes over others, from an offset on.
fn put(bytes: &mut [u8], at: usize, part: &[u8])
    requires { at + length part.now ≤ length bytes.old }
    ensures { bytes.new ≡ take at bytes.old ++ part.now ++ drop (at + length part.now) bytes.old }
{
    bytes[at..at + part.len()].copy_from_slice(part);
}
