//! Slots: what the disk has of a name in a directory in 128 bytes.
ghost use Rattle.std.specs.Prelude.{◌≡◌, ◌+◌, ◌*◌, ◌<◌, ◌≤◌, ◌&&◌, ℕ, length, take, drop, true, false};
ghost use Rattle.std.specs.Prelude.{IfOk, IfErr, IsOk, Ok, Err, Option, Some};
ghost use Rattle.base.specs.declared.TheConstants.{BLOCK_BYTES, NAME_BYTES, SLOTS_PER_BLOCK};
ghost use Rattle.layout.specs.Fields.{four_at, is_zeros};
ghost use Rattle.layout.specs.SlotForm.{is_sound_slot, number_under, read_slot, used_bytes, IsInDirectory, IsProbe};

use crate::fields::{are_zeros_at, eight_at, four_at, is_zeros, put_four};
use crate::{LayoutFault, NamePattern};
use base::{BLOCK_BYTES, NAME_BYTES, SLOTS_PER_BLOCK};
use nfs_types::Octets;
use std::alloc::{AllocError, Global};

/// The bytes of a slot.
pub const SLOT_BYTES: usize = BLOCK_BYTES / SLOTS_PER_BLOCK as usize;

// Where the fields of a slot begin in its bytes: the number, the count of the name's bytes, and the name.

const NUMBER_AT: usize = 0;

pub(crate) const COUNT_AT: usize = 4;

pub(crate) const NAME_AT: usize = 8;

// How many times eight bytes there are behind the number, which are more than the longest name has.

const NAMED_WORDS: usize = (SLOT_BYTES - COUNT_AT) / 8;

/// What one look at a slot shows of a name: that the slot is refused, or the number that it has under the name, or
/// neither.
#[derive(Clone, Copy)]
pub enum SlotProbe {
    Refused,
    Named(u32),
    Other,
}

/// A name in a directory, and the number of the file that it names.
#[derive(Drop)]
pub struct Slot {
    pub number: u32,
    pub name: Octets,
}

impl Slot {
    /// Reads a slot of an image of so many inodes: None where it is free. It is refused (Range) exactly where
    /// no slot has the bytes, and a free one neither. The characters of a name aren't looked at.
    pub fn read(
        alloc: Global,
        inodes: u32,
        bytes: &[u8],
    ) -> Result<Result<Option<Slot>, LayoutFault>, AllocError>
        requires { length bytes.now ≡ SLOT_BYTES }
        ensures value { IfOk result (λ slot. slot ≡ read_slot inodes bytes.now) }
        ensures ok { IfOk result (λ slot. IfOk slot (λ one. IsInDirectory inodes bytes.now one)) }
        ensures err { IfOk result (λ slot. IfErr slot (λ fault. (fault ≡ LayoutFault.Range)
            × ((one : Option Slot) → IsInDirectory inodes bytes.now one → ⊥))) }
    {
        read_slot(alloc, inodes, bytes)
    }

    /// The bytes of a slot in a block of a directory.
    pub fn bytes_in(block: &[u8], slot: u32) -> &[u8]
        requires len { length block.now ≡ BLOCK_BYTES }
        requires slot { slot < SLOTS_PER_BLOCK }
        ensures bytes { result.now ≡ take SLOT_BYTES (drop (SLOT_BYTES * slot) block.now) }
        ensures len { length result.now ≡ SLOT_BYTES }
    {
        let (_, behind) = block.split_at(SLOT_BYTES * slot as usize);
        let (bytes, _) = behind.split_at(SLOT_BYTES);
        bytes
    }

    /// The bytes of a slot in which a name lies.
    pub fn named(alloc: Global, number: u32, name: &[u8]) -> Result<Vec<u8>, AllocError>
        requires { length name.now ≤ NAME_BYTES }
        ensures bytes { IfOk result (λ bytes. bytes.items
            ≡ used_bytes (record { number = number; name = name.now })) }
        ensures len { IfOk result (λ bytes. length bytes.items ≡ SLOT_BYTES) }
    {
        let mut bytes = Vec::with_capacity(alloc, SLOT_BYTES)?;
        put_four(&mut bytes, number)?;
        put_four(&mut bytes, name.len() as u32)?;
        bytes.extend_from_slice(name)?;
        let rest = vec![in alloc; 0; SLOT_BYTES - NAME_AT - name.len()]?;
        bytes.extend_from_slice(&rest)?;
        Ok(bytes)
    }

    /// Whether a slot is free: nothing but zeros.
    pub fn is_free(bytes: &[u8]) -> bool
        ensures { result ≡ is_zeros bytes.now }
    {
        is_zeros(bytes)
    }

    /// Whether a slot is refused, as reading it is: nothing is made of it.
    pub fn is_refused(inodes: u32, bytes: &[u8]) -> bool
        requires { length bytes.now ≡ SLOT_BYTES }
        ensures some { result ≡ true → read_slot inodes bytes.now ≡ Err LayoutFault.Range }
        ensures none { result ≡ false → IsOk (read_slot inodes bytes.now) }
    {
        if four_at(bytes, NUMBER_AT) == 0 {
            return !is_zeros(bytes);
        }
        !is_sound_slot(inodes, bytes)
    }

    /// Looks at a slot once for a name: whether it is refused, as reading it is, and the number that it has under the
    /// name. Most slots have another name, which a few bytes of it tell.
    pub fn probe(inodes: u32, bytes: &[u8], name: &NamePattern) -> SlotProbe
        requires { length bytes.now ≡ SLOT_BYTES }
        ensures { IsProbe name.now (read_slot inodes bytes.now) result }
    {
        let number = four_at(bytes, NUMBER_AT);
        if number == 0 {
            return if is_zeros(bytes) {
                SlotProbe::Other
            } else {
                SlotProbe::Refused
            };
        }
        if !is_sound_slot(inodes, bytes) {
            return SlotProbe::Refused;
        }
        if !may_have(bytes, name) {
            return SlotProbe::Other;
        }
        if name.name().cmp(name_in(bytes)).is_eq() {
            SlotProbe::Named(number)
        } else {
            SlotProbe::Other
        }
    }
}

// Whether a slot may have a name, by the length and the bytes alone that stand where it has one: they are looked
// at eight at a time. Where it may not, it has no number under the name: it is free, has another name, or is
// refused.
fn may_have(bytes: &[u8], name: &NamePattern) -> bool
    requires { length bytes.now ≡ SLOT_BYTES }
    ensures { result ≡ false → (inodes number : ℕ)
        → number_under name.now (read_slot inodes bytes.now) ≡ Ok (Some number) → ⊥ }
{
    if !has_word(bytes, name, 0) {
        return false;
    }
    'words: for word in 1..NAMED_WORDS {
        if !has_word(bytes, name, word) {
            return false;
        }
    }
    true
}

// Whether a slot has the eight bytes of a name's pattern that stand at an index behind the number.
fn has_word(bytes: &[u8], name: &NamePattern, word: usize) -> bool
    requires len { length bytes.now ≡ SLOT_BYTES }
    requires word { word < NAMED_WORDS }
    ensures { result ≡ false → (inodes number : ℕ)
        → number_under name.now (read_slot inodes bytes.now) ≡ Ok (Some number) → ⊥ }
{
    let at = COUNT_AT + 8 * word;
    if eight_at(bytes, at) != eight_at(name.bytes(), at) {
        return false;
    }
    true
}

// The name of a slot that is in use.
fn name_in(bytes: &[u8]) -> &[u8]
    requires len { length bytes.now ≡ SLOT_BYTES }
    requires count { four_at COUNT_AT bytes.now ≤ NAME_BYTES }
    ensures { result.now ≡ take (four_at COUNT_AT bytes.now) (drop NAME_AT bytes.now) }
{
    let (_, behind) = bytes.split_at(NAME_AT);
    let (name, _) = behind.split_at(four_at(bytes, COUNT_AT) as usize);
    name
}

// Reads a slot of an image of so many inodes: None where it is free.
fn read_slot(
    alloc: Global,
    inodes: u32,
    bytes: &[u8],
) -> Result<Result<Option<Slot>, LayoutFault>, AllocError>
    requires { length bytes.now ≡ SLOT_BYTES }
    ensures { IfOk result (λ slot. slot ≡ read_slot inodes bytes.now) }
{
    let number = four_at(bytes, NUMBER_AT);
    if number == 0 {
        return Ok(if is_zeros(bytes) {
            Ok(None)
        } else {
            Err(LayoutFault::Range)
        });
    }
    if !is_sound_slot(inodes, bytes) {
        return Ok(Err(LayoutFault::Range));
    }
    let name = Octets::copied(alloc, name_in(bytes))?;
    Ok(Ok(Some(Slot { number, name })))
}

// Whether a slot that is in use shows nothing wrong by itself.
fn is_sound_slot(inodes: u32, bytes: &[u8]) -> bool
    requires { length bytes.now ≡ SLOT_BYTES }
    ensures { result ≡ is_sound_slot inodes bytes.now }
{
    let count = four_at(bytes, COUNT_AT) as usize;
    if four_at(bytes, NUMBER_AT) >= inodes || count < 1 || count > NAME_BYTES {
        return false;
    }
    is_zeros_behind(bytes, count)
}

// Whether nothing but zeros is behind a name of so many bytes.
fn is_zeros_behind(bytes: &[u8], count: usize) -> bool
    requires len { length bytes.now ≡ SLOT_BYTES }
    requires count { count ≤ NAME_BYTES }
    ensures { result ≡ is_zeros (drop (NAME_AT + count) bytes.now) }
{
    if count > 24 {
        let (_, rest) = bytes.split_at(NAME_AT + count);
        return is_zeros(rest);
    }
    has_zero_parts(bytes, count)
}

// Whether four parts of a slot are zeros, which are all that is behind a short name: one from its end on, and three
// that are the same for each.
fn has_zero_parts(bytes: &[u8], count: usize) -> bool
    requires len { length bytes.now ≡ SLOT_BYTES }
    requires count { count ≤ 24 }
    ensures { result ≡ (is_zeros (take 32 (drop (NAME_AT + count) bytes.now)) && is_zeros (take 32 (drop 32 bytes.now))
        && is_zeros (take 32 (drop 64 bytes.now)) && is_zeros (take 32 (drop 96 bytes.now))) }
{
    are_zeros_at(bytes, NAME_AT + count)
        && are_zeros_at(bytes, 32)
        && are_zeros_at(bytes, 64)
        && are_zeros_at(bytes, 96)
}
