//! The slots of one block of a directory.
ghost use Rattle.std.specs.Prelude.{◌≡◌, ◌+◌, ◌*◌, ◌^◌, ◌<◌, ◌≤◌, ℕ, true, length, IfOk, IfErr};
ghost use Rattle.base.specs.declared.TheConstants.{BLOCK_BYTES, MOST_SPAN, SLOTS_PER_BLOCK};
ghost use Rattle.layout.specs.declared.slot.TheConstants.{SLOT_BYTES};
ghost use Rattle.layout.specs.SlotForm.{IsProbe, read_slot};
ghost use Rattle.dir.specs.Slots.{HasFault, IsFound, IsNext, NoneRefused, block_slot};

use base::SLOTS_PER_BLOCK;
use layout::{LayoutFault, NamePattern, Slot, SlotProbe};
use procs_files::{SlotDirent, SlotName};
use std::alloc::{AllocError, Global};

/// What a look through a block for a name has found: the slot that has it, if one does; and, of the slots before
/// `past`, behind which none was looked at, whether none is refused.
#[derive(Drop)]
pub(crate) struct BlockScan {
    pub found: Option<SlotDirent>,
    pub past: u32,
    pub is_valid: bool,
}

/// Looks at a slot for a name, with which its own is compared, and counts that it is. Nothing else compares names.
pub fn compare(inodes: u32, slot: &[u8], name: &NamePattern, compared: &mut u64) -> SlotProbe
    requires len { length slot.now ≡ SLOT_BYTES }
    requires no_overflow { compared.old + 1 < 2 ^ 64 }
    ensures probe { IsProbe name.now (read_slot inodes slot.now) result }
    ensures one { compared.new ≡ compared.old + 1 }
{
    *compared += 1;
    Slot::probe(inodes, slot, name)
}

/// A slot of a block that has a name, where the block's slots are numbered from one on. One that the layout refuses
/// has none. Each slot is looked at once, up to the one that has it.
pub(crate) fn find_in_block(
    inodes: u32,
    block: &[u8],
    first: u32,
    name: &[u8],
    compared: &mut u64,
) -> BlockScan
    requires len { length block.now ≡ BLOCK_BYTES }
    requires small { first + SLOTS_PER_BLOCK ≤ SLOTS_PER_BLOCK * MOST_SPAN }
    requires no_overflow { compared.old + SLOTS_PER_BLOCK < 2 ^ 64 }
    ensures found { IsFound (block_slot inodes first block.now) name.now first (first + SLOTS_PER_BLOCK) result.found }
    ensures is_valid { result.is_valid ≡ true → NoneRefused (block_slot inodes first block.now) first result.past }
    ensures past { first ≤ result.past }
    ensures count { compared.new ≤ compared.old + SLOTS_PER_BLOCK }
{
    let pattern = match NamePattern::of(name) {
        Some(pattern) => pattern,
        None => {
            return BlockScan {
                found: None,
                past: first,
                is_valid: true,
            };
        }
    };
    let mut is_valid = true;
    'slots: for slot in first..first + SLOTS_PER_BLOCK {
        let bytes = Slot::bytes_in(block, slot - first);
        match compare(inodes, bytes, &pattern, compared) {
            SlotProbe::Named(number) => {
                return BlockScan {
                    found: Some(SlotDirent { number, slot }),
                    past: slot + 1,
                    is_valid,
                };
            }
            SlotProbe::Refused => is_valid = false,
            SlotProbe::Other => {}
        }
    }
    BlockScan {
        found: None,
        past: first + SLOTS_PER_BLOCK,
        is_valid,
    }
}

/// Whether the layout refuses no slot of a block from one on.
pub(crate) fn is_valid_from(inodes: u32, block: &[u8], first: u32, from: u32) -> bool
    requires len { length block.now ≡ BLOCK_BYTES }
    requires small { first + SLOTS_PER_BLOCK ≤ SLOTS_PER_BLOCK * MOST_SPAN }
    requires from { first ≤ from }
    ensures { result ≡ true → NoneRefused (block_slot inodes first block.now) from (first + SLOTS_PER_BLOCK) }
{
    'slots: for slot in from..first + SLOTS_PER_BLOCK {
        if Slot::is_refused(inodes, Slot::bytes_in(block, slot - first)) {
            return false;
        }
    }
    true
}

/// The first slot of a block, from one on, in which a name lies.
pub(crate) fn next_in_block(
    alloc: Global,
    inodes: u32,
    block: &[u8],
    first: u32,
    from: u32,
) -> Result<Result<Option<SlotName>, LayoutFault>, AllocError>
    requires len { length block.now ≡ BLOCK_BYTES }
    requires small { first + SLOTS_PER_BLOCK ≤ SLOTS_PER_BLOCK * MOST_SPAN }
    requires from { first ≤ from }
    ensures ok { IfOk result (λ read. IfOk read
        (λ found. IsNext (block_slot inodes first block.now) from (first + SLOTS_PER_BLOCK) found)) }
    ensures err { IfOk result (λ read. IfErr read (λ fault. HasFault (block_slot inodes first block.now) from
        (first + SLOTS_PER_BLOCK))) }
{
    'slots: for slot in from..first + SLOTS_PER_BLOCK {
        match Slot::read(alloc, inodes, Slot::bytes_in(block, slot - first))? {
            Ok(None) => {}
            Ok(Some(Slot { number, name })) => {
                return Ok(Ok(Some(SlotName { slot, number, name })));
            }
            Err(fault) => return Ok(Err(fault)),
        }
    }
    Ok(Ok(None))
}
