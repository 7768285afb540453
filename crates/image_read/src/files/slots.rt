//! The slots of directories.
ghost use Rattle.std.specs.Prelude.{◌≡◌, ◌*◌, ◌⊎◌, ◌≤◌, ℕ, alloc_error, length, take, nat_eq, true, IfErr, IfOk, IsErrOf, IsOk, OnOk};
ghost use Rattle.std.specs.List.{list_all};
ghost use Rattle.base.specs.declared.TheConstants.{BLOCK_BYTES, FIRST_DOUBLE_INDEX, SLOTS_PER_BLOCK};
ghost use Rattle.layout.specs.Decode.{bytes_of, span_of};
ghost use Rattle.layout.specs.InodeForm.{is_data_block_or_none};
ghost use Rattle.layout.specs.Places.{is_data};
ghost use Rattle.layout.specs.SlotForm.{read_slot};
ghost use Rattle.layout.specs.declared.slot.TheConstants.{SLOT_BYTES};
ghost use Rattle.circ.specs.Log.Recovery.{HasOnlyRead, IsCertain};
ghost use Rattle.image_read.specs.Parts.Table.{CountsPart};
ghost use Rattle.image_read.specs.Files.Content.{AreLong, content_on};
ghost use Rattle.image_read.specs.Files.Slots.{ArePushed, AreSlots, AreWithin, HasSlots, IsPushed, IsSpanned};

use crate::logged_image::Overlay;
use crate::parts::PartFault;
use base::{BLOCK_BYTES, SLOTS_PER_BLOCK};
use disk::{Block, BlockNo, CrashDisk};
use layout::{Geometry, Inode, Slot};
use std::alloc::{AllocError, Global};

/// The slots of a directory that are in use, by the numbers of the blocks of all its indexes. They are refused where a
/// block is missing that the directory spans or is there past them, or the layout refuses a slot.
#[tactic(auto, using(circ::proofs::LogLemmas::OnlyRead::reads_then, circ::proofs::LogLemmas::OnlyRead::no_read))]
pub fn read_directory<D: CrashDisk>(
    alloc: Global,
    disk: &mut D,
    overlay: &Overlay,
    geometry: &Geometry,
    inode: &Inode,
    numbers: &[u32],
) -> Result<Vec<Slot>, PartFault>
    requires size { geometry.now.blocks ≤ (D.device disk.old).size }
    requires few { length numbers.now ≤ FIRST_DOUBLE_INDEX }
    requires placed { list_all (is_data_block_or_none geometry.now) numbers.now ≡ true }
    ensures reads { HasOnlyRead (D.device disk.old) (D.device disk.new) }
    ensures failure { CountsPart (D.device disk.old) (D.device disk.new) result }
    ensures model { D.keeps_model disk.new → D.keeps_model disk.old }
    ensures spanned { D.keeps_model disk.new → IsCertain (D.device disk.old)
        → AreLong (content_on geometry.now overlay.now (D.device disk.old))
        → IfOk result (λ _. IsSpanned geometry.now.inodes
        (content_on geometry.now overlay.now (D.device disk.old)) inode.now numbers.now) }
    ensures within { IfOk result (λ slots. AreWithin geometry.now.inodes slots.items) }
    ensures slots { D.keeps_model disk.new → IsCertain (D.device disk.old)
        → AreLong (content_on geometry.now overlay.now (D.device disk.old))
        → IfOk result (λ slots. HasSlots geometry.now.inodes
        (bytes_of (content_on geometry.now overlay.now (D.device disk.old))
        (take (span_of inode.now) numbers.now)) (SLOTS_PER_BLOCK * span_of inode.now) slots.items) }
    ensures refused { D.keeps_model disk.new → IsCertain (D.device disk.old)
        → AreLong (content_on geometry.now overlay.now (D.device disk.old))
        → IsErrOf result PartFault.Range
        → IsSpanned geometry.now.inodes
        (content_on geometry.now overlay.now (D.device disk.old)) inode.now numbers.now → ⊥ }
{
    let span = inode.size / BLOCK_BYTES as u64;
    if span > numbers.len() as u64 {
        return Err(PartFault::Range);
    }
    let (spanned, others) = numbers.split_at(span as usize);
    if !are_data(geometry, spanned) || !are_none(others) {
        return Err(PartFault::Range);
    }
    read_slots(alloc, disk, overlay, geometry, spanned)
}

// Whether each number is that of a data block.
fn are_data(geometry: &Geometry, numbers: &[u32]) -> bool
    ensures { result ≡ list_all (is_data geometry.now) numbers.now }
{
    for number in numbers {
        if !geometry.is_data(*number) {
            return false;
        }
    }
    true
}

// Whether each number is 0.
fn are_none(numbers: &[u32]) -> bool
    ensures { result ≡ list_all (λ number. nat_eq number 0) numbers.now }
{
    numbers.iter().all(|number| *number == 0)
}

// The slots in use in the blocks of these numbers, one behind another.
#[tactic(auto, using(circ::proofs::LogLemmas::OnlyRead::reads_then, circ::proofs::LogLemmas::OnlyRead::no_read))]
fn read_slots<D: CrashDisk>(
    alloc: Global,
    disk: &mut D,
    overlay: &Overlay,
    geometry: &Geometry,
    numbers: &[u32],
) -> Result<Vec<Slot>, PartFault>
    requires size { geometry.now.blocks ≤ (D.device disk.old).size }
    requires placed { list_all (is_data geometry.now) numbers.now ≡ true }
    ensures reads { HasOnlyRead (D.device disk.old) (D.device disk.new) }
    ensures failure { CountsPart (D.device disk.old) (D.device disk.new) result }
    ensures model { D.keeps_model disk.new → D.keeps_model disk.old }
    ensures within { IfOk result (λ slots. AreWithin geometry.now.inodes slots.items) }
    ensures slots { D.keeps_model disk.new → IsCertain (D.device disk.old)
        → AreLong (content_on geometry.now overlay.now (D.device disk.old))
        → IfOk result (λ slots. HasSlots geometry.now.inodes
        (bytes_of (content_on geometry.now overlay.now (D.device disk.old)) numbers.now)
        (SLOTS_PER_BLOCK * length numbers.now) slots.items) }
    ensures refused { D.keeps_model disk.new → IsCertain (D.device disk.old)
        → AreLong (content_on geometry.now overlay.now (D.device disk.old))
        → IsErrOf result PartFault.Range
        → AreSlots geometry.now.inodes
        (bytes_of (content_on geometry.now overlay.now (D.device disk.old)) numbers.now)
        (SLOTS_PER_BLOCK * length numbers.now) → ⊥ }
{
    let mut slots = Vec::new(alloc);
    let mut block = Block::zeros(alloc)?;
    'places: for index_within in 0..numbers.len() {
        overlay.read(disk, BlockNo(numbers[index_within]), &mut block)?;
        push_slots(alloc, geometry.inodes, block.as_slice(), &mut slots)?;
    }
    Ok(slots)
}

// Adds the slots in use in a block.
fn push_slots(
    alloc: Global,
    inodes: u32,
    block: &[u8],
    slots: &mut Vec<Slot>,
) -> Result<(), PartFault>
    requires { length block.now ≡ BLOCK_BYTES }
    ensures pushed { OnOk result (ArePushed inodes block.now SLOTS_PER_BLOCK slots.old.items slots.new.items) }
    ensures refused { IfErr result (λ fault. (fault ≡ PartFault.NoMemory alloc_error)
        ⊎ ((fault ≡ PartFault.Range) × (AreSlots inodes block.now SLOTS_PER_BLOCK → ⊥))) }
{
    'places: for index_within in 0..SLOTS_PER_BLOCK {
        push_slot(alloc, inodes, Slot::bytes_in(block, index_within), slots)?;
    }
    Ok(())
}

// Adds a slot, if it is in use.
fn push_slot(
    alloc: Global,
    inodes: u32,
    bytes: &[u8],
    slots: &mut Vec<Slot>,
) -> Result<(), PartFault>
    requires { length bytes.now ≡ SLOT_BYTES }
    ensures pushed { OnOk result (IsPushed inodes bytes.now slots.old.items slots.new.items) }
    ensures refused { IfErr result (λ fault. (fault ≡ PartFault.NoMemory alloc_error)
        ⊎ ((fault ≡ PartFault.Range) × (IsOk (read_slot inodes bytes.now) → ⊥))) }
{
    let Some(slot) = Slot::read(alloc, inodes, bytes)?? else {
        return Ok(());
    };
    slots.push(slot).map_err(AllocError::from)?;
    Ok(())
}
