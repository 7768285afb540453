//! The numbers of a file's blocks.
ghost use Rattle.std.specs.Prelude.{◌≡◌, ◌≤◌, ℕ, List, length, nat_eq, true, IfOk, IsErrOf};
ghost use Rattle.std.specs.List.{list_all};
ghost use Rattle.base.specs.declared.TheConstants.{FIRST_DOUBLE_INDEX};
ghost use Rattle.layout.specs.InodeForm.{SoundInode, is_data_block_or_none};
ghost use Rattle.layout.specs.Places.{is_data};
ghost use Rattle.circ.specs.Log.Recovery.{HasOnlyRead, IsCertain, image_of};
ghost use Rattle.image_read.specs.LoggedImage.WithOverlay.{with_overlay};
ghost use Rattle.image_read.specs.Parts.Table.{CountsPart};
ghost use Rattle.image_read.specs.Files.Content.{content_on};
ghost use Rattle.image_read.specs.Files.RowNumbers.{AreRowNumbers, IsMappedBeforeDouble, numbers_before_double};

use crate::logged_image::Overlay;
use crate::parts::PartFault;
use base::INDIRECT_INDEXES;
use disk::{Block, BlockNo, CrashDisk};
use layout::{Geometry, Inode, Numbers};
use std::alloc::Global;

/// The numbers of the blocks of a file that lie in no inner block: those that its inode names itself, and those in its
/// indirect block, 0 where no block is mapped. They are refused where one is that of no data block, or an indirect
/// block has none.
#[tactic(auto, using(circ::proofs::LogLemmas::OnlyRead::reads_then, circ::proofs::LogLemmas::OnlyRead::no_read))]
pub fn read_numbers<D: CrashDisk>(
    alloc: Global,
    disk: &mut D,
    overlay: &Overlay,
    geometry: &Geometry,
    inode: &Inode,
) -> Result<Vec<u32>, PartFault>
    requires { geometry.now.blocks ≤ (D.device disk.old).size }
    ensures reads { HasOnlyRead (D.device disk.old) (D.device disk.new) }
    ensures failure { CountsPart (D.device disk.old) (D.device disk.new) result }
    ensures model { D.keeps_model disk.new → D.keeps_model disk.old }
    ensures len { IfOk result (λ numbers. length numbers.items ≡ FIRST_DOUBLE_INDEX) }
    ensures placed { IfOk result (λ numbers. list_all (is_data_block_or_none geometry.now) numbers.items ≡ true) }
    ensures indirect { IfOk result (λ _. is_data_block_or_none geometry.now inode.now.indirect ≡ true) }
    ensures numbers { D.keeps_model disk.new → IsCertain (D.device disk.old) → IfOk result (λ numbers.
        (numbers.items
        ≡ numbers_before_double (content_on geometry.now overlay.now (D.device disk.old)) inode.now)
        × IsMappedBeforeDouble geometry.now (content_on geometry.now overlay.now (D.device disk.old))
        inode.now) }
    ensures refused { D.keeps_model disk.new → IsCertain (D.device disk.old) → SoundInode geometry.now inode.now
        → IsErrOf result PartFault.Range
        → IsMappedBeforeDouble geometry.now (content_on geometry.now overlay.now (D.device disk.old))
        inode.now → ⊥ }
{
    if !are_placed(geometry, &inode.direct) {
        return Err(PartFault::Range);
    }
    let mut numbers = Vec::from_slice(alloc, &inode.direct)?;
    if inode.indirect == 0 {
        numbers.extend_from_slice(&[0; INDIRECT_INDEXES])?;
        return Ok(numbers);
    }
    let indirect_part = read_pointers(alloc, disk, overlay, geometry, inode.indirect)?;
    numbers.extend_from_slice(indirect_part.as_slice())?;
    Ok(numbers)
}

// Whether each number is 0 or that of a data block.
fn are_placed(geometry: &Geometry, numbers: &[u32]) -> bool
    ensures { result ≡ list_all (is_data_block_or_none geometry.now) numbers.now }
{
    for number in numbers {
        if !is_placed(geometry, *number) {
            return false;
        }
    }
    true
}

// Whether a number is 0 or that of a data block.
fn is_placed(geometry: &Geometry, number: u32) -> bool
    ensures { result ≡ is_data_block_or_none geometry.now number }
{
    number == 0 || geometry.is_data(number)
}

/// The numbers in a block that holds numbers. They are refused where it isn't a data block, one is that of none, or all
/// are 0.
#[tactic(auto, using(circ::proofs::LogLemmas::OnlyRead::reads_then, circ::proofs::LogLemmas::OnlyRead::no_read))]
pub fn read_pointers<D: CrashDisk>(
    alloc: Global,
    disk: &mut D,
    overlay: &Overlay,
    geometry: &Geometry,
    pointer: u32,
) -> Result<Numbers, PartFault>
    requires { geometry.now.blocks ≤ (D.device disk.old).size }
    ensures reads { HasOnlyRead (D.device disk.old) (D.device disk.new) }
    ensures failure { CountsPart (D.device disk.old) (D.device disk.new) result }
    ensures model { D.keeps_model disk.new → D.keeps_model disk.old }
    ensures lies { IfOk result (λ _. is_data geometry.now pointer ≡ true) }
    ensures placed { IfOk result (λ numbers. list_all (is_data_block_or_none geometry.now) numbers ≡ true) }
    ensures numbers { D.keeps_model disk.new → IsCertain (D.device disk.old) → IfOk result
        (AreRowNumbers geometry.now (with_overlay overlay.now (image_of (D.device disk.old))) pointer) }
    ensures refused { D.keeps_model disk.new → IsCertain (D.device disk.old) → IsErrOf result PartFault.Range
        → (numbers : List ℕ)
        → AreRowNumbers geometry.now (with_overlay overlay.now (image_of (D.device disk.old))) pointer numbers → ⊥ }
{
    if !geometry.is_data(pointer) {
        return Err(PartFault::Range);
    }
    let mut block = Block::zeros(alloc)?;
    overlay.read(disk, BlockNo(pointer), &mut block)?;
    let numbers = Numbers::read(alloc, geometry, block.as_slice())??;
    if are_none(numbers.as_slice()) {
        return Err(PartFault::Range);
    }
    Ok(numbers)
}

// Whether each number is 0.
fn are_none(numbers: &[u32]) -> bool
    ensures { result ≡ list_all (λ number. nat_eq number 0) numbers.now }
{
    numbers.iter().all(|number| *number == 0)
}
