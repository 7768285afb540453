//! The bytes past a file's size.
ghost use Rattle.std.specs.Prelude.{◌≡◌, ◌≤◌, ℕ, length, drop, true, IfOk, IsErrOf};
ghost use Rattle.std.specs.List.{list_all};
ghost use Rattle.base.specs.declared.TheConstants.{BLOCK_BYTES, FIRST_DOUBLE_INDEX};
ghost use Rattle.layout.specs.Decode.{bytes_of, content_of};
ghost use Rattle.layout.specs.Fields.{is_zeros};
ghost use Rattle.layout.specs.InodeForm.{is_data_block_or_none};
ghost use Rattle.circ.specs.Log.Recovery.{HasOnlyRead, IsCertain};
ghost use Rattle.image_read.specs.Parts.Table.{CountsPart};
ghost use Rattle.image_read.specs.Files.Content.{AreLong, content_on};

use crate::logged_image::Overlay;
use crate::parts::PartFault;
use base::BLOCK_BYTES;
use disk::{Block, BlockNo, CrashDisk};
use layout::Geometry;
use std::alloc::Global;

/// Whether the blocks of these numbers, one behind another, have nothing but zeros past a size.
#[tactic(auto, using(circ::proofs::LogLemmas::OnlyRead::reads_then, circ::proofs::LogLemmas::OnlyRead::no_read))]
pub fn is_zero_past<D: CrashDisk>(
    alloc: Global,
    disk: &mut D,
    overlay: &Overlay,
    geometry: &Geometry,
    size: u64,
    numbers: &[u32],
) -> Result<bool, PartFault>
    requires size { geometry.now.blocks ≤ (D.device disk.old).size }
    requires few { length numbers.now ≤ FIRST_DOUBLE_INDEX }
    requires placed { list_all (is_data_block_or_none geometry.now) numbers.now ≡ true }
    ensures reads { HasOnlyRead (D.device disk.old) (D.device disk.new) }
    ensures failure { CountsPart (D.device disk.old) (D.device disk.new) result }
    ensures model { D.keeps_model disk.new → D.keeps_model disk.old }
    ensures zeros { D.keeps_model disk.new → IsCertain (D.device disk.old)
        → AreLong (content_on geometry.now overlay.now (D.device disk.old))
        → IfOk result (λ yes. yes ≡ is_zeros (drop size
        (bytes_of (content_on geometry.now overlay.now (D.device disk.old)) numbers.now))) }
    ensures other { IsErrOf result PartFault.Range → ⊥ }
{
    let mut block = Block::zeros(alloc)?;
    'places: for index_within in 0..numbers.len() {
        let before = BLOCK_BYTES as u64 * index_within as u64;
        let from = size.saturating_sub(before) as usize;
        if !is_zero_block(
            disk,
            overlay,
            geometry,
            &mut block,
            numbers[index_within],
            from,
        )? {
            return Ok(false);
        }
    }
    Ok(true)
}

// Whether a block has nothing but zeros from an offset on, where there is one. It is read only where that isn't
// known.
#[tactic(auto, using(circ::proofs::LogLemmas::OnlyRead::no_read))]
fn is_zero_block<D: CrashDisk>(
    disk: &mut D,
    overlay: &Overlay,
    geometry: &Geometry,
    block: &mut Block,
    number: u32,
    from: usize,
) -> Result<bool, PartFault>
    requires size { geometry.now.blocks ≤ (D.device disk.old).size }
    requires placed { is_data_block_or_none geometry.now number ≡ true }
    ensures reads { HasOnlyRead (D.device disk.old) (D.device disk.new) }
    ensures failure { CountsPart (D.device disk.old) (D.device disk.new) result }
    ensures model { D.keeps_model disk.new → D.keeps_model disk.old }
    ensures zeros { D.keeps_model disk.new → IsCertain (D.device disk.old)
        → AreLong (content_on geometry.now overlay.now (D.device disk.old))
        → IfOk result (λ yes. yes ≡ is_zeros (drop from
        (content_of (content_on geometry.now overlay.now (D.device disk.old)) number))) }
    ensures other { IsErrOf result PartFault.Range → ⊥ }
{
    if number == 0 {
        return Ok(true);
    }
    if from >= BLOCK_BYTES {
        return Ok(true);
    }
    overlay.read(disk, BlockNo(number), block)?;
    Ok(is_zero_from(block.as_slice(), from))
}

// Whether these bytes are zeros from an offset on.
fn is_zero_from(bytes: &[u8], from: usize) -> bool
    requires { from ≤ length bytes.now }
    ensures { result ≡ is_zeros (drop from bytes.now) }
{
    let (_, rest) = bytes.split_at(from);
    rest.iter().all(|byte| *byte == 0)
}
