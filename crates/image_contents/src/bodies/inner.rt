//! What the double indirect block of a file reaches.
ghost use Rattle.std.specs.Prelude.{◌≡◌, ◌&&◌, ◌++◌, ◌<◌, ◌≤◌, ℕ, List, filter, get_or, length, true, IfOk, IsErrOf};
ghost use Rattle.std.specs.List.{flat_map};
ghost use Rattle.base.specs.declared.TheConstants.{INDIRECT_INDEXES};
ghost use Rattle.layout.specs.Decode.{numbers_in};
ghost use Rattle.circ.specs.Log.Recovery.{HasOnlyRead, IsCertain};
ghost use Rattle.image_read.specs.ImageCounts.Tally.{IsOwned};
ghost use Rattle.image_read.specs.Counts.Adds.{is_some};
ghost use Rattle.image_read.specs.Parts.Table.{CountsPart};
ghost use Rattle.image_read.specs.Files.Content.{AreLong, content_on};
ghost use Rattle.image_read.specs.Files.RowNumbers.{IsBelowMapped, IsRowMapped};
ghost use Rattle.image_contents.specs.Bodies.Inner.{are_zero_rows, below_of, is_zero_below, is_zero_row};

use base::{BLOCK_BYTES, FIRST_DOUBLE_INDEX, INDIRECT_INDEXES};
use disk::CrashDisk;
use image_read::{Overlay, Owners, PartFault, is_zero_past, meet_blocks, read_pointers};
use layout::{Geometry, Inode};
use std::alloc::Global;

// Meets the blocks that an inner block of a file names, if it has this one, and tells whether they have nothing but
// zeros past the file's size.
#[tactic(auto, using(circ::proofs::LogLemmas::OnlyRead::reads_then, circ::proofs::LogLemmas::OnlyRead::no_read))]
fn scan_row<D: CrashDisk>(
    alloc: Global,
    disk: &mut D,
    overlay: &Overlay,
    geometry: &Geometry,
    size: u64,
    pointer: u32,
    inner: usize,
    owners: &mut Owners,
) -> Result<bool, PartFault>
    requires size { geometry.now.blocks ≤ (D.device disk.old).size }
    requires inner { inner < INDIRECT_INDEXES }
    requires owners { length owners.old.has ≡ geometry.now.blocks }
    ensures reads { HasOnlyRead (D.device disk.old) (D.device disk.new) }
    ensures failure { CountsPart (D.device disk.old) (D.device disk.new) result }
    ensures model { D.keeps_model disk.new → D.keeps_model disk.old }
    ensures owners { length owners.new.has ≡ length owners.old.has }
    ensures scanned { D.keeps_model disk.new → IsCertain (D.device disk.old)
        → AreLong (content_on geometry.now overlay.now (D.device disk.old))
        → IfOk result (λ yes. (yes ≡ is_zero_row
        (content_on geometry.now overlay.now (D.device disk.old)) size pointer inner)
        × IsRowMapped geometry.now (content_on geometry.now overlay.now (D.device disk.old)) pointer
        × ((met : List ℕ) → IsOwned met owners.old → IsOwned (met ++ filter is_some
        (numbers_in (content_on geometry.now overlay.now (D.device disk.old)) pointer)) owners.new)) }
    ensures refused { D.keeps_model disk.new → IsCertain (D.device disk.old) → IsErrOf result PartFault.Range
        → IsRowMapped geometry.now (content_on geometry.now overlay.now (D.device disk.old)) pointer → ⊥ }
{
    if pointer == 0 {
        return Ok(true);
    }
    let numbers = read_pointers(alloc, disk, overlay, geometry, pointer)?;
    meet_blocks(owners, 0, numbers.as_slice());
    let before = BLOCK_BYTES as u64 * (FIRST_DOUBLE_INDEX + INDIRECT_INDEXES * inner) as u64;
    let rest = size.saturating_sub(before);
    is_zero_past(alloc, disk, overlay, geometry, rest, numbers.as_slice())
}

/// Whether both hold.
pub(crate) fn both(one: bool, other: bool) -> bool
    ensures { result ≡ (one && other) }
{
    one && other
}

// Meets the blocks that inner blocks of a file name, one inner block after another, and tells whether they have nothing
// but zeros past the file's size.
#[tactic(auto, using(circ::proofs::LogLemmas::OnlyRead::reads_then, circ::proofs::LogLemmas::OnlyRead::no_read))]
fn scan_rows<D: CrashDisk>(
    alloc: Global,
    disk: &mut D,
    overlay: &Overlay,
    geometry: &Geometry,
    size: u64,
    inner: &[u32],
    owners: &mut Owners,
) -> Result<bool, PartFault>
    requires size { geometry.now.blocks ≤ (D.device disk.old).size }
    requires count { length inner.now ≡ INDIRECT_INDEXES }
    requires owners { length owners.old.has ≡ geometry.now.blocks }
    ensures reads { HasOnlyRead (D.device disk.old) (D.device disk.new) }
    ensures failure { CountsPart (D.device disk.old) (D.device disk.new) result }
    ensures model { D.keeps_model disk.new → D.keeps_model disk.old }
    ensures owners { length owners.new.has ≡ length owners.old.has }
    ensures scanned { D.keeps_model disk.new → IsCertain (D.device disk.old)
        → AreLong (content_on geometry.now overlay.now (D.device disk.old))
        → IfOk result (λ yes. (yes ≡ are_zero_rows
        (content_on geometry.now overlay.now (D.device disk.old)) size inner.now)
        × ((i : ℕ) → i < length inner.now → IsRowMapped geometry.now
        (content_on geometry.now overlay.now (D.device disk.old)) (get_or inner.now i 0))
        × ((met : List ℕ) → IsOwned met owners.old → IsOwned (met ++ filter is_some
        (flat_map (numbers_in (content_on geometry.now overlay.now (D.device disk.old))) inner.now)) owners.new)) }
    ensures refused { D.keeps_model disk.new → IsCertain (D.device disk.old) → IsErrOf result PartFault.Range
        → ((i : ℕ) → i < length inner.now → IsRowMapped geometry.now
        (content_on geometry.now overlay.now (D.device disk.old)) (get_or inner.now i 0)) → ⊥ }
{
    let mut is_zero = true;
    'rows: for index in 0..inner.len() {
        let row = scan_row(
            alloc,
            disk,
            overlay,
            geometry,
            size,
            inner[index],
            index,
            owners,
        )?;
        is_zero = both(is_zero, row);
    }
    Ok(is_zero)
}

/// Meets the double indirect block of a file, its inner blocks and the blocks that these name, if there are any, and
/// tells whether they have nothing but zeros past the file's size.
#[tactic(auto, using(circ::proofs::LogLemmas::OnlyRead::reads_then, circ::proofs::LogLemmas::OnlyRead::no_read))]
pub(crate) fn scan_below<D: CrashDisk>(
    alloc: Global,
    disk: &mut D,
    overlay: &Overlay,
    geometry: &Geometry,
    inode: &Inode,
    owners: &mut Owners,
) -> Result<bool, PartFault>
    requires size { geometry.now.blocks ≤ (D.device disk.old).size }
    requires owners { length owners.old.has ≡ geometry.now.blocks }
    ensures reads { HasOnlyRead (D.device disk.old) (D.device disk.new) }
    ensures failure { CountsPart (D.device disk.old) (D.device disk.new) result }
    ensures model { D.keeps_model disk.new → D.keeps_model disk.old }
    ensures owners { length owners.new.has ≡ length owners.old.has }
    ensures scanned { D.keeps_model disk.new → IsCertain (D.device disk.old)
        → AreLong (content_on geometry.now overlay.now (D.device disk.old))
        → IfOk result (λ yes. (yes ≡ is_zero_below (content_on geometry.now overlay.now (D.device disk.old)) inode.now)
        × IsBelowMapped geometry.now (content_on geometry.now overlay.now (D.device disk.old)) inode.now.double
        × ((met : List ℕ) → IsOwned met owners.old → IsOwned
        (met ++ below_of (content_on geometry.now overlay.now (D.device disk.old)) inode.now.double) owners.new)) }
    ensures refused { D.keeps_model disk.new → IsCertain (D.device disk.old) → IsErrOf result PartFault.Range
        → IsBelowMapped geometry.now (content_on geometry.now overlay.now (D.device disk.old)) inode.now.double → ⊥ }
{
    if inode.double == 0 {
        return Ok(true);
    }
    let inner = read_pointers(alloc, disk, overlay, geometry, inode.double)?;
    meet_blocks(owners, inode.double, inner.as_slice());
    scan_rows(
        alloc,
        disk,
        overlay,
        geometry,
        inode.size,
        inner.as_slice(),
        owners,
    )
}
