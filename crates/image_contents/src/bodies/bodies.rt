//! The files of an image.
ghost use Rattle.std.specs.Prelude.{◌≡◌, ◌&&◌, ◌<◌, ◌≤◌, ℕ, None, Some, get_or, length, true, IfOk, IsErrOf, OnOk};
ghost use Rattle.std.specs.List.{list_all};
ghost use Rattle.base.specs.declared.TheConstants.{FIRST_DOUBLE_INDEX};
ghost use Rattle.layout.specs.InodeForm.{SoundInode, is_data_block_or_none};
ghost use Rattle.layout.specs.declared.inode.InodeKind.TheVariants.{Directory};
ghost use Rattle.circ.specs.Log.Recovery.{HasOnlyRead, IsCertain};
ghost use Rattle.image_read.specs.Parts.Table.{CountsPart};
ghost use Rattle.image_read.specs.Files.Content.{content_on};
ghost use Rattle.image_read.specs.Files.RowNumbers.{numbers_before_double};
ghost use Rattle.image_read.specs.Files.Slots.{IsSpanned};
ghost use Rattle.image_read.specs.Counts.Linked.{HasCounts};
ghost use Rattle.image_contents.specs.Bodies.Bodies.{AreAsRead, FitsFound, HasBlocks, HasBlocksOf, IsAdded, IsFound};
ghost use Rattle.image_contents.specs.Bodies.Bodies.{IsScanned, first_unclean};
ghost use Rattle.image_contents.specs.Bodies.Inner.{is_zero_below};

use crate::bodies::inner::{both, scan_below};
use crate::bodies::{Found, Progress};
use crate::slot_names::are_names;
use disk::CrashDisk;
use image_read::{
    Links, Overlay, PartFault, count_names, is_zero_past, meet_blocks, read_directory, read_numbers,
};
use layout::{Geometry, Inode, InodeKind};
use std::alloc::Global;

/// Goes through the files of a table, and tells what was found in all. Before each number `progress` is told how many
/// numbers were gone through.
#[tactic(auto, using(circ::proofs::LogLemmas::OnlyRead::reads_then, circ::proofs::LogLemmas::OnlyRead::no_read))]
pub fn scan_all_files<D: CrashDisk, P: Progress>(
    alloc: Global,
    disk: &mut D,
    overlay: &Overlay,
    geometry: &Geometry,
    table: &[Option<Inode>],
    progress: &mut P,
) -> Result<Found, PartFault>
    requires size { geometry.now.blocks ≤ (D.device disk.old).size }
    requires table { length table.now ≡ geometry.now.inodes }
    ensures reads { HasOnlyRead (D.device disk.old) (D.device disk.new) }
    ensures failure { CountsPart (D.device disk.old) (D.device disk.new) result }
    ensures model { D.keeps_model disk.new → D.keeps_model disk.old }
    ensures fits { IfOk result (FitsFound geometry.now) }
    ensures found { D.keeps_model disk.new → IsCertain (D.device disk.old)
        → AreAsRead geometry.now (content_on geometry.now overlay.now (D.device disk.old)) table.now
        → IfOk result (IsFound geometry.now
        (content_on geometry.now overlay.now (D.device disk.old)) table.now geometry.now.inodes) }
    ensures refused { D.keeps_model disk.new → IsCertain (D.device disk.old)
        → AreAsRead geometry.now (content_on geometry.now overlay.now (D.device disk.old)) table.now
        → IsErrOf result PartFault.Range
        → ((number : ℕ) → number < geometry.now.inodes → HasBlocks geometry.now
        (content_on geometry.now overlay.now (D.device disk.old)) (get_or table.now number None))
        → ⊥ }
{
    let mut found = Found::new(alloc, geometry)?;
    'numbers: for number in 0..table.len() {
        progress.reached(number as u32, geometry.inodes);
        scan_body(
            alloc,
            disk,
            overlay,
            geometry,
            table,
            number as u32,
            &mut found,
        )?;
    }
    Ok(found)
}

// Looks at the file of a number, if there is one.
#[tactic(auto, using(circ::proofs::LogLemmas::OnlyRead::reads_then, circ::proofs::LogLemmas::OnlyRead::no_read))]
fn scan_body<D: CrashDisk>(
    alloc: Global,
    disk: &mut D,
    overlay: &Overlay,
    geometry: &Geometry,
    table: &[Option<Inode>],
    number: u32,
    found: &mut Found,
) -> Result<(), PartFault>
    requires size { geometry.now.blocks ≤ (D.device disk.old).size }
    requires table { length table.now ≡ geometry.now.inodes }
    requires number { number < geometry.now.inodes }
    requires fits { FitsFound geometry.now found.old }
    ensures reads { HasOnlyRead (D.device disk.old) (D.device disk.new) }
    ensures failure { CountsPart (D.device disk.old) (D.device disk.new) result }
    ensures model { D.keeps_model disk.new → D.keeps_model disk.old }
    ensures fits { OnOk result (FitsFound geometry.now found.new) }
    ensures blocks { D.keeps_model disk.new → IsCertain (D.device disk.old)
        → AreAsRead geometry.now (content_on geometry.now overlay.now (D.device disk.old)) table.now
        → OnOk result (HasBlocks geometry.now (content_on geometry.now overlay.now (D.device disk.old))
        (get_or table.now number None)) }
    ensures added { D.keeps_model disk.new → IsCertain (D.device disk.old)
        → AreAsRead geometry.now (content_on geometry.now overlay.now (D.device disk.old)) table.now
        → OnOk result (IsAdded geometry.now
        (content_on geometry.now overlay.now (D.device disk.old)) table.now number
        (get_or table.now number None) found.old found.new) }
    ensures refused { D.keeps_model disk.new → IsCertain (D.device disk.old)
        → AreAsRead geometry.now (content_on geometry.now overlay.now (D.device disk.old)) table.now
        → IsErrOf result PartFault.Range
        → HasBlocks geometry.now (content_on geometry.now overlay.now (D.device disk.old))
        (get_or table.now number None) → ⊥ }
{
    match &table[number as usize] {
        None => Ok(()),
        Some(inode) => scan_file(alloc, disk, overlay, geometry, table, number, inode, found),
    }
}

// Looks at a file.
#[tactic(auto, using(circ::proofs::LogLemmas::OnlyRead::reads_then, circ::proofs::LogLemmas::OnlyRead::no_read))]
fn scan_file<D: CrashDisk>(
    alloc: Global,
    disk: &mut D,
    overlay: &Overlay,
    geometry: &Geometry,
    table: &[Option<Inode>],
    number: u32,
    inode: &Inode,
    found: &mut Found,
) -> Result<(), PartFault>
    requires size { geometry.now.blocks ≤ (D.device disk.old).size }
    requires table { length table.now ≡ geometry.now.inodes }
    requires number { number < geometry.now.inodes }
    requires fits { FitsFound geometry.now found.old }
    ensures reads { HasOnlyRead (D.device disk.old) (D.device disk.new) }
    ensures failure { CountsPart (D.device disk.old) (D.device disk.new) result }
    ensures model { D.keeps_model disk.new → D.keeps_model disk.old }
    ensures fits { OnOk result (FitsFound geometry.now found.new) }
    ensures blocks { D.keeps_model disk.new → IsCertain (D.device disk.old)
        → AreAsRead geometry.now (content_on geometry.now overlay.now (D.device disk.old)) table.now
        → SoundInode geometry.now inode.now → OnOk result (HasBlocksOf geometry.now
        (content_on geometry.now overlay.now (D.device disk.old)) inode.now.kind inode.now) }
    ensures added { D.keeps_model disk.new → IsCertain (D.device disk.old)
        → AreAsRead geometry.now (content_on geometry.now overlay.now (D.device disk.old)) table.now
        → SoundInode geometry.now inode.now
        → OnOk result (IsAdded geometry.now
        (content_on geometry.now overlay.now (D.device disk.old)) table.now number (Some inode.now) found.old found.new) }
    ensures refused { D.keeps_model disk.new → IsCertain (D.device disk.old)
        → AreAsRead geometry.now (content_on geometry.now overlay.now (D.device disk.old)) table.now
        → SoundInode geometry.now inode.now → IsErrOf result PartFault.Range
        → HasBlocksOf geometry.now
        (content_on geometry.now overlay.now (D.device disk.old)) inode.now.kind inode.now → ⊥ }
{
    let numbers = read_numbers(alloc, disk, overlay, geometry, inode)?;
    meet_blocks(&mut found.owners, inode.indirect, &numbers);
    let owners = &mut found.owners;
    let further = scan_below(alloc, disk, overlay, geometry, inode, owners)?;
    let links = &mut found.links;
    let is_clean = scan_inside(
        alloc, disk, overlay, geometry, table, number, inode, &numbers, links,
    )?;
    found.unclean = first_unclean(found.unclean, number, both(is_clean, further));
    Ok(())
}

// The number of the first file that isn't clean, once one file more was looked at.
fn first_unclean(first: Option<u32>, number: u32, is_clean: bool) -> Option<u32>
    ensures { result ≡ first_unclean first number is_clean }
{
    match first {
        Some(first) => Some(first),
        None => { if is_clean { None } else { Some(number) } }
    }
}

// Looks at what lies in a file's blocks in front of its double indirect block, which have these numbers, and tells
// whether it is clean, if nothing lies past its size in those behind.
#[tactic(auto, using(circ::proofs::LogLemmas::OnlyRead::reads_then, circ::proofs::LogLemmas::OnlyRead::no_read))]
fn scan_inside<D: CrashDisk>(
    alloc: Global,
    disk: &mut D,
    overlay: &Overlay,
    geometry: &Geometry,
    table: &[Option<Inode>],
    number: u32,
    inode: &Inode,
    numbers: &[u32],
    links: &mut Links,
) -> Result<bool, PartFault>
    requires size { geometry.now.blocks ≤ (D.device disk.old).size }
    requires table { length table.now ≡ geometry.now.inodes }
    requires number { number < geometry.now.inodes }
    requires counts { HasCounts geometry.now.inodes links.old }
    requires numbers { length numbers.now ≡ FIRST_DOUBLE_INDEX }
    requires placed { list_all (is_data_block_or_none geometry.now) numbers.now ≡ true }
    ensures reads { HasOnlyRead (D.device disk.old) (D.device disk.new) }
    ensures failure { CountsPart (D.device disk.old) (D.device disk.new) result }
    ensures model { D.keeps_model disk.new → D.keeps_model disk.old }
    ensures counts { IfOk result (λ _. HasCounts geometry.now.inodes links.new) }
    ensures scanned { D.keeps_model disk.new → IsCertain (D.device disk.old)
        → AreAsRead geometry.now (content_on geometry.now overlay.now (D.device disk.old)) table.now
        → SoundInode geometry.now inode.now → numbers.now ≡ numbers_before_double
        (content_on geometry.now overlay.now (D.device disk.old)) inode.now
        → IfOk result (λ is_clean. IsScanned geometry.now
        (content_on geometry.now overlay.now (D.device disk.old)) table.now number inode.now.kind inode.now links.old links.new
        (is_clean && is_zero_below (content_on geometry.now overlay.now (D.device disk.old)) inode.now)) }
    ensures refused { D.keeps_model disk.new → IsCertain (D.device disk.old)
        → AreAsRead geometry.now (content_on geometry.now overlay.now (D.device disk.old)) table.now
        → SoundInode geometry.now inode.now → numbers.now ≡ numbers_before_double
        (content_on geometry.now overlay.now (D.device disk.old)) inode.now
        → IsErrOf result PartFault.Range → HasBlocksOf geometry.now
        (content_on geometry.now overlay.now (D.device disk.old)) inode.now.kind inode.now → ⊥ }
{
    match inode.kind {
        InodeKind::Directory => {
            scan_slots(
                alloc, disk, overlay, geometry, table, number, inode, numbers, links,
            )
        }
        InodeKind::Regular => is_zero_past(alloc, disk, overlay, geometry, inode.size, numbers),
        InodeKind::Link => {
            let (first, _) = numbers.split_at(1);
            is_zero_past(alloc, disk, overlay, geometry, inode.size, first)
        }
    }
}

// The same of a directory.
#[tactic(auto, using(circ::proofs::LogLemmas::OnlyRead::reads_then, circ::proofs::LogLemmas::OnlyRead::no_read))]
fn scan_slots<D: CrashDisk>(
    alloc: Global,
    disk: &mut D,
    overlay: &Overlay,
    geometry: &Geometry,
    table: &[Option<Inode>],
    number: u32,
    inode: &Inode,
    numbers: &[u32],
    links: &mut Links,
) -> Result<bool, PartFault>
    requires size { geometry.now.blocks ≤ (D.device disk.old).size }
    requires table { length table.now ≡ geometry.now.inodes }
    requires number { number < geometry.now.inodes }
    requires counts { HasCounts geometry.now.inodes links.old }
    requires numbers { length numbers.now ≡ FIRST_DOUBLE_INDEX }
    requires placed { list_all (is_data_block_or_none geometry.now) numbers.now ≡ true }
    ensures reads { HasOnlyRead (D.device disk.old) (D.device disk.new) }
    ensures failure { CountsPart (D.device disk.old) (D.device disk.new) result }
    ensures model { D.keeps_model disk.new → D.keeps_model disk.old }
    ensures counts { IfOk result (λ _. HasCounts geometry.now.inodes links.new) }
    ensures scanned { D.keeps_model disk.new → IsCertain (D.device disk.old)
        → AreAsRead geometry.now (content_on geometry.now overlay.now (D.device disk.old)) table.now
        → SoundInode geometry.now inode.now → inode.now.kind ≡ Directory
        → numbers.now ≡ numbers_before_double (content_on geometry.now overlay.now (D.device disk.old)) inode.now
        → IfOk result (λ is_clean. IsScanned geometry.now
        (content_on geometry.now overlay.now (D.device disk.old)) table.now number Directory inode.now links.old links.new is_clean) }
    ensures refused { D.keeps_model disk.new → IsCertain (D.device disk.old)
        → AreAsRead geometry.now (content_on geometry.now overlay.now (D.device disk.old)) table.now
        → numbers.now ≡ numbers_before_double (content_on geometry.now overlay.now (D.device disk.old)) inode.now
        → IsErrOf result PartFault.Range
        → IsSpanned geometry.now.inodes
        (content_on geometry.now overlay.now (D.device disk.old)) inode.now numbers.now → ⊥ }
{
    let slots = read_directory(alloc, disk, overlay, geometry, inode, numbers)?;
    count_names(links, table, number, &slots);
    Ok(are_names(alloc, &slots)?)
}
