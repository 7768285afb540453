//! The lines of the files of a table.
ghost use Rattle.std.specs.Prelude.{◌≡◌, ◌≤◌, ◌<◌, ℕ, None, get_or, length, IfOk, IsErrOf, OnOk};
ghost use Rattle.std.specs.List.{flat_map};
ghost use Rattle.base.specs.declared.TheConstants.{DOUBLE_INDEXES, INDIRECT_INDEXES, MOST_INODES};
ghost use Rattle.layout.specs.Decode.{IsMapped, doubled_in, numbers_in, numbers_of};
ghost use Rattle.layout.specs.Fields.{count_of};
ghost use Rattle.layout.specs.InodeForm.{SoundInode};
ghost use Rattle.circ.specs.Log.Recovery.{HasOnlyRead, IsCertain};
ghost use Rattle.image_read.specs.Parts.Table.{CountsPart};
ghost use Rattle.image_read.specs.Files.Content.{content_on};
ghost use Rattle.image_read.specs.Files.RowNumbers.{IsBelowMapped, IsRowMapped};
ghost use Rattle.image_contents.specs.Lines.Lines.{IsCounted, IsCountedIfAny, blocks_in, lines_below, with_line};

use crate::lines::Line;
use base::BLOCK_BYTES;
use disk::CrashDisk;
use image_read::{Overlay, PartFault, read_numbers, read_pointers};
use layout::{Geometry, Inode, InodeKind};
use std::alloc::{AllocError, Global};

/// The lines of the files of a table, by rising number. They are refused (Range) where the numbers of a regular file's
/// blocks are.
#[tactic(auto, using(circ::proofs::LogLemmas::OnlyRead::reads_then, circ::proofs::LogLemmas::OnlyRead::no_read))]
pub fn read_lines<D: CrashDisk>(
    alloc: Global,
    disk: &mut D,
    overlay: &Overlay,
    geometry: &Geometry,
    table: &[Option<Inode>],
) -> Result<Vec<Line>, PartFault>
    requires size { geometry.now.blocks ≤ (D.device disk.old).size }
    requires few { length table.now ≤ MOST_INODES }
    ensures reads { HasOnlyRead (D.device disk.old) (D.device disk.new) }
    ensures failure { CountsPart (D.device disk.old) (D.device disk.new) result }
    ensures model { D.keeps_model disk.new → D.keeps_model disk.old }
    ensures lines { D.keeps_model disk.new → IsCertain (D.device disk.old) → IfOk result (λ lines.
        lines.items ≡ lines_below (content_on geometry.now overlay.now (D.device disk.old)) table.now
        (length table.now)) }
    ensures refused { D.keeps_model disk.new → IsCertain (D.device disk.old)
        → IsErrOf result PartFault.Range
        → ((number : ℕ) → number < length table.now → IsCountedIfAny geometry.now
        (content_on geometry.now overlay.now (D.device disk.old)) (get_or table.now number None)) → ⊥ }
{
    let mut lines = Vec::new(alloc);
    'numbers: for number in 0..table.len() {
        push_line(
            alloc,
            disk,
            overlay,
            geometry,
            number as u32,
            &table[number],
            &mut lines,
        )?;
    }
    Ok(lines)
}

// Adds the line of the file of a number, if there is one.
#[tactic(auto, using(circ::proofs::LogLemmas::OnlyRead::reads_then, circ::proofs::LogLemmas::OnlyRead::no_read))]
fn push_line<D: CrashDisk>(
    alloc: Global,
    disk: &mut D,
    overlay: &Overlay,
    geometry: &Geometry,
    number: u32,
    inode: &Option<Inode>,
    lines: &mut Vec<Line>,
) -> Result<(), PartFault>
    requires { geometry.now.blocks ≤ (D.device disk.old).size }
    ensures reads { HasOnlyRead (D.device disk.old) (D.device disk.new) }
    ensures failure { CountsPart (D.device disk.old) (D.device disk.new) result }
    ensures model { D.keeps_model disk.new → D.keeps_model disk.old }
    ensures pushed { D.keeps_model disk.new → IsCertain (D.device disk.old) → OnOk result (lines.new.items
        ≡ with_line (content_on geometry.now overlay.now (D.device disk.old)) number inode.now lines.old.items) }
    ensures refused { D.keeps_model disk.new → IsCertain (D.device disk.old)
        → IsErrOf result PartFault.Range
        → IsCountedIfAny geometry.now (content_on geometry.now overlay.now (D.device disk.old)) inode.now → ⊥ }
{
    let Some(inode) = inode else {
        return Ok(());
    };
    let blocks = count_blocks(alloc, disk, overlay, geometry, inode)?;
    let line = Line {
        number,
        kind: inode.kind,
        mode: inode.mode,
        uid: inode.uid,
        gid: inode.gid,
        nlink: inode.nlink,
        size: inode.size,
        blocks,
    };
    lines.push(line).map_err(AllocError::from)?;
    Ok(())
}

// How many blocks the bytes of a file lie in.
#[tactic(auto, using(circ::proofs::LogLemmas::OnlyRead::no_read))]
fn count_blocks<D: CrashDisk>(
    alloc: Global,
    disk: &mut D,
    overlay: &Overlay,
    geometry: &Geometry,
    inode: &Inode,
) -> Result<u64, PartFault>
    requires { geometry.now.blocks ≤ (D.device disk.old).size }
    ensures reads { HasOnlyRead (D.device disk.old) (D.device disk.new) }
    ensures failure { CountsPart (D.device disk.old) (D.device disk.new) result }
    ensures model { D.keeps_model disk.new → D.keeps_model disk.old }
    ensures blocks { D.keeps_model disk.new → IsCertain (D.device disk.old) → IfOk result (λ blocks.
        blocks ≡ blocks_in (content_on geometry.now overlay.now (D.device disk.old)) inode.now.kind inode.now) }
    ensures refused { D.keeps_model disk.new → IsCertain (D.device disk.old)
        → IsErrOf result PartFault.Range
        → IsCounted geometry.now (content_on geometry.now overlay.now (D.device disk.old)) inode.now.kind inode.now
        → ⊥ }
{
    match inode.kind {
        InodeKind::Regular => count_regular(alloc, disk, overlay, geometry, inode),
        InodeKind::Directory => Ok(inode.size / BLOCK_BYTES as u64),
        InodeKind::Link => Ok(1),
    }
}

// How many blocks the bytes of a regular file lie in.
#[tactic(auto, using(circ::proofs::LogLemmas::OnlyRead::reads_then, circ::proofs::LogLemmas::OnlyRead::no_read))]
fn count_regular<D: CrashDisk>(
    alloc: Global,
    disk: &mut D,
    overlay: &Overlay,
    geometry: &Geometry,
    inode: &Inode,
) -> Result<u64, PartFault>
    requires { geometry.now.blocks ≤ (D.device disk.old).size }
    ensures reads { HasOnlyRead (D.device disk.old) (D.device disk.new) }
    ensures failure { CountsPart (D.device disk.old) (D.device disk.new) result }
    ensures model { D.keeps_model disk.new → D.keeps_model disk.old }
    ensures blocks { D.keeps_model disk.new → IsCertain (D.device disk.old) → IfOk result (λ blocks.
        blocks ≡ count_of (numbers_of (content_on geometry.now overlay.now (D.device disk.old)) inode.now)) }
    ensures refused { D.keeps_model disk.new → IsCertain (D.device disk.old) → IsErrOf result PartFault.Range
        → SoundInode geometry.now inode.now
        → IsMapped geometry.now (content_on geometry.now overlay.now (D.device disk.old)) inode.now → ⊥ }
{
    let numbers = read_numbers(alloc, disk, overlay, geometry, inode)?;
    let further = count_below(alloc, disk, overlay, geometry, inode.double)?;
    Ok(count(&numbers) + further)
}

// How many blocks a double indirect block reaches, if it is there.
#[tactic(auto, using(circ::proofs::LogLemmas::OnlyRead::reads_then, circ::proofs::LogLemmas::OnlyRead::no_read))]
fn count_below<D: CrashDisk>(
    alloc: Global,
    disk: &mut D,
    overlay: &Overlay,
    geometry: &Geometry,
    double: u32,
) -> Result<u64, PartFault>
    requires { geometry.now.blocks ≤ (D.device disk.old).size }
    ensures reads { HasOnlyRead (D.device disk.old) (D.device disk.new) }
    ensures failure { CountsPart (D.device disk.old) (D.device disk.new) result }
    ensures model { D.keeps_model disk.new → D.keeps_model disk.old }
    ensures few { IfOk result (λ blocks. blocks ≤ DOUBLE_INDEXES) }
    ensures blocks { D.keeps_model disk.new → IsCertain (D.device disk.old) → IfOk result (λ blocks.
        blocks ≡ count_of (doubled_in (content_on geometry.now overlay.now (D.device disk.old)) double)) }
    ensures refused { D.keeps_model disk.new → IsCertain (D.device disk.old) → IsErrOf result PartFault.Range
        → IsBelowMapped geometry.now (content_on geometry.now overlay.now (D.device disk.old)) double → ⊥ }
{
    if double == 0 {
        return Ok(0);
    }
    let inner = read_pointers(alloc, disk, overlay, geometry, double)?;
    count_rows(alloc, disk, overlay, geometry, inner.as_slice())
}

// How many blocks inner blocks name, one after another.
#[tactic(auto, using(circ::proofs::LogLemmas::OnlyRead::reads_then, circ::proofs::LogLemmas::OnlyRead::no_read))]
fn count_rows<D: CrashDisk>(
    alloc: Global,
    disk: &mut D,
    overlay: &Overlay,
    geometry: &Geometry,
    inner: &[u32],
) -> Result<u64, PartFault>
    requires size { geometry.now.blocks ≤ (D.device disk.old).size }
    requires count { length inner.now ≡ INDIRECT_INDEXES }
    ensures reads { HasOnlyRead (D.device disk.old) (D.device disk.new) }
    ensures failure { CountsPart (D.device disk.old) (D.device disk.new) result }
    ensures model { D.keeps_model disk.new → D.keeps_model disk.old }
    ensures few { IfOk result (λ blocks. blocks ≤ DOUBLE_INDEXES) }
    ensures blocks { D.keeps_model disk.new → IsCertain (D.device disk.old) → IfOk result (λ blocks.
        blocks ≡ count_of (flat_map (numbers_in (content_on geometry.now overlay.now (D.device disk.old))) inner.now)) }
    ensures refused { D.keeps_model disk.new → IsCertain (D.device disk.old) → IsErrOf result PartFault.Range
        → ((i : ℕ) → i < length inner.now → IsRowMapped geometry.now
        (content_on geometry.now overlay.now (D.device disk.old)) (get_or inner.now i 0)) → ⊥ }
{
    let mut blocks = 0;
    'rows: for index in 0..inner.len() {
        let row = count_row(alloc, disk, overlay, geometry, inner[index])?;
        blocks += row;
    }
    Ok(blocks)
}

// How many blocks an inner block names, if it is there.
#[tactic(auto, using(circ::proofs::LogLemmas::OnlyRead::no_read))]
fn count_row<D: CrashDisk>(
    alloc: Global,
    disk: &mut D,
    overlay: &Overlay,
    geometry: &Geometry,
    pointer: u32,
) -> Result<u64, PartFault>
    requires { geometry.now.blocks ≤ (D.device disk.old).size }
    ensures reads { HasOnlyRead (D.device disk.old) (D.device disk.new) }
    ensures failure { CountsPart (D.device disk.old) (D.device disk.new) result }
    ensures model { D.keeps_model disk.new → D.keeps_model disk.old }
    ensures few { IfOk result (λ blocks. blocks ≤ INDIRECT_INDEXES) }
    ensures blocks { D.keeps_model disk.new → IsCertain (D.device disk.old) → IfOk result (λ blocks.
        blocks ≡ count_of (numbers_in (content_on geometry.now overlay.now (D.device disk.old)) pointer)) }
    ensures refused { D.keeps_model disk.new → IsCertain (D.device disk.old) → IsErrOf result PartFault.Range
        → IsRowMapped geometry.now (content_on geometry.now overlay.now (D.device disk.old)) pointer → ⊥ }
{
    if pointer == 0 {
        return Ok(0);
    }
    let numbers = read_pointers(alloc, disk, overlay, geometry, pointer)?;
    Ok(count(numbers.as_slice()))
}

// How many of these are numbers of blocks.
fn count(numbers: &[u32]) -> u64
    ensures { result ≡ count_of numbers.now }
{
    numbers.iter().filter(|number| **number != 0).count() as u64
}
