//! What stays of a double indirect block where its file is cut.
ghost use Rattle.std.specs.Prelude.{◌≡◌, ◌+◌, ◌++◌, ◌∷◌, [], ◌<◌, List, ℕ, true, length, IfErr, IfOk, OnOk};
ghost use Rattle.std.specs.List.{list_all};
ghost use Rattle.base.specs.declared.TheConstants.{INDIRECT_INDEXES};
ghost use Rattle.disk.specs.Crash.{Image};
ghost use Rattle.layout.specs.Decode.{numbers_in};
ghost use Rattle.layout.specs.InodeForm.{is_data_block_or_none};
ghost use Rattle.layout.specs.Parts.{content_in};
ghost use Rattle.nfs_spec.specs.Model.Tree.{Tree};
ghost use Rattle.inode.specs.Over.{HasInode, IsOver, IsResumable, MaySuspend, are_pointers_placed};
ghost use Rattle.inode_sizes.specs.Doubles.{AreInnersCut, FitInners, FitsDouble, IsDoubleCut};

use crate::numbers::{count_some, cut_row, keep_pointer, one_of};
use base::INDIRECT_INDEXES;
use inode::{Snap, Suspend, double_numbers, pointer_numbers};
use layout::Inode;
use std::alloc::{AllocError, Global};

/// What stays of inner blocks: their numbers, 0 where none of the numbers in one is left or there was none; the one
/// through which the cut goes, 0 if there is none, and the numbers in it; and how many blocks they reach, with
/// themselves.
#[derive(Drop)]
pub(crate) struct Inners {
    pub numbers: Vec<u32>,
    pub part: u32,
    pub part_numbers: Vec<u32>,
    pub used: u32,
}

/// What stays of a double indirect block: its number, 0 where no inner block is left or there was none; the inner
/// blocks; and how many blocks it reaches, with itself.
#[derive(Drop)]
pub(crate) struct Double {
    pub pointer: u32,
    pub inners: Inners,
    pub used: u32,
}

// Adds a number.
fn add(numbers: &mut Vec<u32>, number: u32) -> Result<(), AllocError>
    ensures { OnOk result (numbers.new.items ≡ numbers.old.items ++ number ∷ []) }
{
    numbers.push(number)?;
    Ok(())
}

// Goes on to the next inner block, where the first so many of all indexes stay.
fn cut_inner(
    alloc: Global,
    snap: &Snap,
    pointer: u32,
    count: usize,
    inners: &mut Inners,
    gone: &mut Vec<u32>,
) -> Result<(), Suspend>
    requires less { length inners.now.numbers.items < INDIRECT_INDEXES }
    requires fits { FitInners snap.now.geometry inners.now }
    ensures fits { OnOk result (is_data_block_or_none snap.now.geometry pointer ≡ true
        → FitInners snap.now.geometry inners.new) }
    ensures len { OnOk result (length inners.new.numbers.items ≡ length inners.old.numbers.items + 1) }
    ensures ok { OnOk result ((blocks : Image) (tree : Tree) (pointers before : List ℕ) → IsOver snap.now blocks tree
        → AreInnersCut (numbers_in (content_in snap.now.geometry blocks)) pointers count before
        inners.old.numbers.items inners.old.part inners.old.part_numbers.items inners.old.used gone.old.items
        → AreInnersCut (numbers_in (content_in snap.now.geometry blocks)) (pointers ++ pointer ∷ []) count before
        inners.new.numbers.items inners.new.part inners.new.part_numbers.items inners.new.used gone.new.items) }
    ensures err { IfErr result (λ suspend. MaySuspend snap.now suspend) }
    ensures resumable { IfErr result (λ suspend. (blocks : Image) (tree : Tree) → IsOver snap.now blocks tree
        → is_data_block_or_none snap.now.geometry pointer ≡ true
        → are_pointers_placed snap.now.geometry blocks pointer → IsResumable suspend) }
{
    if pointer == 0 {
        add(&mut inners.numbers, 0)?;
        return Ok(());
    }
    let index = inners.numbers.len();
    let numbers = pointer_numbers(alloc, snap, pointer)?;
    let row = cut_row(
        alloc,
        pointer,
        &numbers,
        count.saturating_sub(INDIRECT_INDEXES * index),
        gone,
    )?;
    add(&mut inners.numbers, row.pointer)?;
    inners.used += row.used;
    let through = count / INDIRECT_INDEXES;
    if index != through {
        return Ok(());
    }
    inners.part = row.pointer;
    inners.part_numbers = row.numbers;
    Ok(())
}

// What stays of no inner blocks.
fn no_inners(alloc: Global) -> Result<Inners, AllocError>
    ensures numbers { IfOk result (λ inners. inners.numbers.items ≡ []) }
    ensures part { IfOk result (λ inners. inners.part ≡ 0) }
    ensures count { IfOk result (λ inners. length inners.part_numbers.items ≡ INDIRECT_INDEXES) }
    ensures used { IfOk result (λ inners. inners.used ≡ 0) }
{
    let zeros = vec![in alloc; 0; INDIRECT_INDEXES]?;
    Ok(Inners {
        numbers: Vec::new(alloc),
        part: 0,
        part_numbers: zeros,
        used: 0,
    })
}

// Cuts the inner blocks of these numbers.
fn cut_inners(
    alloc: Global,
    snap: &Snap,
    pointers: &[u32],
    count: usize,
    gone: &mut Vec<u32>,
) -> Result<Inners, Suspend>
    requires len { length pointers.now ≡ INDIRECT_INDEXES }
    requires placed { list_all (is_data_block_or_none snap.now.geometry) pointers.now ≡ true }
    ensures fits { IfOk result (λ inners. FitInners snap.now.geometry inners) }
    ensures len { IfOk result (λ inners. length inners.numbers.items ≡ INDIRECT_INDEXES) }
    ensures ok { IfOk result (λ inners. (blocks : Image) (tree : Tree) → IsOver snap.now blocks tree
        → AreInnersCut (numbers_in (content_in snap.now.geometry blocks)) pointers.now count gone.old.items
        inners.numbers.items inners.part inners.part_numbers.items inners.used gone.new.items) }
    ensures err { IfErr result (λ suspend. MaySuspend snap.now suspend) }
    ensures resumable { IfErr result (λ suspend. (blocks : Image) (tree : Tree) → IsOver snap.now blocks tree
        → list_all (λ pointer. list_all (is_data_block_or_none snap.now.geometry)
        (numbers_in (content_in snap.now.geometry blocks) pointer)) pointers.now ≡ true → IsResumable suspend) }
{
    let mut inners = no_inners(alloc)?;
    for pointer in pointers {
        cut_inner(alloc, snap, *pointer, count, &mut inners, gone)?;
    }
    Ok(inners)
}

/// Cuts what the double indirect block of a file reaches: the first so many indexes stay.
pub(crate) fn cut_double(
    alloc: Global,
    snap: &Snap,
    inode: &Inode,
    count: usize,
    gone: &mut Vec<u32>,
) -> Result<Double, Suspend>
    requires { is_data_block_or_none snap.now.geometry inode.now.double ≡ true }
    ensures fits { IfOk result (λ double. FitsDouble snap.now.geometry double) }
    ensures ok { IfOk result (λ double. (blocks : Image) (tree : Tree) (file : ℕ)
        → HasInode snap.now blocks tree file inode.now
        → IsDoubleCut (content_in snap.now.geometry blocks) inode.now.double count gone.old.items double
        gone.new.items) }
    ensures err { IfErr result (λ suspend. MaySuspend snap.now suspend) }
    ensures resumable { IfErr result (λ suspend. (blocks : Image) (tree : Tree) (file : ℕ)
        → HasInode snap.now blocks tree file inode.now → IsResumable suspend) }
{
    let pointers = double_numbers(alloc, snap, inode)?;
    let inners = cut_inners(alloc, snap, &pointers, count, gone)?;
    let pointer = keep_pointer(inode.double, count_some(&inners.numbers), gone)?;
    let used = one_of(pointer) + inners.used;
    Ok(Double {
        pointer,
        inners,
        used,
    })
}
