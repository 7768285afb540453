//! The blocks of a file.
ghost use Rattle.std.specs.Prelude.{◌≡◌, ◌++◌, ◌∷◌, ℕ, Some, Ok, true, filter, IfErr, IfOk, OnOk};
ghost use Rattle.std.specs.List.{flat_map, list_all};
ghost use Rattle.disk.specs.Crash.{Image};
ghost use Rattle.layout.specs.Decode.{numbers_in};
ghost use Rattle.layout.specs.InodeForm.{is_data_block_or_none};
ghost use Rattle.layout.specs.Owners.{owned_by};
ghost use Rattle.layout.specs.Parts.{content_in};
ghost use Rattle.nfs_spec.specs.Model.Tree.{Tree};
ghost use Rattle.inode.specs.Over.{HasInode, IsOver, IsResumable, MaySuspend, are_pointers_placed};
ghost use Rattle.bitmap.specs.Inodes.Frees.{is_some, named_by};

use inode::{Snap, Suspend, double_numbers, pointer_numbers};
use layout::Inode;
use std::alloc::{AllocError, Global};

// The blocks of a file that no inner block names: its pointer blocks, those that its inode names itself, and those that
// its indirect block names.
fn blocks_before_inner(
    alloc: Global,
    inode: &Inode,
    inner: &[u32],
    indirect_part: &[u32],
) -> Result<Vec<u32>, AllocError>
    ensures { IfOk result (λ numbers. numbers.items ≡ filter is_some
        (inode.now.indirect ∷ inode.now.double ∷ inner.now ++ inode.now.direct ++ indirect_part.now)) }
{
    let mut numbers = Vec::from_slice(alloc, &[inode.indirect, inode.double])?;
    numbers.extend_from_slice(inner)?;
    numbers.extend_from_slice(&inode.direct)?;
    numbers.extend_from_slice(indirect_part)?;
    numbers.retain(|number| *number != 0);
    Ok(numbers)
}

// The numbers of the blocks that a pointer block names: none where there is no such block.
fn named_by(alloc: Global, snap: &Snap, pointer: u32) -> Result<Vec<u32>, Suspend>
    ensures ok { IfOk result (λ named. (blocks : Image) (tree : Tree) → IsOver snap.now blocks tree
        → named.items ≡ named_by (content_in snap.now.geometry blocks) pointer) }
    ensures err { IfErr result (λ suspend. MaySuspend snap.now suspend) }
    ensures resumable { IfErr result (λ suspend. (blocks : Image) (tree : Tree) → IsOver snap.now blocks tree
        → is_data_block_or_none snap.now.geometry pointer ≡ true
        → are_pointers_placed snap.now.geometry blocks pointer → IsResumable suspend) }
{
    if pointer == 0 {
        return Ok(Vec::new(alloc));
    }
    let mut named = pointer_numbers(alloc, snap, pointer)?;
    named.retain(|number| *number != 0);
    Ok(named)
}

// Adds the numbers of the blocks that an inner block of a file names, if it has this one.
fn add_inner(
    alloc: Global,
    snap: &Snap,
    pointer: u32,
    numbers: &mut Vec<u32>,
) -> Result<(), Suspend>
    ensures ok { OnOk result ((blocks : Image) (tree : Tree) → IsOver snap.now blocks tree
        → numbers.new.items ≡ numbers.old.items ++ named_by (content_in snap.now.geometry blocks) pointer) }
    ensures err { IfErr result (λ suspend. MaySuspend snap.now suspend) }
    ensures resumable { IfErr result (λ suspend. (blocks : Image) (tree : Tree) → IsOver snap.now blocks tree
        → is_data_block_or_none snap.now.geometry pointer ≡ true
        → are_pointers_placed snap.now.geometry blocks pointer → IsResumable suspend) }
{
    let named = named_by(alloc, snap, pointer)?;
    numbers.extend_from_slice(&named)?;
    Ok(())
}

// The same of all inner blocks.
fn add_below(
    alloc: Global,
    snap: &Snap,
    pointers: &[u32],
    numbers: &mut Vec<u32>,
) -> Result<(), Suspend>
    requires { list_all (is_data_block_or_none snap.now.geometry) pointers.now ≡ true }
    ensures ok { OnOk result ((blocks : Image) (tree : Tree) → IsOver snap.now blocks tree
        → numbers.new.items
        ≡ numbers.old.items ++ flat_map (named_by (content_in snap.now.geometry blocks)) pointers.now) }
    ensures err { IfErr result (λ suspend. MaySuspend snap.now suspend) }
    ensures resumable { IfErr result (λ suspend. (blocks : Image) (tree : Tree) → IsOver snap.now blocks tree
        → list_all (λ pointer. list_all (is_data_block_or_none snap.now.geometry)
        (numbers_in (content_in snap.now.geometry blocks) pointer)) pointers.now ≡ true → IsResumable suspend) }
{
    for pointer in pointers {
        add_inner(alloc, snap, *pointer, numbers)?;
    }
    Ok(())
}

/// The numbers of the blocks of a file: of its pointer blocks, of those that its inode names itself, and of those that
/// its pointer blocks name.
pub(crate) fn blocks_of(alloc: Global, snap: &Snap, inode: &Inode) -> Result<Vec<u32>, Suspend>
    ensures ok { IfOk result (λ numbers. (blocks : Image) (tree : Tree) (file : ℕ)
        → HasInode snap.now blocks tree file inode.now
        → numbers.items ≡ owned_by (content_in snap.now.geometry blocks) (Ok (Some inode.now))) }
    ensures err { IfErr result (λ suspend. MaySuspend snap.now suspend) }
    ensures resumable { IfErr result (λ suspend. (blocks : Image) (tree : Tree) (file : ℕ)
        → HasInode snap.now blocks tree file inode.now → IsResumable suspend) }
{
    let indirect_part = named_by(alloc, snap, inode.indirect)?;
    if inode.double == 0 {
        return Ok(blocks_before_inner(alloc, inode, &[], &indirect_part)?);
    }
    let inner = double_numbers(alloc, snap, inode)?;
    let mut numbers = blocks_before_inner(alloc, inode, &inner, &indirect_part)?;
    add_below(alloc, snap, &inner, &mut numbers)?;
    Ok(numbers)
}
