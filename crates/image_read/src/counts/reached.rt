//! Which directories are reached from the root.
ghost use Rattle.std.specs.Prelude.{◌≡◌, ◌<◌, ◌≤◌, ℕ, None, Ok, get_or, length, true, false, IfOk};
ghost use Rattle.base.specs.declared.TheConstants.{MOST_INODES, ROOT};
ghost use Rattle.image_read.specs.ImageCounts.Iterated.{in_list};
ghost use Rattle.image_read.specs.Counts.Linked.{AreReached, is_directory_in, parent_below};

use crate::image_counts::furthest_of;
use base::ROOT;
use layout::{Inode, InodeKind};
use std::alloc::{AllocError, Global};

/// Whether each directory is reached from the root, where this is its own parent.
pub(crate) fn are_reached(alloc: Global, table: &[Option<Inode>]) -> Result<bool, AllocError>
    requires few { length table.now ≤ MOST_INODES }
    ensures yes { result ≡ Ok true → AreReached table.now }
    ensures no { result ≡ Ok false → parent_below (length table.now) (get_or table.now ROOT None) ≡ ROOT
        → AreReached table.now → ⊥ }
{
    let parents = parents_of(alloc, table)?;
    let furthest = furthest_of(alloc, &parents)?;
    Ok(all_lead_to_root(table, &furthest))
}

// Whether the root stands at the place of each directory.
fn all_lead_to_root(table: &[Option<Inode>], furthest: &[u32]) -> bool
    requires { length furthest.now ≡ length table.now }
    ensures yes { result ≡ true → (number : ℕ) → number < length table.now
        → is_directory_in (get_or table.now number None) ≡ true → in_list furthest.now number ≡ ROOT }
    ensures no { result ≡ false → ((number : ℕ) → number < length table.now
        → is_directory_in (get_or table.now number None) ≡ true → in_list furthest.now number ≡ ROOT) → ⊥ }
{
    'numbers: for number in 0..table.len() {
        if is_directory(&table[number]) && furthest[number] != ROOT {
            return false;
        }
    }
    true
}

// Whether this is the inode of a directory.
fn is_directory(inode: &Option<Inode>) -> bool
    ensures { result ≡ is_directory_in inode.now }
{
    match inode {
        Some(inode) => inode.kind == InodeKind::Directory,
        None => false,
    }
}

// The parent of each directory that has one of these numbers, and 0 for all else.
fn parents_of(alloc: Global, table: &[Option<Inode>]) -> Result<Vec<u32>, AllocError>
    ensures len { IfOk result (λ parents. length parents.items ≡ length table.now) }
    ensures parents { IfOk result (λ parents. (number : ℕ) → number < length table.now
        → in_list parents.items number ≡ parent_below (length table.now) (get_or table.now number None)) }
{
    let mut parents = Vec::with_capacity(alloc, table.len())?;
    'numbers: for number in 0..table.len() {
        parents.push(parent_of(table.len(), &table[number]))?;
    }
    Ok(parents)
}

// The parent of a directory, where it is one of so many numbers.
fn parent_of(size: usize, inode: &Option<Inode>) -> u32
    ensures { result ≡ parent_below size inode.now }
{
    match inode {
        Some(inode) => {
            if inode.kind == InodeKind::Directory && (inode.parent as usize) < size {
                inode.parent
            } else {
                0
            }
        }
        None => 0,
    }
}
