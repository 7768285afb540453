//! The links of files.
ghost use Rattle.std.specs.Prelude.{◌≡◌, ◌<◌, ◌≤◌, ℕ, None, Ok, Option, get_or, length, true, false};
ghost use Rattle.base.specs.declared.TheConstants.{MOST_INODES, ROOT};
ghost use Rattle.layout.specs.declared.inode.Inode.{Inode};
ghost use Rattle.image_read.specs.Counts.Linked.{AreLinked, HasCounts, IsLinked, IsLinkedDirectory, IsRoot};

use crate::counts::reached::are_reached;
use crate::image_counts::Named;
use base::ROOT;
use layout::{Inode, InodeKind};
use nfs_types::Stamp;
use std::alloc::{AllocError, Global};

/// What was counted of the names in all directories: how often each number is named, and how often by the directory
/// that is its parent; and how many directories each directory names.
#[derive(Drop)]
pub struct Links {
    pub names: Named,
    pub by_parent: Named,
    pub children: Named,
}

/// Whether the files of this table make a tree: the root is there and named by none, each file has as many links as
/// names, each other directory is named once, by its parent, and is reached from the root.
pub fn are_linked(alloc: Global, table: &[Option<Inode>], links: &Links) -> Result<bool, AllocError>
    requires some { ROOT < length table.now }
    requires few { length table.now ≤ MOST_INODES }
    requires counts { HasCounts (length table.now) links.now }
    ensures yes { result ≡ Ok true → AreLinked table.now links.now }
    ensures no { result ≡ Ok false → AreLinked table.now links.now → ⊥ }
{
    if table[0].is_some() || !is_root(&table[ROOT as usize]) || !each_is_linked(table, links) {
        return Ok(false);
    }
    are_reached(alloc, table)
}

// Whether this is the root: a directory that no transaction made.
fn is_root(inode: &Option<Inode>) -> bool
    ensures yes { result ≡ true → IsRoot inode.now }
    ensures no { result ≡ false → IsRoot inode.now → ⊥ }
{
    match inode {
        Some(inode) => {
            inode.kind == InodeKind::Directory
                && inode.stamp.boot == 0
                && inode.stamp.transaction == 0
        }
        None => false,
    }
}

// Whether the links of each file are its names.
fn each_is_linked(table: &[Option<Inode>], links: &Links) -> bool
    requires few { length table.now ≤ MOST_INODES }
    requires counts { HasCounts (length table.now) links.now }
    ensures yes { result ≡ true → (number : ℕ) → number < length table.now
        → IsLinked (length table.now) links.now number (get_or table.now number None) }
    ensures no { result ≡ false → ((number : ℕ) → number < length table.now
        → IsLinked (length table.now) links.now number (get_or table.now number None)) → ⊥ }
{
    'numbers: for number in 0..table.len() {
        if !is_linked(table.len(), links, number as u32, &table[number]) {
            return false;
        }
    }
    true
}

// Whether the links of the file of a number are its names, of so many numbers.
fn is_linked(size: usize, links: &Links, number: u32, inode: &Option<Inode>) -> bool
    requires within { number < size }
    requires counts { HasCounts size links.now }
    ensures yes { result ≡ true → IsLinked size links.now number inode.now }
    ensures no { result ≡ false → IsLinked size links.now number inode.now → ⊥ }
{
    match inode {
        None => links.names.of(number) == 0,
        Some(inode) => match inode.kind {
            InodeKind::Directory => is_linked_directory(size, links, number, inode),
            InodeKind::Regular | InodeKind::Link => inode.nlink == links.names.of(number),
        },
    }
}

// The same of a directory.
fn is_linked_directory(size: usize, links: &Links, number: u32, inode: &Inode) -> bool
    requires within { number < size }
    requires counts { HasCounts size links.now }
    ensures yes { result ≡ true → IsLinkedDirectory size links.now number inode.now }
    ensures no { result ≡ false → IsLinkedDirectory size links.now number inode.now → ⊥ }
{
    if inode.parent as usize >= size || inode.nlink < 2 {
        return false;
    }
    if inode.nlink - 2 != links.children.of(number) {
        return false;
    }
    if number == ROOT {
        links.names.of(number) == 0 && inode.parent == ROOT
    } else {
        links.names.of(number) == 1 && links.by_parent.of(number) == 1
    }
}
