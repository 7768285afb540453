//! Whether the files of a table make a tree, by what was found in them.
ghost use Rattle.std.specs.Prelude.{◌≡◌, ◌<◌, ◌≤◌, Option, length, true, false, count_by, is_some, IfErr, IfOk, IfSome, IsErrOf};
ghost use Rattle.base.specs.declared.TheConstants.{MOST_INODES, ROOT};
ghost use Rattle.layout.specs.declared.inode.Inode.{Inode};
ghost use Rattle.image_read.specs.Counts.Linked.{HasCounts};
ghost use Rattle.image_check.specs.Refused.{IsRefusal};
ghost use Rattle.image_check.specs.Searched.{AreMadeBy, IsJudged, IsTreeBy, IsUnlinked, IsUnlinkedAt};

use crate::{CheckFault, Unlinked};
use image_contents::Found;
use image_read::{Links, are_linked};
use layout::{Inode, InodeKind};
use std::alloc::Global;

/// How many files an image has, and how many of its data blocks are theirs.
#[derive(Clone, Copy, Debug, PartialEq, Eq)]
pub struct Counts {
    pub files: u32,
    pub blocks: u32,
}

// Whether the files of a table make a tree, and how many they are.
pub(crate) fn judge(
    alloc: Global,
    boot: u64,
    table: &[Option<Inode>],
    found: &Found,
) -> Result<Counts, CheckFault>
    requires some { ROOT < length table.now }
    requires few { length table.now ≤ MOST_INODES }
    requires counts { HasCounts (length table.now) found.now.links }
    ensures yes { IfOk result (IsJudged boot table.now found.now) }
    ensures no { IfErr result (IsRefusal (IsTreeBy boot table.now found.now → ⊥)) }
    ensures device { IsErrOf result CheckFault.Device → ⊥ }
{
    if found.unclean.is_some() {
        return Err(CheckFault::Tree(None));
    }
    if !are_made_by(boot, table) {
        return Err(CheckFault::Tree(None));
    }
    match are_linked(alloc, table, &found.links) {
        Ok(true) => Ok(Counts {
            files: count_files(table),
            blocks: found.owners.count(),
        }),
        Ok(false) => Err(CheckFault::Tree(first_unlinked(table, &found.links))),
        Err(error) => Err(CheckFault::NoMemory(error)),
    }
}

// Whether no file was made in a later boot.
fn are_made_by(boot: u64, table: &[Option<Inode>]) -> bool
    ensures yes { result ≡ true → AreMadeBy boot table.now }
    ensures no { result ≡ false → AreMadeBy boot table.now → ⊥ }
{
    'numbers: for number in 0..table.len() {
        if !is_made_by(boot, &table[number]) {
            return false;
        }
    }
    true
}

// Whether a file wasn't made in a later boot, if there is one.
fn is_made_by(boot: u64, inode: &Option<Inode>) -> bool
    ensures yes { result ≡ true → IfSome inode.now (λ inode. inode.stamp.boot ≤ boot) }
    ensures no { result ≡ false → IfSome inode.now (λ inode. inode.stamp.boot ≤ boot) → ⊥ }
{
    match inode {
        Some(inode) => inode.stamp.boot <= boot,
        None => true,
    }
}

// How many files there are.
fn count_files(table: &[Option<Inode>]) -> u32
    requires { length table.now ≤ MOST_INODES }
    ensures { result ≡ count_by (λ (inode : Option Inode). is_some inode) table.now }
{
    let mut count = 0;
    'numbers: for number in 0..table.len() {
        if table[number].is_some() {
            count += 1;
        }
    }
    count
}

// The first file that isn't named as often as it has links, of those that are no directories.
fn first_unlinked(table: &[Option<Inode>], links: &Links) -> Option<Unlinked>
    requires few { length table.now ≤ MOST_INODES }
    requires counts { HasCounts (length table.now) links.now }
    ensures { IfSome result (IsUnlinked table.now links.now) }
{
    'numbers: for number in 0..table.len() {
        let one = unlinked(table.len(), links, number as u32, &table[number]);
        if one.is_some() {
            return one;
        }
    }
    None
}

// The file of a number, of so many, where it is no directory and isn't named as often as it has links.
fn unlinked(size: usize, links: &Links, number: u32, inode: &Option<Inode>) -> Option<Unlinked>
    requires within { number < size }
    requires counts { HasCounts size links.now }
    ensures { IfSome result (IsUnlinkedAt links.now number inode.now) }
{
    match inode {
        Some(inode) => match inode.kind {
            InodeKind::Directory => None,
            InodeKind::Regular | InodeKind::Link => {
                let named = links.names.of(number);
                if inode.nlink == named {
                    None
                } else {
                    Some(Unlinked {
                        inode: number,
                        links: inode.nlink,
                        named,
                    })
                }
            }
        },
        None => None,
    }
}
