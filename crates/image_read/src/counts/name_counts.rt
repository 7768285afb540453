//! The names in a directory's slots.
ghost use Rattle.std.specs.Prelude.{◌≡◌, ◌++◌, ◌∷◌, [], ◌<◌, ◌≤◌, ℕ, List, None, cond, get_or, length, map, nat_lt, true};
ghost use Rattle.std.specs.List.{list_all};
ghost use Rattle.base.specs.declared.TheConstants.{MOST_INODES};
ghost use Rattle.layout.specs.declared.slot.Slot.{Slot};
ghost use Rattle.image_read.specs.ImageCounts.Tally.{AreCounts};
ghost use Rattle.image_read.specs.Counts.Linked.{HasCounts, is_directory_in};
ghost use Rattle.image_read.specs.Counts.Adds.{AreNamed, for_directories, is_child_in, named_children};

use crate::counts::links::Links;
use crate::image_counts::Named;
use layout::{Inode, InodeKind, Slot};

/// Counts the names in the slots of a directory.
pub fn count_names(links: &mut Links, table: &[Option<Inode>], directory: u32, slots: &[Slot])
    requires counts { HasCounts (length table.now) links.old }
    requires directory { directory < length table.now }
    requires few { length table.now ≤ MOST_INODES }
    requires numbers { list_all (λ (slot : Slot). nat_lt slot.number (length table.now)) slots.now ≡ true }
    ensures counts { HasCounts (length table.now) links.new }
    ensures named { (names by_parent children : List ℕ) → AreNamed names by_parent children links.old
        → AreNamed (names ++ map (λ (slot : Slot). slot.number) slots.now)
        (by_parent ++ named_children table.now directory (map (λ (slot : Slot). slot.number) slots.now))
        (children ++ for_directories table.now directory (map (λ (slot : Slot). slot.number) slots.now)) links.new }
{
    'places: for index_within in 0..slots.len() {
        count_name(links, table, directory, slots[index_within].number);
    }
}

// Counts a name of a number in a directory.
fn count_name(links: &mut Links, table: &[Option<Inode>], directory: u32, number: u32)
    requires counts { HasCounts (length table.now) links.old }
    requires directory { directory < length table.now }
    requires number { number < length table.now }
    ensures counts { HasCounts (length table.now) links.new }
    ensures named { (names by_parent children : List ℕ) → AreNamed names by_parent children links.old
        → AreNamed (names ++ number ∷ []) (by_parent ++ named_children table.now directory (number ∷ []))
        (children ++ for_directories table.now directory (number ∷ [])) links.new }
{
    let inode = &table[number as usize];
    links.names.name(number);
    name_if(&mut links.by_parent, number, is_child(directory, inode));
    name_if(&mut links.children, directory, is_directory(inode));
}

// Counts a name, if there is one.
fn name_if(named: &mut Named, number: u32, is: bool)
    requires { number < length named.old }
    ensures size { length named.new ≡ length named.old }
    ensures named { (met : List ℕ) → AreCounts met named.old → AreCounts (met ++ cond is (number ∷ []) []) named.new }
{
    if is {
        named.name(number);
    }
}

// Whether it is the inode of a directory.
fn is_directory(inode: &Option<Inode>) -> bool
    ensures { result ≡ is_directory_in inode.now }
{
    match inode {
        Some(inode) => inode.kind == InodeKind::Directory,
        None => false,
    }
}

// Whether it is that of one whose parent is this one.
fn is_child(directory: u32, inode: &Option<Inode>) -> bool
    ensures { result ≡ is_child_in directory inode.now }
{
    match inode {
        Some(inode) => inode.kind == InodeKind::Directory && inode.parent == directory,
        None => false,
    }
}
