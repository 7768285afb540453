//! Listed entries of a directory (RFC 1813, sections 3.3.16 and 3.3.17: `entry3`, `entryplus3`).
ghost use Rattle.std.specs.Prelude.{◌≡◌};

use crate::{Attributes, Handle, Octets};
use std::alloc::AllocError;
use std::marker::Model;

/// A name, the number of the file that it names, and the cookie that the next listing goes on from.
#[derive(Clone, Drop)]
pub struct ListedItem {
    pub number: u64,
    pub name: Octets,
    pub cookie: u64,
}

/// An entry with what READDIRPLUS tells of its file.
#[derive(Clone, Drop)]
pub struct ListedItemPlus {
    pub number: u64,
    pub name: Octets,
    pub cookie: u64,
    pub attributes: Option<Attributes>,
    pub handle: Option<Handle>,
}

/// Entries in the order of their cookies.
#[derive(Drop)]
pub struct ListedEntries {
    entries: Vec<ListedItem>,
}

impl Model for ListedEntries {
    ghost use Rattle.std.specs.Prelude.{List};
    ghost use Rattle.nfs_types.specs.declared.entries.ListedItem.{ListedItem};

    ghost Value = { List ListedItem };

    ghost view = { λ e. e.entries.items };
}

impl Clone for ListedEntries {
    ghost is_clone = { λ entries copy. copy ≡ entries };

    fn clone(&self) -> Result<ListedEntries, AllocError> {
        Ok(ListedEntries {
            entries: self.entries.clone()?,
        })
    }
}

impl ListedEntries {
    pub fn new(entries: Vec<ListedItem>) -> ListedEntries
        ensures { result ≡ entries.items }
    {
        ListedEntries { entries }
    }

    pub fn as_slice(&self) -> &[ListedItem]
        ensures { result.now ≡ self.now }
    {
        &self.entries
    }
}

/// Entries of READDIRPLUS in the order of their cookies.
#[derive(Drop)]
pub struct ListedEntriesPlus {
    entries: Vec<ListedItemPlus>,
}

impl Model for ListedEntriesPlus {
    ghost use Rattle.std.specs.Prelude.{List};
    ghost use Rattle.nfs_types.specs.declared.entries.ListedItemPlus.{ListedItemPlus};

    ghost Value = { List ListedItemPlus };

    ghost view = { λ e. e.entries.items };
}

impl Clone for ListedEntriesPlus {
    ghost is_clone = { λ entries copy. copy ≡ entries };

    fn clone(&self) -> Result<ListedEntriesPlus, AllocError> {
        Ok(ListedEntriesPlus {
            entries: self.entries.clone()?,
        })
    }
}

impl ListedEntriesPlus {
    pub fn new(entries: Vec<ListedItemPlus>) -> ListedEntriesPlus
        ensures { result ≡ entries.items }
    {
        ListedEntriesPlus { entries }
    }

    pub fn as_slice(&self) -> &[ListedItemPlus]
        ensures { result.now ≡ self.now }
    {
        &self.entries
    }
}
