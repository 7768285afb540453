//! Entries that are gathered one after another, as long as there is room for them.
ghost use Rattle.std.specs.Prelude.{◌≡◌, ◌<◌, ◌≤◌, ◌+◌, ◌^◌, OnOk, All};
ghost use Rattle.nfs_spec.specs.Procedures.Listing.{padded};
ghost use Rattle.procs_queries.specs.Listings.Gathered.{bytes_with, nothing, one_more};
ghost use Rattle.procs_queries.specs.Listings.Tests.{has_no_first};

use base::LISTED_ITEM_BYTES;
use nfs_types::ListedItem;
use std::alloc::{AllocError, Global};
use std::marker::Model;

/// What is given so far, what is left of the room for names and of that of the whole, and whether an entry came
/// that had no room.
#[derive(Drop)]
pub(crate) struct Gathering {
    entries: Vec<ListedItem>,
    names_budget: u64,
    budget: u64,
    is_full: bool,
    ghost small: { All (λ listed_item. listed_item.number < 2 ^ 32) entries.items },
}

impl Model for Gathering {
    ghost use Rattle.procs_queries.specs.Listings.Gathered.{Gathered};

    ghost Value = { Gathered };

    ghost view = { λ g. record {
      given = g.entries.items;
      names_budget = g.names_budget;
      budget = g.budget;
      is_full = g.is_full;
    } };
}

// A name with its padding.
fn padded(name: &[u8]) -> u64
    ensures is { result ≡ padded name.now }
    ensures small { result ≤ 2 ^ 63 + 4 }
{
    (name.len() as u64 + 3) / 4 * 4
}

fn bytes_with(besides: u32, listed_item: &ListedItem) -> u64
    ensures { result ≡ bytes_with besides listed_item.now }
{
    besides as u64 + padded(listed_item.name.as_slice())
}

impl Gathering {
    /// Nothing is given, and there is so much room.
    pub(crate) fn new(alloc: Global, names_budget: u32, budget: u32) -> Gathering
        ensures { result ≡ nothing names_budget budget }
    {
        Gathering {
            entries: Vec::new(alloc),
            names_budget: names_budget as u64,
            budget: budget as u64,
            is_full: false,
        }
    }

    /// An entry more, that takes so many bytes besides its name: none is given behind one that has no room.
    pub(crate) fn add(&mut self, besides: u32, listed_item: ListedItem) -> Result<(), AllocError>
        requires { listed_item.number < 2 ^ 32 }
        ensures { OnOk result (self.new ≡ one_more besides self.old listed_item) }
    {
        if self.is_full {
            return Ok(());
        }
        let bytes = bytes_with(besides, &listed_item);
        let name_bytes = bytes_with(LISTED_ITEM_BYTES, &listed_item);
        if bytes > self.budget || name_bytes > self.names_budget {
            self.is_full = true;
            return Ok(());
        }
        self.entries.push(listed_item)?;
        self.budget -= bytes;
        self.names_budget -= name_bytes;
        Ok(())
    }

    /// Whether an entry came that had no room.
    pub(crate) fn is_full(&self) -> bool
        ensures { result ≡ self.now.is_full }
    {
        self.is_full
    }

    /// Whether there was no room for the first entry.
    pub(crate) fn has_no_first(&self) -> bool
        ensures { result ≡ has_no_first self.now }
    {
        self.is_full && self.entries.len() == 0
    }

    /// The entries that are given.
    pub(crate) fn entries(&self) -> &[ListedItem]
        ensures given { result.now ≡ self.now.given }
        ensures small { All (λ listed_item. listed_item.number < 2 ^ 32) result.now }
    {
        &self.entries
    }

    /// The entries that are given.
    pub(crate) fn into_entries(self) -> Vec<ListedItem>
        ensures { result.items ≡ self.given }
    {
        self.entries
    }
}
