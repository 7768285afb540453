//! The indexes of the blocks that a regular file has.
ghost use Rattle.std.specs.Prelude.{◌≡◌, ◌+◌, ◌*◌, ◌<◌, ◌≤◌, cond, nat_lt, length, filter, IfOk, OnOk};
ghost use Rattle.std.specs.Prelude.{OnErr};
ghost use Rattle.std.specs.List.{list_any};
ghost use Rattle.std.specs.FinSet as set;
ghost use Rattle.nfs_spec.specs.Model.Cost.{file_cost, inner_cost, is_double, is_indirect, is_inner};

use base::{BLOCK_BYTES, DIRECT_INDEXES, FILE_INDEXES, FIRST_DOUBLE_INDEX, INDIRECT_INDEXES};
use std::alloc::{AllocError, Global};
use std::marker::Model;

/// A set of indexes that a file may have.
#[derive(Drop)]
pub struct MappedIndexes {
    indexes: Vec<u32>,
}

impl Model for MappedIndexes {
    ghost use Rattle.std.specs.Prelude.{◌≡◌, length};
    ghost use Rattle.std.specs.Ordering.{nat_cmp};
    ghost use Rattle.std.specs.FinSet as set;
    ghost use Rattle.std.specs.Coded.{coded_ℕ};
    ghost use Rattle.plain_tree.specs.Tree.Indexes.{AreIndexes};

    ghost Value = { set.FinSet nat_cmp };

    ghost coded = { set.code coded_ℕ };

    ghost view = { λ k. set.from_list k.indexes.items };

    // no index stands twice, and each is one that a file may have
    ghost invariant = { λ k. (set.len (set.from_list {R = nat_cmp} k.indexes.items) ≡ length k.indexes.items)
        × AreIndexes (set.from_list k.indexes.items) };
}

impl Clone for MappedIndexes {
    ghost is_clone = { λ mapped copy. copy ≡ mapped };

    fn clone(&self) -> Result<MappedIndexes, AllocError> {
        self.copied()
    }
}

impl MappedIndexes {
    pub fn new(alloc: Global) -> MappedIndexes
        ensures { result ≡ set.empty }
    {
        MappedIndexes {
            indexes: Vec::new(alloc),
        }
    }

    /// The same indexes once more.
    pub fn copied(&self) -> Result<MappedIndexes, AllocError>
        ensures { IfOk result (λ copy. copy ≡ self.now) }
    {
        let indexes = self.indexes.clone()?;
        Ok(MappedIndexes { indexes })
    }

    /// Keeps one index more.
    pub fn map_index(&mut self, index: u32) -> Result<(), AllocError>
        requires { index < FILE_INDEXES }
        ensures ok { OnOk result (self.new ≡ set.insert self.old index) }
        ensures err { OnErr result (self.new ≡ self.old) }
    {
        if !self.indexes.contains(&index) {
            self.indexes.push(index)?;
        }
        Ok(())
    }

    /// How many blocks a file uses that maps these.
    pub fn cost(&self) -> u64
        ensures cost { result ≡ file_cost self.now }
        ensures small { result ≤ FILE_INDEXES + INDIRECT_INDEXES + 2 }
    {
        let indirect = one_if(any_is_indirect(&self.indexes));
        let double = one_if(any_is_double(&self.indexes));
        self.indexes.len() as u64 + indirect + double + inner_cost(&self.indexes)
    }

    /// Drops the indexes that lie at or past the new end of the file.
    pub fn cut(&mut self, size: u64)
        ensures { self.new ≡ set.retain self.old (λ index. nat_lt (index * BLOCK_BYTES) size) }
    {
        retain_below(&mut self.indexes, size);
    }
}

// 1 where it is so.
fn one_if(is: bool) -> u64
    ensures { result ≡ cond is 1 0 }
{
    if is { 1 } else { 0 }
}

fn any_is_indirect(indexes: &[u32]) -> bool
    ensures { result ≡ list_any is_indirect indexes.now }
{
    indexes.iter().any(|index| DIRECT_INDEXES <= *index as usize
        && (*index as usize) < FIRST_DOUBLE_INDEX)
}

fn any_is_double(indexes: &[u32]) -> bool
    ensures { result ≡ list_any is_double indexes.now }
{
    indexes
        .iter()
        .any(|index| FIRST_DOUBLE_INDEX <= *index as usize)
}

fn any_is_inner(inner: usize, indexes: &[u32]) -> bool
    requires { inner < INDIRECT_INDEXES }
    ensures { result ≡ list_any (is_inner inner) indexes.now }
{
    let first = FIRST_DOUBLE_INDEX + INDIRECT_INDEXES * inner;
    indexes.iter().any(|index| first <= *index as usize
        && (*index as usize) < first + INDIRECT_INDEXES)
}

// How many inner blocks name one of these indexes.
fn inner_cost(indexes: &[u32]) -> u64
    ensures few { result ≤ INDIRECT_INDEXES }
    ensures is { result ≡ inner_cost INDIRECT_INDEXES (set.from_list indexes.now) }
{
    let mut cost = 0;
    if !any_is_double(indexes) {
        return 0;
    }
    'each: for inner in 0..INDIRECT_INDEXES {
        if any_is_inner(inner, indexes) {
            cost += 1;
        }
    }
    cost
}

fn retain_below(indexes: &mut Vec<u32>, size: u64)
    ensures { indexes.new.items ≡ filter (λ index. nat_lt (index * BLOCK_BYTES) size) indexes.old.items }
{
    indexes.retain(|index| (*index as u64) * (BLOCK_BYTES as u64) < size);
}
