//! The names in a directory (RFC 1813, section 3.2).
ghost use Rattle.std.specs.Prelude.{◌≡◌, IfSome, IfNone, OnOk, OnErr, Some, None, filter, is_some, map, not};
ghost use Rattle.std.specs.Prelude.{position};
ghost use Rattle.std.specs.Cmp.Lexicographic.{slice_cmp};
ghost use Rattle.std.specs.FinMap as finmap;
ghost use Rattle.std.specs.FinMap.{put};
ghost use Rattle.std.specs.Ordering.{eq_by_cmp, is_le, is_lt, nat_cmp};
ghost use Rattle.plain_tree.specs.Tree.Named.{are_sorted, plain_dirent_of, slot_and_number};

use nfs_types::Octets;
use std::alloc::{AllocError, Global};
use std::marker::Model;

/// A name in a directory, with the file that it leads to and the slot in which it lies.
#[derive(Clone, Drop)]
pub struct PlainDirent {
    pub name: Octets,
    pub number: u32,
    pub slot: u32,
}

/// The entries of a directory by rising names, no two of one name.
#[derive(Drop)]
pub struct PlainNames {
    entries: Vec<PlainDirent>,
}

impl Model for PlainNames {
    ghost use Rattle.std.specs.Prelude.{T};
    ghost use Rattle.std.specs.Cmp.Lexicographic.{slice_cmp};
    ghost use Rattle.std.specs.Coded.{coded_list, coded_ℕ};
    ghost use Rattle.std.specs.FinMap.{code};
    ghost use Rattle.nfs_spec.specs.Model.Node.{Entries};
    ghost use Rattle.plain_tree.specs.Tree.Named.{are_sorted, named_by, slot_and_number_code};

    ghost Value = { Entries };

    ghost coded = { code (coded_list coded_ℕ) slot_and_number_code };

    ghost view = { λ n. named_by n.entries.items };

    ghost invariant = { λ n. T (are_sorted n.entries.items) };
}

impl Clone for PlainNames {
    ghost is_clone = { λ names copy. copy ≡ names };

    fn clone(&self) -> Result<PlainNames, AllocError> {
        let entries = self.entries.clone()?;
        Ok(PlainNames { entries })
    }
}

impl PlainNames {
    pub fn new(alloc: Global) -> PlainNames
        ensures { result ≡ finmap.empty }
    {
        PlainNames {
            entries: Vec::new(alloc),
        }
    }

    /// The names of these entries, where each is greater than the one before it.
    pub fn of_rising(entries: Vec<PlainDirent>) -> Option<PlainNames>
        ensures some { IfSome result (λ names. finmap.entries names ≡ map plain_dirent_of entries.items) }
        ensures rising { is_some result ≡ are_sorted entries.items }
    {
        if do_names_rise(&entries) {
            Some(PlainNames { entries })
        } else {
            None
        }
    }

    /// The entries by rising names.
    pub fn as_slice(&self) -> &[PlainDirent]
        ensures { map plain_dirent_of result.now ≡ finmap.entries self.now }
    {
        &self.entries
    }

    /// What a name leads to.
    pub fn get(&self, name: &[u8]) -> Option<&PlainDirent>
        ensures some { IfSome result (λ dirent. finmap.get self.now name.now ≡ Some (slot_and_number dirent.now)) }
        ensures none { IfNone result (finmap.get self.now name.now ≡ None) }
    {
        let index = position_of(&self.entries, name)?;
        Some(&self.entries[index])
    }

    /// Gives a name, in place of what it led to before.
    pub fn insert(&mut self, name: Octets, number: u32, slot: u32) -> Result<(), AllocError>
        ensures ok { OnOk result (self.new ≡ finmap.insert self.old name (record {
          number = number;
          slot = slot;
        })) }
        ensures err { OnErr result (self.new ≡ self.old) }
    {
        let dirent = PlainDirent { name, number, slot };
        put_dirent(&mut self.entries, dirent)
    }

    /// Takes a name away, if it is there.
    pub fn remove(&mut self, name: &[u8])
        ensures { self.new ≡ finmap.remove self.old name.now }
    {
        retain_others(&mut self.entries, name);
    }
}

// Whether two names are one.
fn is_same(one: &[u8], other: &[u8]) -> bool
    ensures { result ≡ eq_by_cmp (slice_cmp nat_cmp) one.now other.now }
{
    one.cmp(other).is_eq()
}

fn is_at_most(one: &[u8], other: &[u8]) -> bool
    ensures { result ≡ is_le (slice_cmp nat_cmp one.now other.now) }
{
    one.cmp(other).is_le()
}

fn is_below(one: &[u8], other: &[u8]) -> bool
    ensures { result ≡ is_lt (slice_cmp nat_cmp one.now other.now) }
{
    one.cmp(other).is_lt()
}

// Whether each name is below the one behind it.
fn do_names_rise(entries: &[PlainDirent]) -> bool
    ensures { result ≡ are_sorted entries.now }
{
    entries.is_sorted_by(|one, next| is_below(one.name.as_slice(), next.name.as_slice()))
}

// Where the entry of a name stands.
fn position_of(entries: &[PlainDirent], name: &[u8]) -> Option<usize>
    ensures { result ≡ position (λ dirent. eq_by_cmp (slice_cmp nat_cmp) name.now dirent.name) entries.now }
{
    entries
        .iter()
        .position(|dirent| is_same(name, dirent.name.as_slice()))
}

// Where the first entry stands whose name isn't below this one.
fn position_from(entries: &[PlainDirent], name: &[u8]) -> Option<usize>
    ensures { result ≡ position (λ dirent. is_le (slice_cmp nat_cmp name.now dirent.name)) entries.now }
{
    entries
        .iter()
        .position(|dirent| is_at_most(name, dirent.name.as_slice()))
}

// Puts an entry in its place, or in that of the one with its name.
fn put_dirent(entries: &mut Vec<PlainDirent>, dirent: PlainDirent) -> Result<(), AllocError>
    ensures ok { OnOk result (map plain_dirent_of entries.new.items
        ≡ put (slice_cmp nat_cmp) dirent.name (slot_and_number dirent) (map plain_dirent_of entries.old.items)) }
    ensures err { OnErr result (entries.new.items ≡ entries.old.items) }
{
    match position_from(entries, dirent.name.as_slice()) {
        Some(index) => {
            if is_same(dirent.name.as_slice(), entries[index].name.as_slice()) {
                entries[index] = dirent;
            } else {
                entries.insert(index, dirent)?;
            }
        }
        None => entries.push(dirent)?,
    }
    Ok(())
}

// Takes the entry of a name away.
fn retain_others(entries: &mut Vec<PlainDirent>, name: &[u8])
    ensures { entries.new.items
        ≡ filter (λ dirent. not (eq_by_cmp (slice_cmp nat_cmp) name.now dirent.name)) entries.old.items }
{
    entries.retain(|dirent| !is_same(name, dirent.name.as_slice()));
}
