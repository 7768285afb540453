//! What a directory lists behind a cookie, as far as there is room (RFC 1813, section 3.3.16).
ghost use Rattle.std.specs.Prelude.{◌≡◌, ◌<◌, ◌^◌, IfErr, IfOk, OnOk};
ghost use Rattle.nfs_spec.specs.Model.Node.{Body};
ghost use Rattle.nfs_spec.specs.Model.Tree.{Tree};
ghost use Rattle.nfs_spec.specs.Procedures.Listing.{listed_behind};
ghost use Rattle.procs_files.specs.Heads.{IsFileIn, listing_of};
ghost use Rattle.procs_queries.specs.Listings.Dots.{dots_behind, listed_item_behind};
ghost use Rattle.procs_queries.specs.Listings.Gathered.{nothing, with_all};

use crate::listings::gathered::Gathering;
use nfs_spec::{FIRST_SLOT_COOKIE, ITSELF_COOKIE, PARENT_COOKIE};
use nfs_types::{ListedItem, Octets};
use procs_files::{Files, InodeAttributes, SlotName};
use std::alloc::{AllocError, Global};

// Adds an entry, if it lies behind the cookie.
fn add_behind(
    gathering: &mut Gathering,
    besides: u32,
    cookie: u64,
    listed_item: ListedItem,
) -> Result<(), AllocError>
    requires { listed_item.number < 2 ^ 32 }
    ensures { OnOk result (gathering.new ≡ with_all besides gathering.old (listed_item_behind cookie listed_item)) }
{
    if cookie < listed_item.cookie {
        gathering.add(besides, listed_item)
    } else {
        Ok(())
    }
}

// The entry of the directory itself, or of its parent.
fn dots(alloc: Global, number: u32, name: &[u8], cookie: u64) -> Result<ListedItem, AllocError>
    ensures { IfOk result (λ r. r ≡ record { number = number; name = name.now; cookie = cookie }) }
{
    Ok(ListedItem {
        number: number as u64,
        name: Octets::copied(alloc, name)?,
        cookie,
    })
}

// The directory itself and its parent, as far as they lie behind the cookie.
fn with_dots(
    alloc: Global,
    gathering: &mut Gathering,
    besides: u32,
    cookie: u64,
    directory: &InodeAttributes,
) -> Result<(), AllocError>
    ensures { OnOk result (gathering.new
        ≡ with_all besides gathering.old (dots_behind cookie directory.now.number directory.now.parent)) }
{
    let itself = dots(alloc, directory.number, b".", ITSELF_COOKIE)?;
    add_behind(gathering, besides, cookie, itself)?;
    let parent = dots(alloc, directory.parent, b"..", PARENT_COOKIE)?;
    add_behind(gathering, besides, cookie, parent)
}

// What a name in a slot lists.
fn listed(found: SlotName) -> ListedItem
    ensures listed_item { result ≡ listing_of found }
    ensures small { result.number < 2 ^ 32 }
{
    ListedItem {
        number: found.number as u64,
        name: found.name,
        cookie: found.slot as u64 + FIRST_SLOT_COOKIE,
    }
}

/// What a directory lists behind a cookie, as far as there is room, where each entry takes so many bytes besides
/// its name.
pub(crate) fn gathered<F: Files>(
    alloc: Global,
    files: &F,
    directory: &InodeAttributes,
    besides: u32,
    names_budget: u32,
    budget: u32,
    cookie: u64,
) -> Result<Gathering, F::Suspend>
    ensures err { IfErr result (λ suspend. F.may_suspend (F.source files.now) suspend) }
    ensures resumable { IfErr result (λ suspend. (world : F.World) (tree : Tree) → F.stands files.now world tree
        → F.is_resumable suspend) }
    ensures ok { IfOk result (λ r. (world : F.World) (tree : Tree) (body : Body) → F.stands files.now world tree
        → IsFileIn tree directory.now body
        → r ≡ with_all besides (nothing names_budget budget) (listed_behind cookie directory.now.number body)) }
{
    let mut gathering = Gathering::new(alloc, names_budget, budget);
    with_dots(alloc, &mut gathering, besides, cookie, directory)?;
    let mut from = cookie.saturating_sub(PARENT_COOKIE);
    'names: while !gathering.is_full() {
        match files.next_name(alloc, directory, from)? {
            Some(found) => {
                from = found.slot as u64 + 1;
                gathering.add(besides, listed(found))?;
            }
            None => return Ok(gathering),
        }
    }
    Ok(gathering)
}
