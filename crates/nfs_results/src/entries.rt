//! Writing the listings of READDIR and READDIRPLUS (RFC 1813, sections 3.3.16 and 3.3.17).
ghost use Rattle.xdr.specs.Writing.{Writes};
ghost use Rattle.nfs_results.specs.Results as codes;

use crate::file_attributes::{put_optional_attributes, put_optional_handle};
use nfs_codec::{put_text, put_verifier};
use nfs_types::{Listed, ListedItem, ListedItemPlus, ListedPlus};
use xdr::{Writer, XdrFault};

/// What READDIR lists.
#[tactic(auto, unfolding(crate::specs::Results::listed))]
pub fn put_listed(out: &mut Writer, listed: &Listed) -> Result<(), XdrFault>
    ensures { Writes codes.listed result out.old out.new listed.now }
{
    put_verifier(out, &listed.verifier)?;
    put_entries(out, listed.entries.as_slice())?;
    out.flag(listed.eof)
}

// Each entry behind a true flag, and a false one behind the last.
fn put_entries(out: &mut Writer, entries: &[ListedItem]) -> Result<(), XdrFault>
    ensures { Writes codes.entries result out.old out.new entries.now }
{
    for entry in entries {
        out.flag(true)?;
        put_entry(out, entry)?;
    }
    out.flag(false)?;
    Ok(())
}

#[tactic(auto, unfolding(crate::specs::Results::entry))]
fn put_entry(out: &mut Writer, entry: &ListedItem) -> Result<(), XdrFault>
    ensures { Writes codes.entry result out.old out.new entry.now }
{
    out.hyper(entry.number)?;
    put_text(out, &entry.name)?;
    out.hyper(entry.cookie)
}

/// What READDIRPLUS lists.
#[tactic(auto, unfolding(crate::specs::Results::listed_plus))]
pub fn put_listed_plus(out: &mut Writer, listed: &ListedPlus) -> Result<(), XdrFault>
    ensures { Writes codes.listed_plus result out.old out.new listed.now }
{
    put_verifier(out, &listed.verifier)?;
    put_entries_plus(out, listed.entries.as_slice())?;
    out.flag(listed.eof)
}

fn put_entries_plus(out: &mut Writer, entries: &[ListedItemPlus]) -> Result<(), XdrFault>
    ensures { Writes codes.entries_plus result out.old out.new entries.now }
{
    for entry in entries {
        out.flag(true)?;
        put_entry_plus(out, entry)?;
    }
    out.flag(false)?;
    Ok(())
}

#[tactic(auto, unfolding(crate::specs::Results::entry_plus))]
fn put_entry_plus(out: &mut Writer, entry: &ListedItemPlus) -> Result<(), XdrFault>
    ensures { Writes codes.entry_plus result out.old out.new entry.now }
{
    out.hyper(entry.number)?;
    put_text(out, &entry.name)?;
    out.hyper(entry.cookie)?;
    put_optional_attributes(out, &entry.attributes)?;
    put_optional_handle(out, &entry.handle)
}
