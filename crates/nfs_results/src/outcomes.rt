//! Writing what results tell after OK (RFC 1813, sections 3.3 and 5.2).
ghost use Rattle.std.specs.Prelude.{false};
ghost use Rattle.xdr.specs.Writing.{Writes, WritesBytes};
ghost use Rattle.nfs_results.specs.Results as codes;
ghost use Rattle.xdr.specs.Codes.{double, word, items_bytes, ◌then◌};
ghost use Rattle.nfs_codec.specs.Items.{moment};

use crate::file_attributes::{put_optional_attributes, put_optional_handle};
use nfs_codec::{put_handle, put_moment, put_stability, put_verifier};
use nfs_types::{
    Created, FileSystemInfo, FileSystemSpace, LookupResult, Mounted, PathLimits, Written,
};
use xdr::{Writer, XdrFault};

/// What LOOKUP found.
#[tactic(auto, unfolding(crate::specs::Results::lookup_result))]
pub fn put_lookup_result(out: &mut Writer, lookup_result: &LookupResult) -> Result<(), XdrFault>
    ensures { Writes codes.lookup_result result out.old out.new lookup_result.now }
{
    put_handle(out, &lookup_result.object)?;
    put_optional_attributes(out, &lookup_result.attributes)
}

/// What WRITE did.
#[tactic(auto, unfolding(crate::specs::Results::written))]
pub fn put_written(out: &mut Writer, written: &Written) -> Result<(), XdrFault>
    ensures { Writes codes.written result out.old out.new written.now }
{
    out.unsigned(written.count)?;
    put_stability(out, written.committed)?;
    put_verifier(out, &written.verifier)
}

/// What CREATE, MKDIR, SYMLINK or MKNOD made.
#[tactic(auto, unfolding(crate::specs::Results::created))]
pub fn put_created(out: &mut Writer, created: &Created) -> Result<(), XdrFault>
    ensures { Writes codes.created result out.old out.new created.now }
{
    put_optional_handle(out, &created.object)?;
    put_optional_attributes(out, &created.attributes)
}

/// What FSSTAT tells.
#[tactic(auto, unfolding(crate::specs::Results::space))]
pub fn put_space(out: &mut Writer, space: &FileSystemSpace) -> Result<(), XdrFault>
    ensures { Writes codes.space result out.old out.new space.now }
{
    out.hyper(space.total_bytes)?;
    out.hyper(space.free_bytes)?;
    out.hyper(space.available_bytes)?;
    put_files(out, space)
}

// How many files there may be, and for how long that holds.
fn put_files(out: &mut Writer, space: &FileSystemSpace) -> Result<(), XdrFault>
    ensures { Writes (double then double then double then word) result out.old out.new
        (space.now.total_files, (space.now.free_files, (space.now.available_files, space.now.unchanged_seconds))) }
{
    out.hyper(space.total_files)?;
    out.hyper(space.free_files)?;
    out.hyper(space.available_files)?;
    out.unsigned(space.unchanged_seconds)
}

/// What FSINFO tells.
#[tactic(auto, unfolding(crate::specs::Results::info))]
pub fn put_info(out: &mut Writer, info: &FileSystemInfo) -> Result<(), XdrFault>
    ensures { Writes codes.info result out.old out.new info.now }
{
    out.unsigned(info.read_max)?;
    out.unsigned(info.read_preferred)?;
    out.unsigned(info.read_multiple)?;
    out.unsigned(info.write_max)?;
    out.unsigned(info.write_preferred)?;
    put_other_info(out, info)
}

// What of it comes behind the sizes of a READ and a WRITE.
fn put_other_info(out: &mut Writer, info: &FileSystemInfo) -> Result<(), XdrFault>
    ensures { Writes (word then word then double then moment then word) result out.old out.new (
      info.now.write_multiple,
      (info.now.directory_preferred, (info.now.largest_file, (info.now.time_delta, info.now.properties))),
    ) }
{
    out.unsigned(info.write_multiple)?;
    out.unsigned(info.directory_preferred)?;
    out.hyper(info.largest_file)?;
    put_moment(out, &info.time_delta)?;
    out.unsigned(info.properties)
}

/// What PATHCONF tells.
#[tactic(auto, unfolding(crate::specs::Results::limits))]
pub fn put_limits(out: &mut Writer, limits: &PathLimits) -> Result<(), XdrFault>
    ensures { Writes codes.limits result out.old out.new limits.now }
{
    out.unsigned(limits.links)?;
    out.unsigned(limits.name_bytes)?;
    out.flag(limits.no_truncation)?;
    out.flag(limits.chown_restricted)?;
    out.flag(limits.case_insensitive)?;
    out.flag(limits.case_preserving)
}

/// What MNT gives.
#[tactic(auto, unfolding(crate::specs::Results::mounted))]
pub fn put_mounted(out: &mut Writer, mounted: &Mounted) -> Result<(), XdrFault>
    ensures { Writes codes.mounted result out.old out.new mounted.now }
{
    put_handle(out, &mounted.root)?;
    put_flavors(out, mounted.flavors.as_slice())
}

// The count of these numbers, and each of them.
#[tactic(auto, unfolding(crate::specs::Results::flavors))]
fn put_flavors(out: &mut Writer, flavors: &[u32]) -> Result<(), XdrFault>
    ensures { Writes codes.flavors result out.old out.new flavors.now }
{
    if flavors.len() > u32::MAX as usize {
        return Err(XdrFault::Length);
    }
    out.unsigned(flavors.len() as u32)?;
    put_numbers(out, flavors)?;
    Ok(())
}

fn put_numbers(out: &mut Writer, numbers: &[u32]) -> Result<(), XdrFault>
    ensures { WritesBytes result out.old out.new (items_bytes word numbers.now) false }
{
    for number in numbers {
        out.unsigned(*number)?;
    }
    Ok(())
}
