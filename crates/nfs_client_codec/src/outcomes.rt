//! Reading what results tell after OK (RFC 1813, sections 3.3 and 5.2).
ghost use Rattle.std.specs.Prelude.{◌≡◌};
ghost use Rattle.xdr.specs.Codes.{word, items_at};
ghost use Rattle.xdr.specs.Reading.{Gives};
ghost use Rattle.nfs_results.specs.Results as codes;

use crate::decode::Decode;
use base::RECORD_BYTES;
use nfs_types::{
    Created, FileSystemInfo, FileSystemSpace, Handle, LookupResult, Moment, Mounted, NumberList,
    PathLimits, Pieces, ReadBytes, Stability, Verifier, Written,
};
use std::alloc::Global;
use xdr::{Reader, XdrFault};

// What LOOKUP found.
impl Decode for LookupResult {
    ghost code = { codes.lookup_result };

    #[tactic(auto, unfolding(nfs_results::specs::Results::lookup_result, nfs_codec::specs::Items::optional_attributes))]
    fn decode(alloc: Global, reader: &mut Reader) -> Result<LookupResult, XdrFault> {
        Ok(LookupResult {
            object: Handle::decode(alloc, reader)?,
            attributes: Option::decode(alloc, reader)?,
        })
    }
}

// What READ gives.
impl Decode for ReadBytes {
    ghost code = { codes.read_bytes };

    #[tactic(auto, unfolding(nfs_results::specs::Results::read_bytes, nfs_codec::specs::Items::text))]
    fn decode(alloc: Global, reader: &mut Reader) -> Result<ReadBytes, XdrFault> {
        let count = reader.unsigned()?;
        let eof = reader.flag()?;
        let bytes = reader.opaque(RECORD_BYTES)?;
        Ok(ReadBytes {
            count,
            eof,
            bytes: Pieces::copied(alloc, bytes)?,
        })
    }
}

// What WRITE did.
impl Decode for Written {
    ghost code = { codes.written };

    #[tactic(auto, unfolding(nfs_results::specs::Results::written))]
    fn decode(alloc: Global, reader: &mut Reader) -> Result<Written, XdrFault> {
        Ok(Written {
            count: reader.unsigned()?,
            committed: Stability::decode(alloc, reader)?,
            verifier: Verifier::decode(alloc, reader)?,
        })
    }
}

// What CREATE, MKDIR, SYMLINK or MKNOD made.
impl Decode for Created {
    ghost code = { codes.created };

    #[tactic(auto, unfolding(nfs_results::specs::Results::created, nfs_codec::specs::Items::optional_handle, nfs_codec::specs::Items::optional_attributes))]
    fn decode(alloc: Global, reader: &mut Reader) -> Result<Created, XdrFault> {
        Ok(Created {
            object: Option::decode(alloc, reader)?,
            attributes: Option::decode(alloc, reader)?,
        })
    }
}

// What FSSTAT tells.
impl Decode for FileSystemSpace {
    ghost code = { codes.space };

    #[tactic(auto, unfolding(nfs_results::specs::Results::space))]
    fn decode(_alloc: Global, reader: &mut Reader) -> Result<FileSystemSpace, XdrFault> {
        Ok(FileSystemSpace {
            total_bytes: reader.hyper()?,
            free_bytes: reader.hyper()?,
            available_bytes: reader.hyper()?,
            total_files: reader.hyper()?,
            free_files: reader.hyper()?,
            available_files: reader.hyper()?,
            unchanged_seconds: reader.unsigned()?,
        })
    }
}

// What FSINFO tells.
impl Decode for FileSystemInfo {
    ghost code = { codes.info };

    #[tactic(auto, unfolding(nfs_results::specs::Results::info))]
    fn decode(alloc: Global, reader: &mut Reader) -> Result<FileSystemInfo, XdrFault> {
        Ok(FileSystemInfo {
            read_max: reader.unsigned()?,
            read_preferred: reader.unsigned()?,
            read_multiple: reader.unsigned()?,
            write_max: reader.unsigned()?,
            write_preferred: reader.unsigned()?,
            write_multiple: reader.unsigned()?,
            directory_preferred: reader.unsigned()?,
            largest_file: reader.hyper()?,
            time_delta: Moment::decode(alloc, reader)?,
            properties: reader.unsigned()?,
        })
    }
}

// What PATHCONF tells.
impl Decode for PathLimits {
    ghost code = { codes.limits };

    #[tactic(auto, unfolding(nfs_results::specs::Results::limits))]
    fn decode(_alloc: Global, reader: &mut Reader) -> Result<PathLimits, XdrFault> {
        Ok(PathLimits {
            links: reader.unsigned()?,
            name_bytes: reader.unsigned()?,
            no_truncation: reader.flag()?,
            chown_restricted: reader.flag()?,
            case_insensitive: reader.flag()?,
            case_preserving: reader.flag()?,
        })
    }
}

// What MNT gives.
impl Decode for Mounted {
    ghost code = { codes.mounted };

    #[tactic(auto, unfolding(nfs_results::specs::Results::mounted))]
    fn decode(alloc: Global, reader: &mut Reader) -> Result<Mounted, XdrFault> {
        Ok(Mounted {
            root: Handle::decode(alloc, reader)?,
            flavors: NumberList::decode(alloc, reader)?,
        })
    }
}

// A counted list of flavors.
impl Decode for NumberList {
    ghost code = { codes.flavors };

    #[tactic(auto, unfolding(nfs_results::specs::Results::flavors))]
    fn decode(alloc: Global, reader: &mut Reader) -> Result<NumberList, XdrFault> {
        let count = reader.unsigned()?;
        if count as usize > RECORD_BYTES {
            return Err(XdrFault::Length);
        }
        let numbers = read_numbers(alloc, count, reader)?;
        Ok(NumberList::new(numbers))
    }
}

// So many numbers.
fn read_numbers(alloc: Global, count: u32, reader: &mut Reader) -> Result<Vec<u32>, XdrFault>
    ensures { Gives (λ v. (v.items, reader.new)) result (items_at word count reader.old) }
{
    let mut numbers = Vec::new(alloc);
    for _ in 0..count {
        let number = reader.unsigned()?;
        numbers.push(number)?;
    }
    Ok(numbers)
}
