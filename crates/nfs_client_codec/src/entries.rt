//! Reading the listings of READDIR and READDIRPLUS (RFC 1813, sections 3.3.16 and 3.3.17).
ghost use Rattle.std.specs.Prelude.{◌≡◌};
ghost use Rattle.xdr.specs.Codes.{chain};
ghost use Rattle.xdr.specs.Reading.{Gives};
ghost use Rattle.xdr.proofs.Lawful.{IsCode};
ghost use Rattle.nfs_results.specs.Results as codes;
ghost use Rattle.nfs_results.proofs.ReplyLaws.{entry_is, entry_plus_is};

use crate::decode::Decode;
use nfs_types::{
    Listed, ListedEntries, ListedEntriesPlus, ListedItem, ListedItemPlus, ListedPlus, Octets,
    Verifier,
};
use std::alloc::Global;
use xdr::{Reader, XdrFault};

// An item of a chain, which is read as it is spelled.
trait ChainItem: Decode {
    ghost is_code: { IsCode Self.code };
}

// Items, each behind a true flag, and a false one behind the last.
fn decode_chain<T: ChainItem>(alloc: Global, reader: &mut Reader) -> Result<Vec<T>, XdrFault>
    ensures { Gives (λ v. (v.items, reader.new)) result ((chain T.code).read reader.old) }
{
    let mut items = Vec::new(alloc);
    while reader.flag()? {
        items.push(T::decode(alloc, reader)?)?;
    }
    Ok(items)
}

// What READDIR lists.
impl Decode for Listed {
    ghost code = { codes.listed };

    #[tactic(auto, unfolding(nfs_results::specs::Results::listed, nfs_results::specs::Results::entries))]
    fn decode(alloc: Global, reader: &mut Reader) -> Result<Listed, XdrFault> {
        Ok(Listed {
            verifier: Verifier::decode(alloc, reader)?,
            entries: ListedEntries::new(decode_chain(alloc, reader)?),
            eof: reader.flag()?,
        })
    }
}

// An entry.
impl Decode for ListedItem {
    ghost code = { codes.entry };

    #[tactic(auto, unfolding(nfs_results::specs::Results::entry))]
    fn decode(alloc: Global, reader: &mut Reader) -> Result<ListedItem, XdrFault> {
        Ok(ListedItem {
            number: reader.hyper()?,
            name: Octets::decode(alloc, reader)?,
            cookie: reader.hyper()?,
        })
    }
}

impl ChainItem for ListedItem {
    ghost is_code = { entry_is };
}

// What READDIRPLUS lists.
impl Decode for ListedPlus {
    ghost code = { codes.listed_plus };

    #[tactic(auto, unfolding(nfs_results::specs::Results::listed_plus, nfs_results::specs::Results::entries_plus))]
    fn decode(alloc: Global, reader: &mut Reader) -> Result<ListedPlus, XdrFault> {
        Ok(ListedPlus {
            verifier: Verifier::decode(alloc, reader)?,
            entries: ListedEntriesPlus::new(decode_chain(alloc, reader)?),
            eof: reader.flag()?,
        })
    }
}

// An entry.
impl Decode for ListedItemPlus {
    ghost code = { codes.entry_plus };

    #[tactic(auto, unfolding(nfs_results::specs::Results::entry_plus, nfs_codec::specs::Items::optional_attributes, nfs_codec::specs::Items::optional_handle))]
    fn decode(alloc: Global, reader: &mut Reader) -> Result<ListedItemPlus, XdrFault> {
        Ok(ListedItemPlus {
            number: reader.hyper()?,
            name: Octets::decode(alloc, reader)?,
            cookie: reader.hyper()?,
            attributes: Option::decode(alloc, reader)?,
            handle: Option::decode(alloc, reader)?,
        })
    }
}

impl ChainItem for ListedItemPlus {
    ghost is_code = { entry_plus_is };
}
