//! What every item of a result gives: the code by which it is spelled, and the function that reads it.
ghost use Rattle.std.specs.Prelude.{◌≡◌};
ghost use Rattle.xdr.specs.Codes.{Code, word, nothing, optional, ◌then◌};
ghost use Rattle.xdr.specs.Reading.{Gives};

use std::alloc::Global;
use xdr::{Reader, XdrFault};

/// An item that is read from the bytes of a result.
pub trait Decode: Drop {
    ghost code: { Code Self };

    /// The item that comes next.
    fn decode(alloc: Global, reader: &mut Reader) -> Result<Self, XdrFault>
        ensures { Gives (λ x. (x, reader.new)) result (code.read reader.old) };
}

impl Decode for () {
    ghost code = { nothing };

    fn decode(_alloc: Global, _reader: &mut Reader) -> Result<(), XdrFault> {
        Ok(())
    }
}

impl Decode for u32 {
    ghost code = { word };

    fn decode(_alloc: Global, reader: &mut Reader) -> Result<u32, XdrFault> {
        reader.unsigned()
    }
}

impl<A: Decode, B: Decode> Decode for (A, B) {
    ghost code = { A.code then B.code };

    fn decode(alloc: Global, reader: &mut Reader) -> Result<(A, B), XdrFault> {
        let first = A::decode(alloc, reader)?;
        let second = B::decode(alloc, reader)?;
        Ok((first, second))
    }
}

impl<A: Decode> Decode for Option<A> {
    ghost code = { optional A.code };

    fn decode(alloc: Global, reader: &mut Reader) -> Result<Option<A>, XdrFault> {
        if reader.flag()? {
            Ok(Some(A::decode(alloc, reader)?))
        } else {
            Ok(None)
        }
    }
}
