//! Results by their status (RFC 1813, section 2.6): what comes behind OK, and what behind a refusal.
ghost use Rattle.std.specs.Prelude.{◌≡◌};
ghost use Rattle.xdr.specs.Reading.{Gives};
ghost use Rattle.nfs_results.specs.Results.{by_status, default_void, behind, before};
ghost use Rattle.nfs_client_codec.specs.Arms.{arm_of};

use crate::decode::Decode;
use nfs_codec::status_numbered;
use nfs_types::Status;
use std::alloc::Global;
use xdr::{Reader, XdrFault};

// What comes behind OK, or a refusal with what comes behind it.
fn decode_by_status<A: Decode, B: Decode>(
    alloc: Global,
    reader: &mut Reader,
) -> Result<Result<A, (Status, B)>, XdrFault>
    ensures { Gives (λ x. (arm_of x, reader.new)) result ((by_status A.code B.code).read reader.old) }
{
    match reader.unsigned()? {
        0 => Ok(Ok(A::decode(alloc, reader)?)),
        number => match status_numbered(number) {
            Some(status) => Ok(Err((status, B::decode(alloc, reader)?))),
            None => Err(XdrFault::Value),
        },
    }
}

/// A result with nothing behind a refusal.
pub fn decode_default_void<A: Decode>(
    alloc: Global,
    reader: &mut Reader,
) -> Result<Result<A, Status>, XdrFault>
    ensures { Gives (λ x. (x, reader.new)) result ((default_void A.code).read reader.old) }
{
    match decode_by_status::<A, ()>(alloc, reader)? {
        Ok(done) => Ok(Ok(done)),
        Err((status, ())) => Ok(Err(status)),
    }
}

/// A result with `B` behind either status, and behind that `A` where it is OK.
pub fn decode_behind<B: Decode, A: Decode>(
    alloc: Global,
    reader: &mut Reader,
) -> Result<(Result<A, Status>, B), XdrFault>
    ensures { Gives (λ x. (x, reader.new)) result ((behind B.code A.code).read reader.old) }
{
    match decode_by_status::<(B, A), B>(alloc, reader)? {
        Ok((both, done)) => Ok((Ok(done), both)),
        Err((status, both)) => Ok((Err(status), both)),
    }
}

/// A result with `A` behind OK, and behind that, or behind a refusal, `B`.
pub fn decode_before<A: Decode, B: Decode>(
    alloc: Global,
    reader: &mut Reader,
) -> Result<(Result<A, Status>, B), XdrFault>
    ensures { Gives (λ x. (x, reader.new)) result ((before A.code B.code).read reader.old) }
{
    match decode_by_status::<(A, B), B>(alloc, reader)? {
        Ok((done, both)) => Ok((Ok(done), both)),
        Err((status, both)) => Ok((Err(status), both)),
    }
}
