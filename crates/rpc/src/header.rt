//! The header of a call (RFC 5531, section 9), in the two parts in which it is judged.
ghost use Rattle.std.specs.Prelude.{◌≡◌};
ghost use Rattle.xdr.specs.Reading.{Reads};
ghost use Rattle.rpc.specs.Headers.{opening_at, header_at, heading};

use base::MOST_AUTH_BYTES;
use xdr::{Reader, XdrFault};

/// The transaction's number, the type of the message, and the version of RPC.
#[derive(Clone, Copy, Debug, PartialEq, Eq)]
pub struct Opening {
    pub xid: u32,
    pub kind: u32,
    pub rpc_version: u32,
}

/// What is called, and the credential and the verifier as they stand in the message.
#[derive(Clone, Copy)]
pub struct Header<'a> {
    pub program: u32,
    pub version: u32,
    pub procedure: u32,
    pub flavor: u32,
    pub body: &'a [u8],
    pub verifier_flavor: u32,
    pub verifier: &'a [u8],
}

/// Reads the first three numbers of a message.
#[tactic(auto, unfolding(crate::specs::Headers::opening_at))]
pub fn read_opening(reader: &mut Reader) -> Result<Opening, XdrFault>
    ensures { Reads (λ o. (o, reader.new)) result (opening_at reader.old) }
{
    let xid = reader.unsigned()?;
    let kind = reader.unsigned()?;
    let rpc_version = reader.unsigned()?;
    Ok(Opening {
        xid,
        kind,
        rpc_version,
    })
}

/// Reads the rest of a header, up to the arguments.
#[tactic(auto, unfolding(crate::specs::Headers::header_at))]
pub fn read_header<'a>(reader: &mut Reader<'a>) -> Result<Header<'a>, XdrFault>
    ensures { Reads (λ h. (heading h, reader.new)) result (header_at reader.old) }
{
    let program = reader.unsigned()?;
    let version = reader.unsigned()?;
    let procedure = reader.unsigned()?;
    let flavor = reader.unsigned()?;
    let body = reader.opaque(MOST_AUTH_BYTES)?;
    let verifier_flavor = reader.unsigned()?;
    let verifier = reader.opaque(MOST_AUTH_BYTES)?;
    Ok(Header {
        program,
        version,
        procedure,
        flavor,
        body,
        verifier_flavor,
        verifier,
    })
}
