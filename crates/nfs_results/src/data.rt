//! The data of a READ, which stand last in its result and are written nowhere but to where the reply goes.
ghost use Rattle.std.specs.Prelude.{◌≡◌, false, flat_map, length, IfOk};
ghost use Rattle.nfs_results.specs.Results.{nfs_data, nfs_too_long, padded, read_data};
ghost use Rattle.xdr.specs.Items.{is_uncounted};
ghost use Rattle.xdr.specs.Writing.{WritesBytes};

use nfs_types::{Pieces, ReadBytes, Reply, SharedOctets, Status};
use xdr::{Writer, XdrFault};

/// How many bytes the data of a reply take, with their padding: none but those of a READ take any.
#[tactic(auto, using(crate::proofs::Headers::counted))]
pub fn data_len(reply: &Reply) -> usize
    requires { nfs_too_long reply.now ≡ false }
    ensures { result ≡ length (nfs_data reply.now) }
{
    match reply {
        Reply::Read { outcome, .. } => read_len(outcome),
        _ => 0,
    }
}

// The same of what came of a READ.
fn read_len(outcome: &Result<ReadBytes, Status>) -> usize
    requires { IfOk outcome.now (λ done. is_uncounted done.bytes ≡ false) }
    ensures { result ≡ length (read_data outcome.now) }
{
    match outcome {
        Ok(done) => padded_len(&done.bytes),
        Err(_) => 0,
    }
}

/// Copies the data of a reply, with their padding, behind what is there.
pub fn put_data(out: &mut Writer, reply: &Reply) -> Result<(), XdrFault>
    ensures { WritesBytes result out.old out.new (nfs_data reply.now) false }
{
    match reply {
        Reply::Read {
            outcome: Ok(done),
            ..
        } => put_padded(out, &done.bytes),
        _ => Ok(()),
    }
}

// How many bytes these take with their padding.
fn padded_len(bytes: &Pieces) -> usize
    requires { is_uncounted bytes.now ≡ false }
    ensures { result ≡ length (padded bytes.now) }
{
    bytes.len() + (4 - bytes.len() % 4) % 4
}

// Copies these bytes and their padding.
fn put_padded(out: &mut Writer, bytes: &Pieces) -> Result<(), XdrFault>
    ensures { WritesBytes result out.old out.new (padded bytes.now) false }
{
    put_parts(out, bytes.parts())?;
    out.padding(bytes.len())
}

// Copies these pieces, one behind the other.
fn put_parts(out: &mut Writer, parts: &[SharedOctets]) -> Result<(), XdrFault>
    ensures { WritesBytes result out.old out.new (flat_map (λ part. part) parts.now) false }
{
    for part in parts {
        out.raw(part.as_slice())?;
    }
    Ok(())
}
