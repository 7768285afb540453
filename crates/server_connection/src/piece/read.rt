//! Reading a piece.
ghost use Rattle.server_connection.specs.Came.{Takes};

use crate::piece::{Buffer, Piece};
use std::io::{ErrorKind, Read};

/// What came of a read.
pub(crate) enum Came {
    Piece(Piece),
    /// It was interrupted.
    Again(Buffer),
    /// The client sends no more, or sent nothing for too long.
    Nothing,
    Gone,
}

/// Reads what there is.
#[tactic(auto, using(crate::proofs::ArePreserved::took_none))]
pub(crate) fn read_piece<R: Read>(reader: &mut R, buffer: Buffer) -> Came
    ensures { Takes (R.remaining reader.old) result (R.remaining reader.new) }
{
    let Buffer { bytes } = buffer;
    let mut bytes = bytes;
    match reader.read(bytes.as_mut_slice()) {
        Ok(0) => Came::Nothing,
        Ok(count) => Came::Piece(Piece { bytes, count }),
        Err(error) => match error.kind() {
            ErrorKind::Interrupted => Came::Again(Buffer { bytes }),
            ErrorKind::WouldBlock => Came::Nothing,
            _ => Came::Gone,
        },
    }
}
