//! Bytes that were read of a connection.
ghost use Rattle.std.specs.Prelude.{◌≤◌, length};

mod read;

use pool_requests::Stream;
pub(crate) use read::{Came, read_piece};
use std::alloc::{AllocError, Global};

/// Room for the bytes that a read brings.
#[derive(Drop)]
pub struct Buffer {
    bytes: Vec<u8>,
}

impl Buffer {
    /// For so many bytes.
    pub fn new(alloc: Global, count: usize) -> Result<Buffer, AllocError> {
        let bytes = vec![in alloc; 0u8; count]?;
        Ok(Buffer { bytes })
    }
}

/// What a read brought: one byte or more. It can't be let go or copied, and gives its bytes to a stream alone: so none of
/// them is lost, and none is received twice.
pub struct Piece {
    bytes: Vec<u8>,
    count: usize,
    pub ghost within: { count ≤ length bytes.items },
}

impl Piece {
    ghost use Rattle.std.specs.Prelude.{◌≡◌, ◌++◌, OnOk, OnErr};
    ghost use Rattle.server_connection.specs.Came.{bytes_of};

    /// Gives the bytes to the stream, which takes all of them or, where memory is refused, none.
    pub fn feed(self, stream: &mut Stream) -> Result<Buffer, AllocError>
        ensures ok { OnOk result (stream.new ≡ record stream.old {
          came = stream.old.came ++ bytes_of self;
          left = stream.old.left ++ bytes_of self;
        }) }
        ensures err { OnErr result (stream.new ≡ stream.old) }
    {
        let Piece { bytes, count } = self;
        stream.feed(&bytes, count)?;
        Ok(Buffer { bytes })
    }
}
