//! Bytes in pieces.
ghost use Rattle.std.specs.Prelude.{◌≡◌, ◌++◌, [], flat_map, length, vec_len, vec_capacity, ◌+◌, ◌^◌, ◌<◌, ◌≤◌, IfOk, IsOk, OnOk, OnErr};

use crate::buffers::SharedOctets;
use std::alloc::{AllocError, Global};
use std::marker::Model;

/// Bytes in pieces, one behind the other, none of which was copied: as those of a file lie in its blocks.
#[derive(Drop)]
pub struct Pieces {
    parts: Vec<SharedOctets>,
    len: usize,
}

impl Model for Pieces {
    ghost use Rattle.std.specs.Prelude.{ℕ, List, ◌≡◌, flat_map, length};

    ghost Value = { List ℕ };

    ghost view = { λ pieces. flat_map (λ part. part) pieces.parts.items };

    ghost invariant = { λ pieces. pieces.len ≡ length (flat_map (λ part. part) pieces.parts.items) };
}

impl Pieces {
    /// No bytes.
    pub fn new(alloc: Global) -> Pieces
        ensures { result ≡ [] }
    {
        Pieces {
            parts: Vec::new(alloc),
            len: 0,
        }
    }

    /// No bytes, with room for so many pieces.
    pub fn with_reserved(alloc: Global, pieces: usize) -> Result<Pieces, AllocError>
        ensures { IfOk result (λ made. made ≡ []) }
    {
        Ok(Pieces {
            parts: Vec::with_capacity(alloc, pieces)?,
            len: 0,
        })
    }

    /// These bytes, in one piece.
    pub fn one(alloc: Global, bytes: Vec<u8>) -> Result<Pieces, AllocError>
        ensures { IfOk result (λ made. made ≡ bytes.items) }
    {
        let mut made = Pieces::with_reserved(alloc, 1)?;
        made.push(SharedOctets::new(bytes)?)?;
        Ok(made)
    }

    /// A copy of these bytes, in one piece.
    pub fn copied(alloc: Global, bytes: &[u8]) -> Result<Pieces, AllocError>
        ensures { IfOk result (λ made. made ≡ bytes.now) }
    {
        Pieces::one(alloc, Vec::from_slice(alloc, bytes)?)
    }

    /// Puts a piece behind them.
    pub fn push(&mut self, part: SharedOctets) -> Result<(), AllocError>
        requires { length self.old + length part < 2 ^ 64 }
        ensures put { OnOk result (self.new ≡ self.old ++ part) }
        ensures refused { OnErr result (self.new ≡ self.old) }
    {
        let len = part.as_slice().len();
        self.parts.push(part)?;
        self.len += len;
        Ok(())
    }

    /// How many bytes there are.
    pub fn len(&self) -> usize
        ensures { result ≡ length self.now }
    {
        self.len
    }

    /// The pieces, in their order.
    pub fn parts(&self) -> &[SharedOctets]
        ensures { flat_map (λ part. part) result.now ≡ self.now }
    {
        &self.parts
    }

    /// Copies the bytes behind others. Where memory is refused nothing changes.
    pub fn append_to(&self, out: &mut Vec<u8>) -> Result<(), AllocError>
        ensures appended { OnOk result (out.new.items ≡ out.old.items ++ self.now) }
        ensures refused { OnErr result (out.new.items ≡ out.old.items) }
        ensures has_space { vec_len out.old + length self.now ≤ vec_capacity out.old → IsOk result }
    {
        out.reserve(self.len)?;
        'parts: for part in &self.parts {
            match out.extend_from_slice(part.as_slice()) {
                Ok(()) => {}
                Err(_) => unreachable!(),
            }
        }
        Ok(())
    }
}

impl Clone for Pieces {
    ghost is_clone = { λ pieces copy. copy ≡ pieces };

    fn clone(&self) -> Result<Pieces, AllocError> {
        Ok(Pieces {
            parts: self.parts.clone()?,
            len: self.len,
        })
    }
}
