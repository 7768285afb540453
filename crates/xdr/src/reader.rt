//! A cursor over bytes that takes one item after another.
ghost use Rattle.std.specs.Prelude.{◌≡◌, ◌==◌};
ghost use Rattle.std.specs.List.{list_all};
ghost use Rattle.std.specs.Int.{w32, w64};
ghost use Rattle.xdr.specs.Reading.{Reads, number_at, flag_at, opaque_at, eight_at, end_at};

use crate::XdrFault;
use byteorder::{BigEndian, ByteOrder};
use std::marker::Model;

/// The bytes that aren't read yet. After a refusal nothing is said of where it stands.
#[derive(Drop)]
pub struct Reader<'a> {
    rest: &'a [u8],
}

impl<'a> Model for Reader<'a> {
    ghost use Rattle.std.specs.Prelude.{List, ℕ};

    ghost Value = { List ℕ };

    ghost view = { λ r. r.rest.now };
}

impl<'a> Reader<'a> {
    pub fn new(bytes: &'a [u8]) -> Reader<'a>
        ensures { result ≡ bytes.now }
    {
        Reader { rest: bytes }
    }

    /// An unsigned number of four bytes (RFC 4506, section 4.2).
    #[tactic(auto, using(crate::proofs::Endian::four))]
    pub fn unsigned(&mut self) -> Result<u32, XdrFault>
        ensures { Reads (λ x. (x, self.new)) result (number_at w32 self.old) }
    {
        if self.rest.len() < 4 {
            return Err(XdrFault::Short);
        }
        let (leading, rest) = self.rest.split_at(4);
        self.rest = rest;
        Ok(BigEndian::read_u32(leading))
    }

    /// An unsigned number of eight bytes (RFC 4506, section 4.5).
    #[tactic(auto, using(crate::proofs::Endian::eight))]
    pub fn hyper(&mut self) -> Result<u64, XdrFault>
        ensures { Reads (λ x. (x, self.new)) result (number_at w64 self.old) }
    {
        if self.rest.len() < 8 {
            return Err(XdrFault::Short);
        }
        let (leading, rest) = self.rest.split_at(8);
        self.rest = rest;
        Ok(BigEndian::read_u64(leading))
    }

    /// A flag, which is 0 or 1 (RFC 4506, section 4.4).
    #[tactic(auto, unfolding(crate::specs::Reading::flag_at))]
    pub fn flag(&mut self) -> Result<bool, XdrFault>
        ensures { Reads (λ x. (x, self.new)) result (flag_at self.old) }
    {
        match self.unsigned()? {
            0 => Ok(false),
            1 => Ok(true),
            _ => Err(XdrFault::Value),
        }
    }

    /// A string of at most `bound` bytes, padded with zeros to a multiple of four (RFC 4506, section 4.10).
    #[tactic(auto, unfolding(crate::specs::Reading::opaque_at))]
    pub fn opaque(&mut self, bound: usize) -> Result<&'a [u8], XdrFault>
        ensures { Reads (λ x. (x.now, self.new)) result (opaque_at bound self.old) }
    {
        let length = self.unsigned()? as usize;
        if length > bound {
            return Err(XdrFault::Length);
        }
        let padding = (4 - length % 4) % 4;
        if self.rest.len() < length + padding {
            return Err(XdrFault::Short);
        }
        let (bytes, rest) = self.rest.split_at(length);
        let (zeros, rest) = rest.split_at(padding);
        self.rest = rest;
        if !is_zeros(zeros) {
            return Err(XdrFault::Padding);
        }
        Ok(bytes)
    }

    /// Eight bytes as they stand there (RFC 4506, section 4.9).
    #[tactic(auto, unfolding(crate::specs::Reading::eight_at))]
    pub fn eight(&mut self) -> Result<[u8; 8], XdrFault>
        ensures { Reads (λ x. (x, self.new)) result (eight_at self.old) }
    {
        if self.rest.len() < 8 {
            return Err(XdrFault::Short);
        }
        let (leading, rest) = self.rest.split_at(8);
        self.rest = rest;
        Ok([
            leading[0], leading[1], leading[2], leading[3], leading[4], leading[5], leading[6],
            leading[7],
        ])
    }

    /// The bytes that are left.
    pub fn rest(&self) -> &'a [u8]
        ensures { result.now ≡ self.now }
    {
        self.rest
    }

    /// Nothing, where nothing is left.
    pub fn end(&self) -> Result<(), XdrFault>
        ensures { Reads (λ x. x) result (end_at self.now) }
    {
        if self.rest.is_empty() {
            Ok(())
        } else {
            Err(XdrFault::Left)
        }
    }
}

// Whether each byte is zero.
fn is_zeros(bytes: &[u8]) -> bool
    ensures { result ≡ list_all (λ b. b == 0) bytes.now }
{
    bytes.iter().all(|byte| *byte == 0)
}
