//! Reading marks and fragments, one behind another.
ghost use Rattle.std.specs.Prelude.{◌≡◌, ◌+◌, ◌++◌, is_ok, length, nat_le, IfOk, OnErr};
ghost use Rattle.xdr.specs.Items.{word as spelled};

use std::marker::Model;

/// The bytes end before that.
#[derive(Clone, Copy, Debug, PartialEq, Eq)]
pub struct TooShort;

/// The bytes that aren't read yet.
#[derive(Drop)]
pub struct StreamReader<'a> {
    rest: &'a [u8],
}

impl<'a> Model for StreamReader<'a> {
    ghost use Rattle.std.specs.Prelude.{List, ℕ};

    ghost Value = { List ℕ };

    ghost view = { λ r. r.rest.now };
}

impl<'a> StreamReader<'a> {
    /// A reader of these bytes, from the first on.
    pub fn new(bytes: &'a [u8]) -> StreamReader<'a>
        ensures { result ≡ bytes.now }
    {
        StreamReader { rest: bytes }
    }

    /// The next bytes, so many of them.
    pub fn take(&mut self, count: usize) -> Result<&'a [u8], TooShort>
        ensures taken { IfOk result (λ bytes. length bytes.now ≡ count) }
        ensures known { is_ok result ≡ nat_le count (length self.old) }
        ensures rest { IfOk result (λ _. length self.new + count ≡ length self.old) }
        ensures spelled { IfOk result (λ bytes. self.old ≡ bytes.now ++ self.new) }
        ensures is_preserved { OnErr result (self.new ≡ self.old) }
    {
        if self.rest.len() < count {
            return Err(TooShort);
        }
        let (bytes, rest) = self.rest.split_at(count);
        self.rest = rest;
        Ok(bytes)
    }

    /// A number of four bytes.
    pub fn word(&mut self) -> Result<u32, TooShort>
        ensures known { is_ok result ≡ nat_le 4 (length self.old) }
        ensures rest { IfOk result (λ _. length self.new + 4 ≡ length self.old) }
        ensures spelled { IfOk result (λ word. self.old ≡ spelled word ++ self.new) }
        ensures is_preserved { OnErr result (self.new ≡ self.old) }
    {
        Ok(number_of_four(self.take(4)?))
    }

    /// The bytes that are left.
    pub fn rest(&self) -> &'a [u8]
        ensures { result.now ≡ self.now }
    {
        self.rest
    }
}

// The number that four bytes spell, the greatest first.
#[tactic(auto, unfolding(xdr::specs::Items::word))]
fn number_of_four(bytes: &[u8]) -> u32
    requires { length bytes.now ≡ 4 }
    ensures { spelled result ≡ bytes.now }
{
    u32::from_be_bytes([bytes[0], bytes[1], bytes[2], bytes[3]])
}
