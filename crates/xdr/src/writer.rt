//! Items one after another at the end of bytes.
ghost use Rattle.std.specs.Prelude.{◌≡◌, ◌-◌, ◌^◌, [], true, false, length as len, min, replicate, OnErr, IfOk, IfErr, nat_lt};
ghost use Rattle.std.specs.Prelude.{vec_capacity};
ghost use Rattle.xdr.specs.declared.fault.XdrFault.TheVariants.{Length};
ghost use Rattle.xdr.specs.Items.{word, double, flag, opaque, is_uncounted, padding};
ghost use Rattle.xdr.specs.Writing.{WritesBytes};

use crate::XdrFault;
use crate::ghost_bytes::GhostBytes;
use byteorder::{BigEndian, ByteOrder};
use std::alloc::Global;
use std::marker::Model;

/// The bytes that are written so far; or, of a writer that counts, only how many they are, and for proofs alone the
/// bytes. An item that is refused leaves them as they were.
#[derive(Drop)]
pub struct Writer {
    bytes: Vec<u8>,
    counts: bool,
    count: usize,
    counted: GhostBytes,
}

impl Model for Writer {
    ghost use Rattle.std.specs.Prelude.{if◌then◌else◌};
    ghost use Rattle.std.specs.Vec.{vec_capacity};
    ghost use Rattle.xdr.specs.Writing.{WriterState};

    ghost Value = { WriterState };

    ghost view = { λ w. record {
      bytes = if w.counts then w.counted else w.bytes.items;
      capacity = vec_capacity w.bytes;
      counts = w.counts;
    } };

    ghost use Rattle.std.specs.Prelude.{◌≡◌, ◌-◌, ◌^◌, true, length, min};

    ghost invariant = { λ w. w.counts ≡ true → w.count ≡ min (length w.counted) (2 ^ 64 - 1) };
}

impl Writer {
    /// Writes behind no bytes.
    pub fn new(alloc: Global) -> Writer
        ensures bytes { result.bytes ≡ [] }
        ensures keeps { result.counts ≡ false }
    {
        Writer::behind(Vec::new(alloc))
    }

    /// Writes behind these bytes.
    pub fn behind(bytes: Vec<u8>) -> Writer
        ensures bytes { result.bytes ≡ bytes.items }
        ensures capacity { result.capacity ≡ vec_capacity bytes }
        ensures keeps { result.counts ≡ false }
    {
        Writer {
            bytes,
            counts: false,
            count: 0,
            counted: GhostBytes::new(),
        }
    }

    /// Only counts. It takes no memory.
    pub fn counting(alloc: Global) -> Writer
        ensures bytes { result.bytes ≡ [] }
        ensures counts { result.counts ≡ true }
    {
        Writer {
            bytes: Vec::new(alloc),
            counts: true,
            count: 0,
            counted: GhostBytes::new(),
        }
    }

    /// How many bytes a writer has counted, or 2^64 - 1 where they are more.
    pub fn count(&self) -> usize
        requires { self.now.counts ≡ true }
        ensures { result ≡ min (len self.now.bytes) (2 ^ 64 - 1) }
    {
        self.count
    }

    pub fn as_slice(&self) -> &[u8]
        requires { self.now.counts ≡ false }
        ensures { result.now ≡ self.now.bytes }
    {
        &self.bytes
    }

    /// Gives the bytes away, as they are.
    pub fn into_bytes(self) -> Vec<u8>
        requires { self.counts ≡ false }
        ensures { result.items ≡ self.bytes }
    {
        self.bytes
    }

    /// Bytes as they are (RFC 4506, section 4.9), without zeros behind them. Inlined, an item of a fixed length is one
    /// store where it is kept, and one sum where it is counted.
    #[inline(always)]
    pub fn raw(&mut self, bytes: &[u8]) -> Result<(), XdrFault>
        ensures written { WritesBytes result self.old self.new (bytes.now) false }
        ensures refused { OnErr result (self.new.bytes ≡ self.old.bytes) }
    {
        if self.counts {
            self.counted.put(bytes);
            self.count = self.count.saturating_add(bytes.len());
        } else {
            self.bytes.extend_from_slice(bytes)?;
        }
        Ok(())
    }

    /// An unsigned number of four bytes (RFC 4506, section 4.2).
    #[tactic(auto, unfolding(crate::specs::Items::word))]
    pub fn unsigned(&mut self, number: u32) -> Result<(), XdrFault>
        ensures written { WritesBytes result self.old self.new (word number) false }
        ensures refused { OnErr result (self.new.bytes ≡ self.old.bytes) }
    {
        let mut bytes = [0; 4];
        BigEndian::write_u32(&mut bytes, number);
        self.raw(&bytes)
    }

    /// An unsigned number of eight bytes (RFC 4506, section 4.5).
    #[tactic(auto, unfolding(crate::specs::Items::double))]
    pub fn hyper(&mut self, number: u64) -> Result<(), XdrFault>
        ensures written { WritesBytes result self.old self.new (double number) false }
        ensures refused { OnErr result (self.new.bytes ≡ self.old.bytes) }
    {
        let mut bytes = [0; 8];
        BigEndian::write_u64(&mut bytes, number);
        self.raw(&bytes)
    }

    /// A flag, which is 0 or 1 (RFC 4506, section 4.4).
    #[tactic(auto, unfolding(crate::specs::Items::flag))]
    pub fn flag(&mut self, value: bool) -> Result<(), XdrFault>
        ensures written { WritesBytes result self.old self.new (flag value) false }
        ensures refused { OnErr result (self.new.bytes ≡ self.old.bytes) }
    {
        self.unsigned(if value { 1 } else { 0 })
    }

    /// Eight bytes as they are (RFC 4506, section 4.9).
    pub fn eight(&mut self, bytes: &[u8; 8]) -> Result<(), XdrFault>
        ensures written { WritesBytes result self.old self.new (bytes.now) false }
        ensures refused { OnErr result (self.new.bytes ≡ self.old.bytes) }
    {
        self.raw(bytes)
    }

    /// The length of a string whose bytes are to follow (RFC 4506, section 4.10). One of 2^32 bytes or more has no
    /// spelling.
    pub fn length(&mut self, length: usize) -> Result<(), XdrFault>
        ensures written { WritesBytes result self.old self.new (word length) (nat_lt 4294967295 length) }
        ensures refused { OnErr result (self.new.bytes ≡ self.old.bytes) }
    {
        let length = counted(length)?;
        self.unsigned(length)
    }

    /// A string with its length and its padding (RFC 4506, section 4.10). One of 2^32 bytes or more has no
    /// spelling.
    pub fn opaque(&mut self, string: &[u8]) -> Result<(), XdrFault>
        ensures written { WritesBytes result self.old self.new (opaque string.now) (is_uncounted string.now) }
        ensures refused { OnErr result (self.new.bytes ≡ self.old.bytes) }
    {
        let length = counted(string.len())?;
        self.padded(length, string)
    }

    // A string of this length, behind its length and with its padding. Memory for all of it is taken first.
    #[tactic(auto, unfolding(crate::specs::Items::opaque, crate::specs::Items::word))]
    fn padded(&mut self, length: u32, string: &[u8]) -> Result<(), XdrFault>
        requires { length ≡ len string.now }
        ensures written { WritesBytes result self.old self.new (opaque string.now) false }
        ensures refused { OnErr result (self.new.bytes ≡ self.old.bytes) }
    {
        if !self.counts {
            self.bytes
                .reserve(4 + string.len() + (4 - string.len() % 4) % 4)?;
        }
        let mut bytes = [0; 4];
        BigEndian::write_u32(&mut bytes, length);
        self.raw(&bytes)?;
        self.raw(string)?;
        self.padding(string.len())
    }

    /// The zeros behind so many bytes, up to a multiple of four (RFC 4506, section 4.10).
    pub fn padding(&mut self, length: usize) -> Result<(), XdrFault>
        ensures written { WritesBytes result self.old self.new (replicate (padding length) 0) false }
        ensures refused { OnErr result (self.new.bytes ≡ self.old.bytes) }
    {
        match length % 4 {
            0 => Ok(()),
            1 => self.raw(&[0, 0, 0]),
            2 => self.raw(&[0, 0]),
            _ => self.raw(&[0]),
        }
    }
}

// The length of a string, where four bytes can tell it.
fn counted(length: usize) -> Result<u32, XdrFault>
    ensures ok { IfOk result (λ n. (n ≡ length) × (nat_lt 4294967295 length ≡ false)) }
    ensures err { IfErr result (λ e. (e ≡ Length) × (nat_lt 4294967295 length ≡ true)) }
{
    if length > u32::MAX as usize {
        return Err(XdrFault::Length);
    }
    Ok(length as u32)
}
