//! The machine that cuts records out of a stream. It looks at each byte once: what it has looked at it takes
//! off the front, marks are let go, and the rest is gathered in one buffer.
ghost use Rattle.std.specs.Prelude.{◌≡◌, ◌<◌, ◌≤◌, ◌^◌, ◌++◌, ◌==◌, [], Bool, true, false, length, take, drop};
ghost use Rattle.std.specs.Prelude.{ℕ, IfOk, IfErr, IfSome, IsSome, OnOk, OnErr, alloc_error};
ghost use Rattle.xdr.specs.Items.{word};
ghost use Rattle.rpc.specs.Records.{mark as mark_of, IsRecord};
ghost use Rattle.rpc.specs.Cutting.{Advances, IsCut, IsOutside, Looks, held_by, taken_text, text_of};

use crate::LAST_FRAGMENT;
use crate::fault::RpcFault;
use crate::stage::{Advance, Stage};
use base::RECORD_BYTES;
use bytes::{Bytes, BytesMut};
use http_server::Log;
use std::alloc::{AllocError, Global};
use std::snapshot::Snapshot;

/// The bytes that haven't been looked at, the content of the record so far, and how far it has come. What was
/// taken off the front is noted for proofs alone, in `http_server`'s `Log`: that takes no memory.
#[derive(Drop)]
pub struct Cutter {
    pending: BytesMut,
    content: BytesMut,
    stage: Stage,
    taken: Log<Snapshot<BytesMut>, (usize, usize)>,
}

// The bytes of a mark.
const MARK_BYTES: usize = 4;

impl Cutter {
    pub fn new(alloc: Global) -> Cutter
        ensures text { text_of result ≡ [] }
        ensures cut { IsCut result }
    {
        Cutter {
            pending: BytesMut::new(alloc),
            content: BytesMut::new(alloc),
            stage: Stage::Fresh,
            taken: Log::new(),
        }
    }

    /// Takes the next piece of the stream. Inside a fragment, what belongs to it is gathered at once.
    pub fn feed(&mut self, piece: &[u8]) -> Result<(), AllocError>
        requires { IsCut self.old }
        ensures cut { IsCut self.new }
        ensures ok { OnOk result (text_of self.new ≡ text_of self.old ++ piece.now) }
        ensures err { OnErr result (text_of self.new ≡ text_of self.old) }
    {
        match self.stage {
            Stage::Inside { last, left } if self.pending.is_empty() => {
                self.feed_inside(last, left, piece)
            }
            _ => self.pending.extend_from_slice(piece),
        }
    }

    // Takes the next piece inside a fragment of which so many bytes are still to come, where nothing waits.
    fn feed_inside(&mut self, last: bool, left: usize, piece: &[u8]) -> Result<(), AllocError>
        requires cut { IsCut self.old }
        requires inside { self.old.stage ≡ Stage.Inside last left }
        requires empty { self.old.pending.items ≡ [] }
        ensures cut { IsCut self.new }
        ensures ok { OnOk result (text_of self.new ≡ text_of self.old ++ piece.now) }
        ensures err { OnErr result (text_of self.new ≡ text_of self.old) }
    {
        let count = left.min(piece.len());
        let (leading, rest) = piece.split_at(count);
        self.pending.reserve(rest.len())?;
        self.take_in(leading)?;
        self.pending.extend_reserved(rest);
        self.stage = Stage::Inside {
            last,
            left: left - count,
        };
        Ok(())
    }

    // Takes bytes that haven't waited, as content of the record, and notes them.
    fn take_in(&mut self, leading: &[u8]) -> Result<(), AllocError>
        ensures taken { OnOk result (taken_text self.new.taken.items
            ≡ taken_text self.old.taken.items ++ leading.now) }
        ensures content { OnOk result (self.new.content.items ≡ self.old.content.items ++ leading.now) }
        ensures is_preserved { OnErr result ((taken_text self.new.taken.items ≡ taken_text self.old.taken.items)
            × (self.new.content.items ≡ self.old.content.items)) }
        ensures pending { self.new.pending ≡ self.old.pending }
        ensures stage { self.new.stage ≡ self.old.stage }
    {
        let before = self.content.len();
        self.content.extend_from_slice(leading)?;
        let behind = (before, leading.len());
        self.taken = self.taken.and(&Snapshot::of(&self.content), &behind);
        Ok(())
    }

    /// Whether nothing is left.
    pub fn is_empty(&self) -> bool
        requires { IsCut self.now }
        ensures { result ≡ (length (text_of self.now) == 0) }
    {
        match self.stage {
            Stage::Fresh => self.pending.is_empty(),
            Stage::Between | Stage::Inside { .. } => false,
        }
    }

    /// Looks at the bytes that are there, up to the end of a record, and tells whether one is whole.
    pub fn scan(&mut self) -> Result<bool, RpcFault>
        requires { IsCut self.old }
        ensures { Looks self.old result self.new }
    {
        'fragments: loop {
            match self.advance()? {
                Advance::Waits => return Ok(false),
                Advance::Whole => return Ok(true),
                Advance::GoesOn => {}
            }
        }
    }

    /// How many bytes memory holds: of the content so far, and those that haven't been looked at.
    pub fn held(&self) -> usize
        ensures { result ≡ held_by self.now }
    {
        self.content.len() + self.pending.len()
    }

    // Looks at the bytes that are there, up to the end of a fragment.
    fn advance(&mut self) -> Result<Advance, RpcFault>
        requires { IsCut self.old }
        ensures { Advances self.old result self.new }
    {
        match self.stage {
            Stage::Inside { last, left } => self.fill(last, left),
            Stage::Fresh | Stage::Between => self.begin(),
        }
    }

    // Takes the next mark, and then what is there of its fragment.
    fn begin(&mut self) -> Result<Advance, RpcFault>
        requires cut { IsCut self.old }
        requires outside { IsOutside self.old.stage }
        ensures { Advances self.old result self.new }
    {
        let pending = self.pending.as_slice();
        if pending.len() < MARK_BYTES {
            return Ok(Advance::Waits);
        }
        let (last, length) = announced(&pending[..MARK_BYTES]);
        if length > RECORD_BYTES - self.content.len() {
            return Err(RpcFault::TooLong);
        }
        self.take_off(MARK_BYTES);
        self.stage = Stage::Inside { last, left: length };
        self.fill(last, length)
    }

    // Gathers what is there of a fragment of which so many bytes are still to come.
    fn fill(&mut self, last: bool, left: usize) -> Result<Advance, RpcFault>
        requires cut { IsCut self.old }
        requires inside { self.old.stage ≡ Stage.Inside last left }
        ensures { Advances self.old result self.new }
    {
        let count = left.min(self.pending.len());
        self.gather(count)?;
        if count < left {
            self.stage = Stage::Inside {
                last,
                left: left - count,
            };
            return Ok(Advance::Waits);
        }
        if last {
            self.stage = Stage::Inside { last, left: 0 };
            return Ok(Advance::Whole);
        }
        self.stage = Stage::Between;
        Ok(Advance::GoesOn)
    }

    // Takes bytes off the front, as content of the record.
    fn gather(&mut self, count: usize) -> Result<(), RpcFault>
        requires { count ≤ length self.old.pending.items }
        ensures taken { OnOk result (taken_text self.new.taken.items
            ≡ taken_text self.old.taken.items ++ take count self.old.pending.items) }
        ensures pending { OnOk result (self.new.pending.items ≡ drop count self.old.pending.items) }
        ensures content { OnOk result (self.new.content.items
            ≡ self.old.content.items ++ take count self.old.pending.items) }
        ensures err { IfErr result (λ e. e ≡ RpcFault.NoMemory alloc_error) }
        ensures is_preserved { OnErr result ((text_of self.new ≡ text_of self.old)
            × (taken_text self.new.taken.items ≡ taken_text self.old.taken.items)
            × (self.new.content.items ≡ self.old.content.items)) }
        ensures stage { self.new.stage ≡ self.old.stage }
    {
        self.content
            .extend_from_slice(&self.pending.as_slice()[..count])
            .map_err(|error| RpcFault::NoMemory(error))?;
        self.take_off(count);
        Ok(())
    }

    // Takes bytes off the front, and notes them.
    fn take_off(&mut self, count: usize)
        requires { count ≤ length self.old.pending.items }
        ensures taken { taken_text self.new.taken.items
            ≡ taken_text self.old.taken.items ++ take count self.old.pending.items }
        ensures pending { self.new.pending.items ≡ drop count self.old.pending.items }
        ensures content { self.new.content ≡ self.old.content }
        ensures stage { self.new.stage ≡ self.old.stage }
    {
        let leading = (0, count);
        self.taken = self.taken.and(&Snapshot::of(&self.pending), &leading);
        self.pending.advance(count);
    }

    /// Hands out the record that is whole. Nothing is copied.
    pub fn hand_out(&mut self) -> Result<Bytes, RpcFault>
        requires cut { IsCut self.old }
        requires whole { self.old.stage ≡ Stage.Inside true 0 }
        ensures cut { IsCut self.new }
        ensures found { IfOk result (λ content. IsRecord (taken_text self.old.taken.items) content
            × (text_of self.new ≡ self.old.pending.items)) }
        ensures err { IfErr result (λ e. (e ≡ RpcFault.NoMemory alloc_error) × (text_of self.new ≡ text_of self.old)) }
    {
        let length = self.content.len();
        let record = self
            .content
            .freeze_to(length)
            .map_err(|error| RpcFault::NoMemory(error))?;
        self.stage = Stage::Fresh;
        self.taken = Log::new();
        Ok(record)
    }
}

// Whether a mark is that of a last fragment, and the length that it announces.
fn announced(mark: &[u8]) -> (bool, usize)
    requires { length mark.now ≡ MARK_BYTES }
    ensures mark { mark.now ≡ mark_of result.0 result.1 }
    ensures bound { result.1 < 2 ^ 31 }
{
    let number = number_of(mark);
    if number < LAST_FRAGMENT {
        (false, number as usize)
    } else {
        (true, (number - LAST_FRAGMENT) as usize)
    }
}

// The number that a mark spells.
#[tactic(auto, unfolding(xdr::specs::Items::word))]
fn number_of(mark: &[u8]) -> u32
    requires { length mark.now ≡ MARK_BYTES }
    ensures { word result ≡ mark.now }
{
    u32::from_be_bytes([mark[0], mark[1], mark[2], mark[3]])
}
