//! The bytes of answers that wait to be written to one connection.

use crate::answers::{Put, ReplyBytes};
use http_server::Log;
use std::alloc::Global;
use std::marker::Model;
use std::sync::ledger::Ledger;

/// The bytes of answers to the connection of this key and number, as they were left one behind another. Its type keeps
/// that it has the bytes of answers alone, each of them an `Answer` to this connection, by what was committed to one core.
#[derive(Drop)]
pub struct Backlog<L: Ledger> {
    key: usize,
    number: u64,
    bytes: Vec<u8>,
    pieces: Log<ReplyBytes<L>, ()>,
}

impl<L: Ledger> Model for Backlog<L> {
    ghost use Rattle.std.specs.Prelude.{flat_map};
    ghost use Rattle.std.specs.Vec.{vec_capacity};
    ghost use Rattle.pool_requests.specs.Answers.Written.{IsWritten, Queued};

    ghost Value = { Queued };

    ghost view = { λ b. record {
      key = b.key;
      number = b.number;
      bytes = b.bytes.items;
      answers = flat_map (λ one. one.0.answers) b.pieces.items;
      buffer_capacity = vec_capacity b.bytes;
    } };

    ghost invariant = { λ b. IsWritten b.key b.number b.bytes.items (flat_map (λ one. one.0.answers) b.pieces.items) };
}

impl<L: Ledger> Backlog<L> {
    ghost use Rattle.std.specs.Prelude.{◌≡◌, ◌+◌, ◌<◌, ◌↔◌, ◌⊎◌, IsTrue, length};
    ghost use Rattle.pool_requests.specs.Answers.Written.{AreForOne, IsWritten, none_of, nothing_for, with_more};
    ghost use Rattle.pool_requests.specs.declared.answers.reply_bytes.Put.TheVariants as puts;

    /// Nothing, for the connection of this key and number.
    pub fn new(alloc: Global, key: usize, number: u64) -> Backlog<L>
        ensures { result ≡ nothing_for key number result.buffer_capacity }
    {
        Backlog {
            key,
            number,
            bytes: Vec::new(alloc),
            pieces: Log::new(),
        }
    }

    /// Nothing, in a buffer that is used again, for the connection of this key and number.
    pub fn emptied(self, key: usize, number: u64) -> Backlog<L>
        ensures { result ≡ nothing_for key number result.buffer_capacity }
    {
        let mut bytes = self.bytes;
        bytes.clear();
        Backlog {
            key,
            number,
            bytes,
            pieces: Log::new(),
        }
    }

    /// How many bytes there are.
    pub fn len(&self) -> usize
        ensures { result ≡ length self.now.bytes }
    {
        self.bytes.len()
    }

    /// The bytes.
    pub fn as_slice(&self) -> &[u8]
        ensures { result.now ≡ self.now.bytes }
    {
        self.bytes.as_slice()
    }

    /// The key and the number of its connection.
    pub fn goes_to(&self) -> (usize, u64)
        ensures { result ≡ (self.now.key, self.now.number) }
    {
        (self.key, self.number)
    }

    /// Whether these are for its connection.
    pub fn is_for(&self, replies: &ReplyBytes<L>) -> bool
        ensures { IsTrue result ↔ AreForOne replies.now self.now }
    {
        let (key, number) = replies.goes_to();
        key == self.key && number == self.number
    }

    /// Puts the bytes of further answers to the same connection behind these: all of them, which are used up for it; or
    /// none, where they are for another, or memory is refused, which is never so while the buffer has room for them.
    #[tactic(auto, using(crate::proofs::AnswersLemmas::Puts::one_piece))]
    pub fn put(&mut self, replies: &mut ReplyBytes<L>) -> Put
        ensures done { result ≡ puts.Done → AreForOne replies.old self.old
            × (self.new ≡ with_more replies.old self.new.buffer_capacity self.old) }
        ensures used { result ≡ puts.Done → replies.new ≡ none_of replies.old }
        ensures another { result ≡ puts.Another → (AreForOne replies.old self.old → ⊥) × (self.new ≡ self.old) }
        ensures refused { result ≡ puts.Refused → (self.new ≡ record self.old { buffer_capacity = self.new.buffer_capacity })
            × (self.old.buffer_capacity < length self.old.bytes + length replies.old.bytes) }
        ensures is_preserved { (result ≡ puts.Another) ⊎ (result ≡ puts.Refused) → replies.new ≡ replies.old }
    {
        if !self.is_for(replies) {
            return Put::Another;
        }
        replies.written();
        if self.bytes.extend_from_slice(replies.as_slice()).is_err() {
            return Put::Refused;
        }
        self.pieces = self.pieces.and(&*replies, &());
        replies.empty_out();
        Put::Done
    }

    /// Lets go of all.
    pub fn empty_out(&mut self)
        ensures { self.new ≡ nothing_for self.old.key self.old.number self.new.buffer_capacity }
    {
        self.bytes.clear();
        self.pieces = Log::new();
    }

    /// They are what answers to this connection spell.
    pub fn written(&self)
        ensures { IsWritten self.now.key self.now.number self.now.bytes self.now.answers }
    {
        let _ = &self.bytes;
    }
}
