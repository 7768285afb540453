//! The bytes of answers to one connection.
ghost use Rattle.std.specs.Prelude.{◌≡◌};

use crate::answers::Answer;
use http_server::Log;
use std::alloc::Global;
use std::marker::Model;
use std::sync::ledger::Ledger;

/// What answers to the connection of this key and number spell, in their order. Its type keeps that it has the bytes of
/// answers alone, each of them an `Answer` to this connection, by what was committed to one core.
#[derive(Drop)]
pub struct ReplyBytes<L: Ledger> {
    key: usize,
    number: u64,
    bytes: Vec<u8>,
    answers: Log<Answer<L>, ()>,
}

impl<L: Ledger> Model for ReplyBytes<L> {
    ghost use Rattle.std.specs.Prelude.{map};
    ghost use Rattle.pool_requests.specs.Answers.Written.{IsWritten, Written};

    ghost Value = { Written };

    ghost view = { λ r. record {
      key = r.key;
      number = r.number;
      bytes = r.bytes.items;
      answers = map (λ one. one.0) r.answers.items;
    } };

    ghost invariant = { λ r. IsWritten r.key r.number r.bytes.items (map (λ one. one.0) r.answers.items) };
}

/// What came of putting an answer.
#[derive(Clone, Copy, Debug, PartialEq, Eq)]
pub enum Put {
    Done,
    /// It is for another connection.
    Another,
    /// Memory was refused, or the answer is too long for a record.
    Refused,
}

impl<L: Ledger> ReplyBytes<L> {
    ghost use Rattle.std.specs.Prelude.{◌≡◌, ◌++◌, ◌∷◌, ◌⊎◌, [], length};
    ghost use Rattle.pool_requests.specs.Answers.Written.{IsFor, IsWritten, none_of, spelled};
    ghost use Rattle.pool_requests.specs.declared.answers.reply_bytes.Put.TheVariants as puts;

    /// Nothing yet.
    pub fn new(alloc: Global, key: usize, number: u64) -> ReplyBytes<L>
        ensures { result ≡ record { key = key; number = number; bytes = []; answers = [] } }
    {
        ReplyBytes {
            key,
            number,
            bytes: Vec::new(alloc),
            answers: Log::new(),
        }
    }

    /// The key and the number of the connection.
    pub fn goes_to(&self) -> (usize, u64)
        ensures { result ≡ (self.now.key, self.now.number) }
    {
        (self.key, self.number)
    }

    /// How many bytes there are.
    pub fn len(&self) -> usize
        ensures { result ≡ length self.now.bytes }
    {
        self.bytes.len()
    }

    /// The bytes.
    pub fn as_slice(&self) -> &[u8]
        ensures { result.now ≡ self.now.bytes }
    {
        self.bytes.as_slice()
    }

    /// Puts an answer behind the others, where it is for this connection. Else nothing changes.
    pub fn put(&mut self, alloc: Global, answer: Answer<L>) -> Put
        ensures done { result ≡ puts.Done → IsFor self.old.key self.old.number answer × (self.new ≡ record self.old {
          bytes = self.old.bytes ++ spelled answer;
          answers = self.old.answers ++ answer ∷ [];
        }) }
        ensures another { result ≡ puts.Another → (IsFor self.old.key self.old.number answer → ⊥) }
        ensures is_preserved { (result ≡ puts.Another) ⊎ (result ≡ puts.Refused) → self.new ≡ self.old }
    {
        let put = self.put_one(alloc, &answer);
        drop(answer);
        put
    }

    // The same of an answer that the caller lets go of.
    #[tactic(auto, using(crate::proofs::AnswersLemmas::Puts::one_more))]
    fn put_one(&mut self, alloc: Global, answer: &Answer<L>) -> Put
        ensures done { result ≡ puts.Done → IsFor self.old.key self.old.number answer.now × (self.new ≡ record self.old {
          bytes = self.old.bytes ++ spelled answer.now;
          answers = self.old.answers ++ answer.now ∷ [];
        }) }
        ensures another { result ≡ puts.Another → (IsFor self.old.key self.old.number answer.now → ⊥) }
        ensures is_preserved { (result ≡ puts.Another) ⊎ (result ≡ puts.Refused) → self.new ≡ self.old }
    {
        let (key, number) = answer.goes_to();
        if key != self.key || number != self.number {
            return Put::Another;
        }
        match answer.append_to(alloc, &mut self.bytes) {
            Ok(()) => {
                self.answers = self.answers.and(answer, &());
                Put::Done
            }
            Err(_) => Put::Refused,
        }
    }

    /// Lets go of all.
    pub fn empty_out(&mut self)
        ensures { self.new ≡ none_of self.old }
    {
        self.bytes.clear();
        self.answers = Log::new();
    }

    /// They are what answers to this connection spell.
    pub fn written(&self)
        ensures { IsWritten self.now.key self.now.number self.now.bytes self.now.answers }
    {
        let _ = &self.bytes;
    }
}
