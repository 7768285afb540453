//! Replies that wait to be written to a connection.
ghost use Rattle.std.specs.Prelude.{◌≡◌, ◌≢◌, ◌+◌, ◌<◌, ◌↔◌, [], true, false, IfSome, IfNone, OnOk, length, IsTrue};
ghost use Rattle.std.specs.Io.KnownBytes.{Appends};
ghost use Rattle.pool_requests.specs.Answers.Written.{AreForOne, none_of, nothing_for, with_more};
ghost use Rattle.pool_requests.specs.declared.answers.reply_bytes.Put.TheVariants as puts;

use pool_requests::{Backlog, Put, ReplyBytes};
use std::alloc::Global;
use std::io::Write;
use std::marker::Model;
use std::mem;
use std::sync::ledger::Ledger;

/// The permit to write to a connection. One is made, with the connection, and can't be copied: who has it is the thread that
/// writes. A write uses it up, and what came of the write gives it back.
#[derive(Drop)]
pub struct Permit {
    seal: (),
}

/// A write that took all bytes. Nothing else makes one.
#[derive(Drop)]
pub struct Written {
    permit: Permit,
}

/// A write that failed: it may have taken some bytes.
#[derive(Drop)]
pub struct Unwritten {
    permit: Permit,
}

impl Permit {
    /// Writes bytes to a stream.
    pub fn write<W: Write>(self, stream: &mut W, bytes: &[u8]) -> Result<Written, Unwritten>
        ensures { OnOk result (Appends (W.contents stream.old) (W.contents stream.new) bytes.now) }
    {
        match stream.write_all(bytes) {
            Ok(()) => Ok(Written { permit: self }),
            Err(_) => Err(Unwritten { permit: self }),
        }
    }
}

/// The replies of a connection that wait to be written, in the order in which they were put, and the permit to write, where
/// no thread has it. The thread that writes goes on until nothing waits.
#[derive(Drop)]
pub struct Replies<L: Ledger> {
    pending: Backlog<L>,
    permit: Option<Permit>,
}

impl<L: Ledger> Model for Replies<L> {
    ghost use Rattle.server_connection.specs.Outbox.{Replies, is_away};

    ghost Value = { Replies };

    ghost view = { λ r. record { pending = r.pending; writing = is_away r.permit } };
}

impl<L: Ledger> Replies<L> {
    /// Nothing waits for the connection of this key and number, and no thread writes.
    pub fn new(alloc: Global, key: usize, number: u64) -> Replies<L>
        ensures pending { result.pending ≡ nothing_for key number result.pending.buffer_capacity }
        ensures writing { result.writing ≡ false }
    {
        Replies {
            pending: Backlog::new(alloc, key, number),
            permit: Some(Permit { seal: () }),
        }
    }

    /// How many bytes wait.
    pub fn waiting(&self) -> usize
        ensures { result ≡ length self.now.pending.bytes }
    {
        self.pending.len()
    }

    /// Whether a thread writes.
    pub fn is_writing(&self) -> bool
        ensures { result ≡ self.now.writing }
    {
        self.permit.is_none()
    }

    /// Whether these are for the connection.
    pub fn are_for(&self, replies: &ReplyBytes<L>) -> bool
        ensures { IsTrue result ↔ AreForOne replies.now self.now.pending }
    {
        self.pending.is_for(replies)
    }

    /// Puts replies behind those that wait: all of them, which are used up for it; or none, where they are for another
    /// connection, or memory is refused, which is never so while the buffer has room for them.
    pub fn put(&mut self, replies: &mut ReplyBytes<L>) -> Put
        ensures done { result ≡ puts.Done → AreForOne replies.old self.old.pending
            × (self.new.pending ≡ with_more replies.old self.new.pending.buffer_capacity self.old.pending) }
        ensures used { result ≡ puts.Done → replies.new ≡ none_of replies.old }
        ensures another { result ≡ puts.Another → (AreForOne replies.old self.old.pending → ⊥)
            × (self.new.pending ≡ self.old.pending) }
        ensures refused { result ≡ puts.Refused
            → (self.new.pending ≡ record self.old.pending { buffer_capacity = self.new.pending.buffer_capacity })
            × (self.old.pending.buffer_capacity < length self.old.pending.bytes + length replies.old.bytes) }
        ensures writing { self.new.writing ≡ self.old.writing }
    {
        self.pending.put(replies)
    }

    /// Makes the calling thread the one that writes, where nothing waits and no other thread writes: what it
    /// writes next comes behind all that was put.
    pub fn begin(&mut self) -> Option<Permit>
        ensures begun { IfSome result (λ _. (self.old.pending.bytes ≡ []) × (self.old.writing ≡ false)
            × (self.new.writing ≡ true)) }
        ensures none { IfNone result ((self.old.pending.bytes ≡ [] → self.old.writing ≡ true)
            × (self.new.writing ≡ self.old.writing)) }
        ensures pending { self.new.pending ≡ self.old.pending }
    {
        if self.pending.len() != 0 {
            return None;
        }
        self.permit.take()
    }

    /// Makes the calling thread the one that writes, where no other does, and hands it all that waits, for a buffer that is
    /// used again. None where another writes, or nothing waits.
    pub fn start(&mut self, used: Backlog<L>) -> Option<(Permit, Backlog<L>)>
        ensures taken { IfSome result (λ taken. (self.old.writing ≡ false) × (taken.1 ≡ self.old.pending)
            × (taken.1.bytes ≢ [])
            × (self.new.pending ≡ nothing_for self.old.pending.key self.old.pending.number self.new.pending.buffer_capacity)
            × (self.new.writing ≡ true)) }
        ensures nothing { IfNone result ((self.old.writing ≡ false → self.old.pending.bytes ≡ [])
            × (self.new ≡ self.old)) }
    {
        let permit = self.permit.take()?;
        self.take(permit, used)
    }

    /// Hands the thread that writes all that waits, when its last write took all bytes or failed, for a buffer that is used
    /// again. Where nothing waits, no thread writes any more.
    pub fn go_on(
        &mut self,
        wrote: Result<Written, Unwritten>,
        used: Backlog<L>,
    ) -> Option<(Permit, Backlog<L>)>
        ensures taken { IfSome result (λ taken. (taken.1 ≡ self.old.pending) × (taken.1.bytes ≢ [])
            × (self.new.pending ≡ nothing_for self.old.pending.key self.old.pending.number self.new.pending.buffer_capacity)
            × (self.new.writing ≡ true)) }
        ensures nothing { IfNone result ((self.old.pending.bytes ≡ []) × (self.new.pending ≡ self.old.pending)
            × (self.new.writing ≡ false)) }
    {
        match wrote {
            Ok(Written { permit }) => self.take(permit, used),
            Err(Unwritten { permit }) => self.take(permit, used),
        }
    }

    // Hands the thread of this permit all that waits, or takes its permit back.
    fn take(&mut self, permit: Permit, used: Backlog<L>) -> Option<(Permit, Backlog<L>)>
        ensures taken { IfSome result (λ taken. (taken.1 ≡ self.old.pending) × (taken.1.bytes ≢ [])
            × (self.new.pending ≡ nothing_for self.old.pending.key self.old.pending.number self.new.pending.buffer_capacity)
            × (self.new.writing ≡ true)) }
        ensures nothing { IfNone result ((self.old.pending.bytes ≡ []) × (self.new.pending ≡ self.old.pending)
            × (self.new.writing ≡ false)) }
    {
        if self.pending.len() == 0 {
            self.permit = Some(permit);
            return None;
        }
        let (key, number) = self.pending.goes_to();
        let empty = used.emptied(key, number);
        self.permit = None;
        Some((permit, mem::replace(&mut self.pending, empty)))
    }

    /// Lets go all that waits.
    pub fn forget(&mut self)
        ensures pending { self.new.pending ≡ nothing_for self.old.pending.key self.old.pending.number self.new.pending.buffer_capacity }
        ensures writing { self.new.writing ≡ self.old.writing }
    {
        self.pending.empty_out();
    }
}
