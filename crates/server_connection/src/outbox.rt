//! What a connection still has to be sent: the bytes of answers to it, and of nothing else.
ghost use Rattle.std.specs.Prelude.{◌≡◌, ◌≢◌, ◌↔◌, ◌⊎◌, ◌+◌, ◌-◌, ◌^◌, ◌<◌, ◌≤◌, ◌||◌, [], true, false, not, max, min, IsTrue, IfSome, IfNone, length};

use crate::{Permit, Replies, Unwritten, Written};
use pool_requests::{Backlog, Put, ReplyBytes};
use server_sync::Silence;
use std::alloc::Global;
use std::marker::Model;
use std::sync::ledger::Ledger;

/// What becomes of replies that a thread would write.
#[derive(Drop)]
pub enum Offer {
    /// That thread writes them, as it has the permit: nothing waits, and no other thread writes.
    Write(Permit),
    /// They were left behind all that waits, where memory wasn't refused for them.
    Left,
    /// They were let go: no more is written, or they are for another connection.
    Shut,
}

/// The replies of a connection that wait to be written, what its end waits for besides, and how long it has been silent.
/// Its type keeps that none waits once no more is written.
#[derive(Drop)]
pub struct Outbox<L: Ledger> {
    replies: Replies<L>,
    // How many calls were handed on and are neither answered nor let go.
    due: u64,
    // Whether no more is written, since a write failed or memory was refused.
    shut: bool,
    // Whether no call comes any more.
    ended: bool,
    silence: Silence,
}

impl<L: Ledger> Model for Outbox<L> {
    ghost use Rattle.std.specs.Prelude.{◌≡◌, [], true};
    ghost use Rattle.server_connection.specs.Outbox.{Outbox};

    ghost Value = { Outbox };

    ghost view = { λ o. record {
      replies = o.replies;
      due = o.due;
      shut = o.shut;
      ended = o.ended;
      silence = o.silence;
    } };

    ghost invariant = { λ o. o.shut ≡ true → o.replies.pending.bytes ≡ [] };
}

impl<L: Ledger> Outbox<L> {
    ghost use Rattle.pool_requests.specs.Answers.Written.{AreForOne, none_of, nothing_for};
    ghost use Rattle.server_connection.specs.Outbox.{Becomes, IsLeft, IsDone, IsForWriter, IsSilent, has_failed};

    /// Nothing waits, of the connection of this key and number, which came at this second.
    pub fn new(alloc: Global, key: usize, number: u64, second: u64) -> Outbox<L>
        ensures pending { result.replies.pending ≡ nothing_for key number result.replies.pending.buffer_capacity }
        ensures writing { result.replies.writing ≡ false }
        ensures due { result.due ≡ 0 }
        ensures goes_on { (result.shut ≡ false) × (result.ended ≡ false) }
        ensures silence { result.silence ≡ record { last = second; listens = false } }
    {
        Outbox {
            replies: Replies::new(alloc, key, number),
            due: 0,
            shut: false,
            ended: false,
            silence: Silence::new(second),
        }
    }

    /// Notes that a call is handed on.
    pub fn hand_on(&mut self)
        ensures { self.new ≡ record self.old { due = min (self.old.due + 1) (2 ^ 64 - 1) } }
    {
        self.due = self.due.saturating_add(1);
    }

    /// Takes back that a call was handed on.
    pub fn take_back(&mut self)
        ensures { self.new ≡ record self.old { due = self.old.due - 1 } }
    {
        self.due = self.due.saturating_sub(1);
    }

    /// Puts the reply of a call that was handed on, or shuts where there is none.
    pub fn answer(&mut self, reply: Option<ReplyBytes<L>>)
        ensures due { self.new.due ≡ self.old.due - 1 }
        ensures left { IfSome reply (λ replies. IsLeft self.old replies self.new) }
        ensures none { IfNone reply (self.new.shut ≡ true) }
        ensures writing { self.new.replies.writing ≡ self.old.replies.writing }
        ensures ended { self.new.ended ≡ self.old.ended }
        ensures silence { self.new.silence ≡ self.old.silence }
    {
        self.take_back();
        match reply {
            Some(replies) => {
                let mut replies = replies;
                self.leave(&mut replies);
            }
            None => self.shut(),
        }
    }

    /// Leaves replies behind all that waits, which uses them up, and shuts where they are for another connection, or
    /// memory is refused for them. Once no more is written they are let go.
    pub fn leave(&mut self, replies: &mut ReplyBytes<L>)
        ensures left { IsLeft self.old replies.old self.new }
        ensures used { self.new.shut ≡ false → replies.new ≡ none_of replies.old }
        ensures due { self.new.due ≡ self.old.due }
        ensures ended { self.new.ended ≡ self.old.ended }
        ensures silence { self.new.silence ≡ self.old.silence }
    {
        if !self.shut && self.replies.put(replies) != Put::Done {
            self.shut();
        }
    }

    /// What becomes of replies that a thread would write: where it writes them it is from then on the one that writes.
    pub fn offer(&mut self, replies: &mut ReplyBytes<L>) -> Offer
        ensures becomes { Becomes self.old replies.old result replies.new self.new }
        ensures due { self.new.due ≡ self.old.due }
        ensures ended { self.new.ended ≡ self.old.ended }
        ensures silence { self.new.silence ≡ self.old.silence }
    {
        if self.shut || !self.replies.are_for(replies) {
            return Offer::Shut;
        }
        if let Some(permit) = self.replies.begin() {
            return Offer::Write(permit);
        }
        self.leave(replies);
        Offer::Left
    }

    /// What the thread that writes writes next, when its last write took all bytes or failed: all that waits, in a buffer
    /// that is used again. None where nothing waits: then no thread writes any more.
    pub fn go_on(
        &mut self,
        wrote: Result<Written, Unwritten>,
        used: Backlog<L>,
    ) -> Option<(Permit, Backlog<L>)>
        ensures taken { IfSome result (λ taken. (has_failed wrote ≡ false) × (taken.1 ≡ self.old.replies.pending)
            × (taken.1.bytes ≢ []) × (self.new.replies.pending.bytes ≡ []) × (self.new.replies.writing ≡ true)) }
        ensures nothing { IfNone result ((has_failed wrote ≡ false → self.old.replies.pending.bytes ≡ [])
            × (self.new.replies.pending.bytes ≡ []) × (self.new.replies.writing ≡ false)) }
        ensures shut { self.new.shut ≡ (self.old.shut || has_failed wrote) }
        ensures due { self.new.due ≡ self.old.due }
        ensures ended { self.new.ended ≡ self.old.ended }
        ensures silence { self.new.silence ≡ self.old.silence }
    {
        if wrote.is_err() {
            self.shut();
        }
        self.replies.go_on(wrote, used)
    }

    /// Whether the connection's own writer has something to write that no other thread writes, or nothing more to
    /// wait for.
    pub fn is_for_writer(&self) -> bool
        ensures { IsTrue result ↔ IsForWriter self.now }
    {
        self.ended || self.shut || (!self.replies.is_writing() && self.replies.waiting() != 0)
    }

    /// Whether the connection's own writer has to wait.
    pub fn holds_writer_waiting(&self) -> bool
        ensures goes { result ≡ false → IsForWriter self.now }
        ensures waits { result ≡ true → IsForWriter self.now → ⊥ }
    {
        !self.is_for_writer()
    }

    /// Makes the connection's own writer the thread that writes, and hands it all that waits. None where it has
    /// nothing more to wait for.
    pub fn begin(&mut self, used: Backlog<L>) -> Option<(Permit, Backlog<L>)>
        requires { IsForWriter self.old }
        ensures taken { IfSome result (λ taken. (taken.1 ≡ self.old.replies.pending) × (taken.1.bytes ≢ [])
            × (self.old.replies.writing ≡ false)
            × (self.new.replies.pending.bytes ≡ []) × (self.new.replies.writing ≡ true)) }
        ensures ends { IfNone result (((self.old.ended ≡ true) ⊎ (self.old.shut ≡ true)) × (self.new ≡ self.old)) }
        ensures shut { self.new.shut ≡ self.old.shut }
        ensures due { self.new.due ≡ self.old.due }
        ensures ended { self.new.ended ≡ self.old.ended }
        ensures silence { self.new.silence ≡ self.old.silence }
    {
        if self.ended || self.shut {
            return None;
        }
        self.replies.start(used)
    }

    /// Whether no more than so many bytes wait, or no more is written.
    pub fn has_send_window(&self, most: usize) -> bool
        ensures { IsTrue result ↔ ((self.now.shut ≡ true) ⊎ (length self.now.replies.pending.bytes ≤ most)) }
    {
        self.shut || self.replies.waiting() <= most
    }

    /// Whether no more is written.
    pub fn is_shut(&self) -> bool
        ensures { result ≡ self.now.shut }
    {
        self.shut
    }

    /// Whether a thread writes.
    pub fn is_writing(&self) -> bool
        ensures { result ≡ self.now.replies.writing }
    {
        self.replies.is_writing()
    }

    /// Whether each call that was handed on is answered, and each reply written; or no more is written.
    pub fn is_done(&self) -> bool
        ensures { IsTrue result ↔ IsDone self.now }
    {
        self.shut || (self.due == 0 && self.replies.waiting() == 0 && !self.replies.is_writing())
    }

    /// Notes that no call comes any more.
    pub fn end(&mut self)
        requires { IsDone self.old }
        ensures { self.new ≡ record self.old { ended = true } }
    {
        self.ended = true;
    }

    /// Lets go all that waits, and writes no more.
    pub fn shut(&mut self)
        ensures shut { self.new.shut ≡ true }
        ensures pending { self.new.replies.pending.bytes ≡ [] }
        ensures writing { self.new.replies.writing ≡ self.old.replies.writing }
        ensures due { self.new.due ≡ self.old.due }
        ensures ended { self.new.ended ≡ self.old.ended }
        ensures silence { self.new.silence ≡ self.old.silence }
    {
        self.shut = true;
        self.replies.forget();
    }

    /// Notes that the connection's thread waits for bytes.
    pub fn listen(&mut self)
        ensures { self.new ≡ record self.old { silence = record self.old.silence { listens = true } } }
    {
        self.silence.listen();
    }

    /// Notes that bytes came at this second, or that none are waited for any more.
    pub fn hear(&mut self, second: u64)
        ensures { self.new ≡ record self.old {
          silence = record {
            last = max self.old.silence.last second;
            listens = false;
          };
        } }
    {
        self.silence.hear(second);
    }

    /// Notes that replies were written at this second.
    pub fn tell(&mut self, second: u64)
        ensures { self.new ≡ record self.old {
          silence = record self.old.silence {
            last = max self.old.silence.last second;
          };
        } }
    {
        self.silence.tell(second);
    }

    /// For how many seconds the connection has been silent: its thread waits for bytes, each call is answered and each
    /// reply written, and more can be.
    pub fn silent(&self, second: u64) -> Option<u64>
        ensures since { IfSome result (λ seconds. IsSilent self.now × (seconds ≡ second - self.now.silence.last)) }
        ensures none { IfNone result (IsSilent self.now → ⊥) }
    {
        if self.shut || !self.is_done() {
            return None;
        }
        self.silence.lasts(second)
    }

    /// Ends a connection that has been silent for more than so many seconds, so that another can have its place: no
    /// more is written, and no call comes. Whether it has been; else nothing changes.
    pub fn close_if_idle(&mut self, second: u64, most: u64) -> bool
        ensures given { (result ≡ true) ↔ (IsSilent self.old × (most < second - self.old.silence.last)) }
        ensures ends { result ≡ true → (self.new.shut ≡ true) × (self.new.ended ≡ true)
            × (self.new.replies.pending.bytes ≡ []) × (self.new.replies.writing ≡ false) }
        ensures stays { result ≡ false → self.new ≡ self.old }
    {
        match self.silent(second) {
            Some(seconds) if seconds > most => {
                self.shut();
                self.end();
                true
            }
            _ => false,
        }
    }
}
