//! Seats whose changes wait to be settled.
ghost use Rattle.std.specs.Prelude.{◌≡◌, ◌↔◌, ◌⊎◌, ◌<◌, ◌≤◌, ◌++◌, ◌∷◌, [], length, true, false, max, IsTrue, OnOk, IfOk, IfErr, IfSome, IfNone};
ghost use Rattle.std.specs.Vec.{vec_capacity};
ghost use Rattle.server_sync.specs.SeatAwaitingLog.{AllWait, IsFirstSettled};
ghost use Rattle.server_sync.specs.declared.free_keys.SeatKey.{SeatKey};

use crate::SeatKey;
use std::alloc::{AllocError, Global};

/// A seat that waits until a place is settled.
#[derive(Debug, Drop)]
pub struct SeatAwaitingLog {
    pub place: u64,
    pub seat: SeatKey,
}

/// What the thread does next that answers settled changes.
#[derive(Debug, Drop)]
pub enum Next {
    /// It answers the change of this seat, which waits for the log no more.
    Answer(SeatKey),
    /// It waits: of no seat that waits for the log the place is settled.
    Wait,
    /// It ends, since besides no seat will wait for the log any more.
    End,
}

/// The place up to which all is settled, as far as was told, and the seats that wait for one behind it, in the
/// order in which they came.
#[derive(Drop)]
pub struct Waiting {
    settled: u64,
    awaiting_log: Vec<SeatAwaitingLog>,
    // Whether no seat will wait for the log any more.
    ended: bool,
}

impl Waiting {
    /// No seat waits, and there is room for so many.
    pub fn new(alloc: Global, settled: u64, seats: usize) -> Result<Waiting, AllocError>
        ensures settled { IfOk result (λ waiting. waiting.settled ≡ settled) }
        ensures awaiting_log { IfOk result (λ waiting. waiting.awaiting_log.items ≡ []) }
        ensures ended { IfOk result (λ waiting. waiting.ended ≡ false) }
        ensures has_space { IfOk result (λ waiting. seats ≤ vec_capacity waiting.awaiting_log) }
    {
        Ok(Waiting {
            settled,
            awaiting_log: Vec::with_capacity(alloc, seats)?,
            ended: false,
        })
    }

    /// Whether no seat waits for the log.
    pub fn is_empty(&self) -> bool
        ensures { IsTrue result ↔ (self.now.awaiting_log.items ≡ []) }
    {
        self.awaiting_log.is_empty()
    }

    /// Parks a seat. Its key comes back where the seat goes on at once: where its place is settled, or memory is refused
    /// for it.
    pub fn await_log(&mut self, awaiting_log: SeatAwaitingLog) -> Result<(), SeatKey>
        ensures settled { self.new.settled ≡ self.old.settled }
        ensures awaits { OnOk result ((self.old.settled < awaiting_log.place)
            × (self.new.awaiting_log.items ≡ self.old.awaiting_log.items ++ awaiting_log ∷ [])) }
        ensures goes_on { IfErr result (λ key. (key ≡ awaiting_log.seat) × (self.new.awaiting_log.items ≡ self.old.awaiting_log.items)
            × ((awaiting_log.place ≤ self.old.settled) ⊎ (vec_capacity self.old.awaiting_log ≤ length self.old.awaiting_log.items))) }
        ensures ended { self.new.ended ≡ self.old.ended }
        ensures has_space { vec_capacity self.old.awaiting_log ≤ vec_capacity self.new.awaiting_log }
    {
        if awaiting_log.place <= self.settled {
            return Err(awaiting_log.seat);
        }
        match self.awaiting_log.push(awaiting_log) {
            Ok(()) => Ok(()),
            Err(failed) => Err(failed.value.seat),
        }
    }

    /// Tells up to which place all is settled. What was told before stays told.
    pub fn advance_settled(&mut self, settled: u64)
        ensures { self.new ≡ record self.old { settled = max self.old.settled settled } }
    {
        self.settled = self.settled.max(settled);
    }

    /// Tells that no seat will wait for the log any more.
    pub fn end(&mut self)
        ensures { self.new ≡ record self.old { ended = true } }
    {
        self.ended = true;
    }

    /// Takes out the first seat whose place is settled, if one is. Each other stays.
    pub fn take(&mut self) -> Option<SeatKey>
        ensures settled { self.new.settled ≡ self.old.settled }
        ensures ended { self.new.ended ≡ self.old.ended }
        ensures has_space { vec_capacity self.old.awaiting_log ≤ vec_capacity self.new.awaiting_log }
        ensures taken { IfSome result (λ seat. IsFirstSettled self.old.settled self.old.awaiting_log.items seat self.new.awaiting_log.items) }
        ensures none { IfNone result (AllWait self.old.settled self.old.awaiting_log.items) }
        ensures is_preserved { IfNone result (self.new.awaiting_log ≡ self.old.awaiting_log) }
    {
        for at in 0..self.awaiting_log.len() {
            if self.awaiting_log[at].place <= self.settled {
                let taken = self.awaiting_log.remove(at);
                return Some(taken.seat);
            }
        }
        None
    }

    /// What comes next: the seat that is taken out is answered, and the end comes only once none is left to answer.
    pub fn next(&mut self) -> Next
        ensures answers { (seat : SeatKey) → result ≡ Next.Answer seat
            → IsFirstSettled self.old.settled self.old.awaiting_log.items seat self.new.awaiting_log.items }
        ensures waits { result ≡ Next.Wait → (self.old.ended ≡ false)
            × AllWait self.old.settled self.old.awaiting_log.items × (self.new.awaiting_log ≡ self.old.awaiting_log) }
        ensures ends { result ≡ Next.End → (self.old.ended ≡ true)
            × AllWait self.old.settled self.old.awaiting_log.items × (self.new.awaiting_log ≡ self.old.awaiting_log) }
        ensures settled { self.new.settled ≡ self.old.settled }
        ensures ended { self.new.ended ≡ self.old.ended }
        ensures has_space { vec_capacity self.old.awaiting_log ≤ vec_capacity self.new.awaiting_log }
    {
        match self.take() {
            Some(key) => Next::Answer(key),
            None if self.ended => Next::End,
            None => Next::Wait,
        }
    }
}
