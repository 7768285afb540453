//! What shows that a change was committed.
ghost use Rattle.std.specs.Prelude.{◌≡◌};

use std::marker::Model;
use wal::Seq;

/// Shows that a change was committed, and at which place, and has the change with what it answers. Only a commit makes
/// one. A clause sees the place and the change.
#[derive(Drop)]
pub struct Receipt<C> {
    place: Seq,
    change: C,
}

impl<C> Model for Receipt<C> {
    ghost use Rattle.txn.specs.Receipts.{Given};

    ghost Value = { Given C };

    ghost view = { λ r. record { place = r.place; change = r.change } };
}

impl<C> Receipt<C> {
    /// Of a change that took this place.
    pub(crate) fn of(place: Seq, change: C) -> Receipt<C>
        ensures { result ≡ record { place = place; change = change } }
    {
        Receipt { place, change }
    }

    /// The place that the change took.
    pub fn place(&self) -> Seq
        ensures { result ≡ self.now.place }
    {
        self.place
    }

    /// The change.
    pub fn change(&self) -> &C
        ensures { result.now ≡ self.now.change }
    {
        &self.change
    }

    /// The change, by itself.
    pub fn into_change(self) -> C
        ensures { result ≡ self.change }
    {
        self.change
    }
}
