//! Seats, each reached by its key alone.
ghost use Rattle.std.specs.Prelude.{◌≡◌, length, option_copied};
ghost use Rattle.std.specs.List.{slice_get};

use crate::SeatKey;
use std::sync::Mutex;

/// Seats in the order of their numbers. Who has a key gets at its seat, and at no other.
pub struct Seats<T> {
    seats: Vec<Mutex<T>>,
}

impl<T> Seats<T> {
    /// These seats.
    pub fn new(seats: Vec<Mutex<T>>) -> Seats<T>
        ensures { result.seats ≡ seats }
    {
        Seats { seats }
    }

    /// How many there are.
    pub fn len(&self) -> usize
        ensures { result ≡ length self.now.seats.items }
    {
        self.seats.len()
    }

    /// The seat of a key, if there is one.
    pub fn at(&self, key: &SeatKey) -> Option<&Mutex<T>>
        ensures { option_copied result ≡ slice_get self.now.seats.items key.now.number }
    {
        self.seats.as_slice().get(key.number())
    }

    /// The seats again.
    pub fn into_all(self) -> Vec<Mutex<T>>
        ensures { result ≡ self.seats }
    {
        let Seats { seats } = self;
        seats
    }
}
