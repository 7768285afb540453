//! How far the record that comes next has come.

/// How far the record that comes next has come.
#[derive(Clone, Copy)]
pub enum Stage {
    /// Nothing of it has come.
    Fresh,
    /// Whole fragments of it have come, and none of them is its last.
    Between,
    /// A mark has come: whether its fragment is the last, and how many of its bytes are still to come.
    Inside { last: bool, left: usize },
}

/// What came of the bytes that are there.
#[derive(Clone, Copy)]
pub enum Advance {
    /// More bytes have to come.
    Waits,
    /// A fragment is whole, and it isn't the last.
    GoesOn,
    /// The record is whole.
    Whole,
}
