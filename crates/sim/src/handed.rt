//! A message that was handed to a worker.

/// A message that was handed to a worker: the index of its event, and its number.
#[derive(Clone, Copy, Debug, PartialEq, Eq)]
pub struct Handed {
    pub event: usize,
    pub worker: usize,
    pub xid: u32,
}
