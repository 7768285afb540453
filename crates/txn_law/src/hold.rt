//! What a transaction has taken.

use objects::{Addr, Mode};

/// An address that a transaction has taken in a mode. It holds the address for reading once it was told its
/// bytes, and, where no other may share it, for writing then or once it claimed it. One whose block is still to
/// be fetched is taken and not held.
#[derive(Clone, Copy, Debug)]
pub struct Hold {
    pub transaction: u64,
    pub addr: Addr,
    pub mode: Mode,
    pub is_read: bool,
    pub is_claimed: bool,
}
