//! What lock requests take.
ghost use Rattle.std.specs.Prelude.{◌≡◌};
ghost use Rattle.txn_law.specs.Holds.{for_reading, for_fetching, for_writing};

use objects::{Addr, Mode};
use txn_law::Hold;

/// What a lock request to read an object takes.
pub fn for_reading(transaction: u64, addr: Addr, mode: Mode) -> Hold
    ensures { result ≡ for_reading transaction addr mode }
{
    Hold {
        transaction,
        addr,
        mode,
        is_read: true,
        is_claimed: false,
    }
}

/// What a lock request takes whose object's block is still to be fetched.
pub fn for_fetching(transaction: u64, addr: Addr, mode: Mode) -> Hold
    ensures { result ≡ for_fetching transaction addr mode }
{
    Hold {
        is_read: false,
        ..for_reading(transaction, addr, mode)
    }
}

/// What a lock request to write a whole block takes.
pub fn for_writing(transaction: u64, addr: Addr) -> Hold
    ensures { result ≡ for_writing transaction addr }
{
    Hold {
        transaction,
        addr,
        mode: Mode::Exclusive,
        is_read: false,
        is_claimed: true,
    }
}
