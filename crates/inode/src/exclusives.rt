//! The addresses of the objects that were asked for alone.
ghost use Rattle.std.specs.Prelude.{◌≡◌, ◌<◌, vec_len, vec_capacity};
ghost use Rattle.inode.specs.Snap.{is_among, with_mode};

use crate::lookup::same_addr;
use objects::{Addr, Mode};

/// Whether an address is among these.
pub(crate) fn is_among(addr: Addr, addrs: &[Addr]) -> bool
    ensures { result ≡ is_among addr addrs.now }
{
    addrs.iter().any(|other| same_addr(addr, *other))
}

/// Notes that an object was asked for in a mode, for which there is room.
pub(crate) fn track(exclusives: &mut Vec<Addr>, addr: Addr, mode: Mode)
    requires { vec_len exclusives.old < vec_capacity exclusives.old }
    ensures { exclusives.new.items ≡ with_mode addr mode exclusives.old.items }
{
    if mode == Mode::Shared {
        return;
    }
    match exclusives.push(addr) {
        Ok(()) => {}
        Err(_) => unreachable!(),
    }
}
