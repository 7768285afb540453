//! Where the logger or the installer sits.
ghost use Rattle.std.specs.Prelude.{◌≡◌, ◌+◌, ◌<◌, length};
ghost use Rattle.wal_calls.specs.Seats.Numbers.{IsTied, due, numbers, upto};

use crate::callers::Caller;
use crate::seats::{HandedOut, Whole};
use disk::{Failed, Port};
use http_server::Log;
use std::sync::ledger::Share;

/// The logger or the installer, with its port; the numbers of its device calls: that of the last one that was handed
/// out; and the share of the ledger of calls that were handed out to the side: the whole share, where who names the
/// ledger says so. Its type keeps that the port is of the side that the ledger counts, that it has made just the calls
/// that were made at this seat, in their order, and that these are those of the numbers from 1 on, up to the one that
/// is out.
pub struct IoSeat<G: Whole, P: Port> {
    pub(crate) caller: Caller,
    pub(crate) calls: Share<G>,
    pub(crate) taken: Log<HandedOut, Result<(), Failed>>,
    pub(crate) number: Log<(), ()>,
    pub(crate) port: P,
    pub ghost backed: { 0 < calls.parts },
    pub ghost whole: { calls.parts ≡ G.all },
    pub ghost numbered: { numbers taken.items ≡ upto (length taken.items) },
    pub ghost count: { calls.amount ≡ length taken.items + due caller.io caller.made },
    pub ghost last: { length number.items ≡ calls.amount },
    pub ghost side: { P.on port ≡ G.side },
    pub ghost tied: { IsTied (P.calls port) taken.items },
}

impl<G: Whole, P: Port> IoSeat<G, P> {
    ghost use Rattle.std.specs.Prelude.{◌≡◌, ◌<◌, None, []};

    /// Where no call was made yet, with a port of its side, of which none was made either.
    pub fn new(calls: Share<G>, port: P) -> IoSeat<G, P>
        requires share { (calls.parts ≡ G.all) × (0 < calls.parts) × (calls.amount ≡ 0) }
        requires port { (P.on port ≡ G.side) × (P.calls port ≡ []) }
        ensures idle { (result.caller.io ≡ None) × (result.caller.made ≡ None) × (result.taken.items ≡ []) }
        ensures port { result.port ≡ port }
    {
        IoSeat {
            caller: Caller::new(),
            calls,
            taken: Log::new(),
            number: Log::new(),
            port,
        }
    }
}
