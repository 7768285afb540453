//! The moments of calls.
ghost use Rattle.std.specs.Prelude.{◌≡◌, ◌+◌, ◌*◌, ◌^◌, ◌<◌, ◌≤◌, ◌≢◌, ◌↔◌, Some, IfSome, IfNone, IsTrue};
ghost use Rattle.std.specs.Duration.{as_nanos};
ghost use Rattle.base.specs.declared.TheConstants.{NANOSECONDS};
ghost use Rattle.server_sync.specs.Moments.{IsPast, greatest, since_1970};

use base::NANOSECONDS;
use nfs_types::Moment;
use std::time::Duration;

/// The moments that calls are given: each is later than the one before it, so that no two changes bear the same
/// time. The greatest moment alone is given again.
#[derive(Clone, Copy, Debug)]
pub struct Moments {
    last: Moment,
    pub ghost whole: { last.nanoseconds < NANOSECONDS },
}

impl Moments {
    /// None was given yet: the first is later than 1970's begin.
    pub fn new() -> Moments
        ensures { since_1970 result.last ≡ 0 }
    {
        Moments {
            last: Moment {
                seconds: 0,
                nanoseconds: 0,
            },
        }
    }

    /// The moment of the next call: what the clock tells where that is later than the last moment, and else,
    /// also where the clock can't be read, one nanosecond more than the last.
    pub fn next(&mut self, clock: Option<Moment>) -> Moment
        requires { IfSome clock (λ now. now.nanoseconds < NANOSECONDS) }
        ensures given { result ≡ self.new.last }
        ensures whole { result.nanoseconds < NANOSECONDS }
        ensures clock { IsPast self.old.last clock → clock ≡ Some result }
        ensures behind { (IsPast self.old.last clock → ⊥) → self.old.last ≢ greatest
            → since_1970 result ≡ since_1970 self.old.last + 1 }
        ensures later { self.old.last ≢ greatest → since_1970 self.old.last < since_1970 result }
        ensures never_back { since_1970 self.old.last ≤ since_1970 result }
    {
        self.last = match clock {
            Some(now) if is_later(now, self.last) => now,
            _ => after(self.last),
        };
        self.last
    }
}

// Whether a moment is later than another.
fn is_later(moment: Moment, other: Moment) -> bool
    requires { (moment.nanoseconds < NANOSECONDS) × (other.nanoseconds < NANOSECONDS) }
    ensures { IsTrue result ↔ (since_1970 other < since_1970 moment) }
{
    moment.seconds > other.seconds
        || (moment.seconds == other.seconds && moment.nanoseconds > other.nanoseconds)
}

// One nanosecond later, where there is a later moment.
fn after(moment: Moment) -> Moment
    requires { moment.nanoseconds < NANOSECONDS }
    ensures whole { result.nanoseconds < NANOSECONDS }
    ensures later { moment ≢ greatest → since_1970 result ≡ since_1970 moment + 1 }
    ensures last { moment ≡ greatest → result ≡ moment }
{
    if moment.nanoseconds + 1 < NANOSECONDS {
        return Moment {
            seconds: moment.seconds,
            nanoseconds: moment.nanoseconds + 1,
        };
    }
    if moment.seconds == u32::MAX {
        return moment;
    }
    Moment {
        seconds: moment.seconds + 1,
        nanoseconds: 0,
    }
}

/// The moment that is this long after 1970's begin, where seconds of 32 bits tell it.
pub fn moment_of(time: Duration) -> Option<Moment>
    ensures whole { IfSome result (λ moment. moment.nanoseconds < NANOSECONDS) }
    ensures same { IfSome result (λ moment. since_1970 moment ≡ as_nanos time) }
    ensures none { IfNone result (2 ^ 32 * NANOSECONDS ≤ as_nanos time) }
{
    let seconds = u32::try_from(time.as_secs()).ok()?;
    Some(Moment {
        seconds,
        nanoseconds: time.subsec_nanos(),
    })
}
