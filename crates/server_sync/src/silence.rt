//! How long a connection has been silent, and which has been longest.
ghost use Rattle.std.specs.Prelude.{◌≡◌, ◌-◌, ◌<◌, ◌≤◌, true, false, max, IfSome, IfNone};

use std::time::Clock;

/// The second of the clock that doesn't go back. One that can't be read stands at its beginning: then no silence is
/// long.
pub fn steady_second<R: Clock>(rt: &R) -> u64 {
    match rt.monotonic() {
        Ok(time) => time.as_secs(),
        Err(_) => 0,
    }
}

/// When something went on with a connection last, in seconds of a clock that doesn't go back, and whether its thread
/// waits for bytes: then it has taken all that came.
#[derive(Clone, Copy, Debug)]
pub struct Silence {
    last: u64,
    listens: bool,
}

impl Silence {
    /// A connection that came at this second, and isn't read yet.
    pub fn new(second: u64) -> Silence
        ensures { result ≡ record { last = second; listens = false } }
    {
        Silence {
            last: second,
            listens: false,
        }
    }

    /// Its thread waits for bytes.
    pub fn listen(&mut self)
        ensures { self.new ≡ record self.old { listens = true } }
    {
        self.listens = true;
    }

    /// Bytes came, or its thread waits for them no more.
    pub fn hear(&mut self, second: u64)
        ensures { self.new ≡ record { last = max self.old.last second; listens = false } }
    {
        self.tell(second);
        self.listens = false;
    }

    /// Replies were written.
    pub fn tell(&mut self, second: u64)
        ensures { self.new ≡ record self.old { last = max self.old.last second } }
    {
        self.last = self.last.max(second);
    }

    /// For how many seconds nothing has gone on, where its thread waits for bytes.
    pub fn lasts(&self, second: u64) -> Option<u64>
        ensures since { IfSome result (λ seconds. (self.now.listens ≡ true)
            × (seconds ≡ second - self.now.last)) }
        ensures none { IfNone result (self.now.listens ≡ false) }
    {
        self.listens.then_some(second.saturating_sub(self.last))
    }
}

/// A connection that is silent, by its key and number, and for how many seconds it has been.
#[derive(Clone, Copy, Debug)]
pub struct Silent {
    pub key: usize,
    pub number: u64,
    pub seconds: u64,
}

impl Silent {
    /// Of a connection and the one that was silent longest before it, the one that has been longer. Of two that have been
    /// alike it is the first.
    pub fn or_longer(self, longest: Option<Silent>) -> Silent
        ensures just_self { IfNone longest (result ≡ self) }
        ensures longer { IfSome longest (λ other. other.seconds < self.seconds → result ≡ self) }
        ensures stays { IfSome longest (λ other. self.seconds ≤ other.seconds → result ≡ other) }
    {
        match longest {
            Some(other) if self.seconds <= other.seconds => other,
            _ => self,
        }
    }
}
