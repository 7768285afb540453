//! How an address is taken.
ghost use Rattle.std.specs.Prelude.{◌≡◌, ◌↔◌, IsTrue};

/// How an address is taken: beside other transactions that share it, or for one transaction alone.
#[derive(Clone, Copy, Debug, PartialEq, Eq)]
pub enum Mode {
    Shared,
    Exclusive,
}

impl Mode {
    ghost use Rattle.objects.specs.Mode.{Excludes, upgraded};

    /// Whether what is taken in this mode keeps off what is asked for in the other.
    pub fn excludes(self, other: Mode) -> bool
        ensures { IsTrue result ↔ Excludes self other }
    {
        self == Mode::Exclusive || other == Mode::Exclusive
    }

    /// The mode of an address that is taken in this one and asked for in the other.
    pub fn upgraded(self, other: Mode) -> Mode
        ensures { result ≡ upgraded self other }
    {
        match other {
            Mode::Shared => self,
            Mode::Exclusive => Mode::Exclusive,
        }
    }
}
