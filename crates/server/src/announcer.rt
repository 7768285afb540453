//! Who tells that a server can serve.
ghost use Rattle.std.specs.Prelude.{Bool};

/// Who tells that a server can serve: its memory and its threads are there, and no client was served.
pub trait Announcer {
    /// What it is to tell so, or to fail.
    ghost tells: { Self → Bool → Self → Type 0 };

    /// Tells so. False where that failed.
    fn announce(self) -> (Self, bool)
    where
        Self: Sized,
        ensures { tells self result.1 result.0 };
}
