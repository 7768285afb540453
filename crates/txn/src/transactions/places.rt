//! The places of commits, as the core knows them.
ghost use Rattle.std.specs.Prelude.{◌≡◌};
ghost use Rattle.circ.specs.Log.Log.{settled_place};

use super::Core;
use crate::Change;
use wal::Seq;

impl<C: Change> Core<C> {
    /// The place of the last commit.
    pub fn places(&self) -> Seq
        ensures { result.0 ≡ self.now.log.places }
    {
        self.log.places()
    }

    /// The greatest place such that each change at or before it is settled.
    pub fn settled(&self) -> Seq
        ensures { result.0 ≡ settled_place self.now.log }
    {
        self.log.settled()
    }
}
