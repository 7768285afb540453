//! Adding a commit's changes to the tail.
ghost use Rattle.std.specs.Prelude.{◌≡◌, ◌≢◌, ◌≤◌, ◌<◌, ◌↔◌, length, All, drop};
ghost use Rattle.circ.specs.Log.Log.{blocks_of, tail_after, IsHomeOn, IsLawful, AreOnce};
ghost use Rattle.circ.specs.Log.Log.{changed_blocks, new_blocks};
ghost use Rattle.circ.specs.Log.Room.{HasPlaces, with_group};
ghost use Rattle.circ.specs.Log.Effects.{HasAppended};
ghost use Rattle.circ.specs.Log.Grows.{GrowsBy, StandsStill};
ghost use Rattle.circ.specs.Log.Calls.{PreservesAgreement};

use super::Wal;
use crate::Append;
use crate::changes::Changes;
use base::LOG_SLOTS;
use disk::{BlockNo, SharedBlock};

impl Wal {
    /// Adds the changes of a commit, which takes the next place. A refusal leaves the log as it was.
    pub fn append(&mut self, group: Vec<(BlockNo, SharedBlock)>) -> Append
        requires places { HasPlaces self.old (blocks_of group.items) }
        requires homes { All (IsHomeOn self.old.blocks) (blocks_of group.items) }
        requires once { AreOnce (blocks_of group.items) }
        ensures appended { result ≡ Append.Appended → self.new ≡ with_group self.old group.items }
        ensures refused { result ≢ Append.Appended → self.new ≡ self.old }
        ensures full { result ≡ Append.Full ↔ (LOG_SLOTS < tail_after self.old (blocks_of group.items)) }
        ensures seen { result ≡ Append.Appended → HasAppended self.old group.items self.new }
        ensures grows { result ≡ Append.Appended → GrowsBy self.old group.items self.new }
        ensures still { result ≡ Append.Appended → StandsStill self.old self.new }
        ensures law { PreservesAgreement self.old self.new }
    {
        self.add(group)
    }

    // Adds the changes of a commit.
    fn add(&mut self, group: Vec<(BlockNo, SharedBlock)>) -> Append
        requires places { HasPlaces self.old (blocks_of group.items) }
        requires homes { All (IsHomeOn self.old.blocks) (blocks_of group.items) }
        requires once { AreOnce (blocks_of group.items) }
        ensures lawful { IsLawful self.old }
        ensures appended { result ≡ Append.Appended → self.new ≡ with_group self.old group.items }
        ensures refused { result ≢ Append.Appended → self.new ≡ self.old }
        ensures full { result ≡ Append.Full ↔ (LOG_SLOTS < tail_after self.old (blocks_of group.items)) }
    {
        let preceding = self.logged + self.batches.log.taken;
        let added = count_new(&self.changes, preceding, &group);
        if LOG_SLOTS as usize - (self.changes.len() - preceding) < added {
            return Append::Full;
        }
        match self
            .changes
            .append(preceding, added, self.places + 1, group)
        {
            Ok(()) => {
                self.places += 1;
                Append::Appended
            }
            Err(error) => Append::NoMemory(error),
        }
    }
}

// How many blocks of a group no change from an index on is of.
fn count_new(changes: &Changes, preceding: usize, group: &[(BlockNo, SharedBlock)]) -> usize
    requires { preceding ≤ length changes.now.changes }
    ensures { result ≡ length (new_blocks (changed_blocks (drop preceding changes.now.changes)) (blocks_of group.now)) }
{
    let mut count = 0;
    for change in group {
        if !changes.has(preceding, change.0) {
            count += 1;
        }
    }
    count
}
