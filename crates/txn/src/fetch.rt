//! A block that is read from its home by a source.
ghost use Rattle.std.specs.Prelude.{◌≡◌, ◌∷◌, ◌++◌, []};
ghost use Rattle.disk.specs.Overlap.{reads};

use crate::FetchIo;
use disk::{Failed, Source};

impl FetchIo {
    /// Reads the block from its home by a source. A block that the source doesn't have is a failure of it.
    pub fn read_from<S: Source>(&mut self, source: &mut S) -> Result<(), Failed>
        ensures block { self.new.block ≡ self.old.block }
        ensures call { S.calls source.new
            ≡ S.calls source.old ++ (reads self.old.block.0 self.new.content, result) ∷ [] }
    {
        source.read(self.block, &mut self.buffer)
    }
}
