//! What is in memory after a commit.
ghost use Rattle.std.specs.Prelude.{◌≡◌};
ghost use Rattle.txn.specs.Refreshed.{renewed_each};

use disk::{BlockNo, SharedBlock};
use objects::Residency;

/// Puts each of these blocks in the place of the one in memory, where there is one.
pub(crate) fn refresh(present: &mut Residency, blocks: Vec<(BlockNo, SharedBlock)>)
    ensures { present.new ≡ record present.old {
      blocks = renewed_each present.old.blocks blocks.items;
    } }
{
    for (block, content) in blocks {
        present.renew(block, content);
    }
}
