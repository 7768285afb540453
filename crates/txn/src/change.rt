//! What a transaction commits.
ghost use Rattle.std.specs.Prelude.{◌≡◌};

use crate::Object;

/// A change that was worked out from some objects: the objects that were read for it, with the bytes that
/// they had; the objects that it writes, with the bytes that they get, later ones over earlier ones; what it
/// answers; and the counts of blocks and inodes of the image that it was worked out for.
pub trait Change: Drop {
    ghost use Rattle.std.specs.Prelude.{List, ℕ};
    ghost use Rattle.txn_law.specs.Commit.{Planned};
    ghost use Rattle.objects.specs.Object.{ObjectBytes};

    // What it was worked out for, what it read and what it writes.
    ghost planned: { Self → Planned };

    /// What such a change answers.
    type Answer;

    // What it answers.
    ghost answers: { Self → Self.Answer };

    // This answer and these objects, read and written, are what a plan answers, reads and writes, for an image of
    // these counts of blocks and inodes.
    ghost is_plan: { ℕ → ℕ → Self.Answer → List ObjectBytes → List ObjectBytes → Type 0 };

    // An image that such changes are made to may have these counts of blocks and inodes.
    ghost are_counts: { ℕ → ℕ → Type 0 };

    /// What it read, as the objects were then.
    fn read(&self) -> &[Object]
        ensures { result.now ≡ (planned self.now).read };

    /// What it writes, as the objects will be.
    fn written(&self) -> &[Object]
        ensures { result.now ≡ (planned self.now).written };

    /// The blocks of the image that it was worked out for.
    fn blocks(&self) -> u32
        ensures { result ≡ (planned self.now).blocks };

    /// The inodes of that image.
    fn inodes(&self) -> u32
        ensures { result ≡ (planned self.now).inodes };

    /// What it answers, read and writes is what a plan answers, reads and writes.
    fn is_planned(&self)
        ensures { let plan = planned self.now in
            is_plan plan.blocks plan.inodes (answers self.now) plan.read plan.written };
}
