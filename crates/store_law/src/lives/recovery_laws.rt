//! A law on recovery.
ghost use Rattle.std.specs.Prelude.{◌≡◌, ℕ, ◌+◌, ◌≤◌, List, Some, slice_get};
ghost use Rattle.disk.specs.Crash.{Image, IsCrashImage};
ghost use Rattle.store_law.specs.Lives.Recovering.{AreStopped, Holds, StaysGood, StoppedOpening};
ghost use Rattle.nfs_spec.specs.Model.Tree.{Tree};

/// However often recovery is stopped, each stop of it leaves a good image with the tree that was there first,
/// and with a boot number that is higher by one for each opening at most.
pub fn a_stopped_recovery_preserves_the_tree()
    ensures { (openings : List StoppedOpening) (begun o : StoppedOpening) (at clock first : ℕ) (tree : Tree)
        (image : Image)
        → AreStopped openings → slice_get openings 0 ≡ Some begun → Holds begun.before tree first
        → slice_get openings at ≡ Some o → o.before.clock ≤ clock → clock ≤ o.later.clock
        → IsCrashImage o.later clock image → StaysGood o.later.size first (at + 1) tree image }
{}
