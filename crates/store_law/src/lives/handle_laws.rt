//! Laws on the handles of a life.
ghost use Rattle.std.specs.Prelude.{◌≡◌, ℕ, ◌≤◌, List, Ok, Some, slice_get, take, length};
ghost use Rattle.disk.specs.Crash.{Image, IsAtRest, IsCrashImage};
ghost use Rattle.disk.specs.Device.{Device};
ghost use Rattle.store_law.specs.Lives.Life.{EndedRun, HasTreeOf, IsLife, LeavesImage, WasRun, committed_by};
ghost use Rattle.store_law.specs.Lives.Life.{counted_runs};
ghost use Rattle.store_promise.specs.Headline.{MayRun};
ghost use Rattle.store_promise.specs.Schedule.{Schedule, SoundEvents};
ghost use Rattle.nfs_spec.specs.Lives.Lives as counted;
ghost use Rattle.nfs_spec.specs.Lives.Lives.{Birth, HasTree};
ghost use Rattle.nfs_spec.specs.Model.Find.{find_file};
ghost use Rattle.nfs_spec.specs.Model.Node.{Node};
ghost use Rattle.nfs_spec.specs.Model.Tree.{Tree};
ghost use Rattle.nfs_spec.specs.Procedures.After.{after};

/// The runs of a life, each counted up to its crash, are a life of boot numbers, trees and entries.
pub fn a_life_counts_up_to_each_crash()
    ensures { (life : List EndedRun) → IsLife life → counted.IsLife (counted_runs life) }
{}

/// A handle that names files in two trees of a life, of any two runs, kept or lost, names files of one birth.
pub fn a_handle_names_one_file_for_good()
    ensures { (life : List EndedRun) (handle : List ℕ) (at place later behind : ℕ) (one other : Tree)
        (births others : ℕ → Birth) (found again : ℕ × Node)
        → IsLife life → HasTree (counted_runs life) at place one births
        → HasTree (counted_runs life) later behind other others
        → find_file one handle ≡ Ok found → find_file other handle ≡ Ok again
        → births found.0 ≡ others again.0 }
{
    a_life_counts_up_to_each_crash();
    nfs_spec::a_handle_names_one_file_for_good();
}

/// Each tree behind what a run of a life had committed by its crash, in any part, has its births.
pub fn each_tree_has_its_births()
    ensures { (life : List EndedRun) (at place : ℕ) (run : EndedRun) (tree : Tree)
        → IsLife life → slice_get life at ≡ Some run
        → place ≤ length (committed_by run.later.clock run.crash run.answer)
        → after run.tree (take place (committed_by run.later.clock run.crash run.answer)) tree
        → (births : ℕ → Birth) × HasTree (counted_runs life) at place tree births }
{
    a_life_counts_up_to_each_crash();
    nfs_spec::each_tree_has_its_births();
}

/// Whatever image the crash of a run of a life leaves is good, and its tree has its births.
pub fn each_image_has_its_births()
    ensures { (life : List EndedRun) (at : ℕ) (run : EndedRun) (image : Image)
        → IsLife life → slice_get life at ≡ Some run → IsCrashImage run.later run.crash image
        → HasTreeOf life at run.later.size image }
{
    each_tree_has_its_births();
}

/// A life may go on from each crash: whatever image it left, a device at rest with that may be run on.
pub fn a_life_may_go_on()
    ensures { (run : EndedRun) (next : Device) (events : Schedule) → WasRun run → IsAtRest next
        → LeavesImage run.later run.crash next → SoundEvents events
        → (tree : Tree) × (boot : ℕ) × MayRun (Unit {0}) next tree boot events }
{}
