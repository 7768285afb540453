//! Laws on the handles of a life.
ghost use Rattle.std.specs.Prelude.{◌≡◌, ℕ, ◌≤◌, List, Ok, Err, Some, slice_get, take, length};
ghost use Rattle.base.specs.declared.TheConstants.{ROOT};
ghost use Rattle.nfs_types.specs.declared.status.Status.TheVariants as status;
ghost use Rattle.nfs_spec.specs.Model.Find.{find_file};
ghost use Rattle.nfs_spec.specs.Model.Node.{Node};
ghost use Rattle.nfs_spec.specs.Model.Sound.{Sound};
ghost use Rattle.nfs_spec.specs.Model.Tree.{Tree, node_at};
ghost use Rattle.nfs_types.specs.Handle.{handle_bytes};
ghost use Rattle.nfs_spec.specs.Procedures.After.{after};
ghost use Rattle.nfs_spec.specs.Lives.Later.{IsUpTo, Leads};
ghost use Rattle.nfs_spec.specs.Lives.Lives.{AtStart, Birth, CountedRun, HasTree, IsLife};

/// A handle that names files in two trees of a life, of any two runs, kept or lost, names files of one birth.
pub fn a_handle_names_one_file_for_good()
    ensures { (life : List CountedRun) (handle : List ℕ) (at place later behind : ℕ) (one other : Tree)
        (births others : ℕ → Birth) (found again : ℕ × Node)
        → IsLife life → HasTree life at place one births → HasTree life later behind other others
        → find_file one handle ≡ Ok found → find_file other handle ≡ Ok again
        → births found.0 ≡ others again.0 }
{}

/// Files with equal handles, in any two trees of a life, have one birth.
pub fn files_of_equal_handles_have_one_birth()
    ensures { (life : List CountedRun) (at place later behind : ℕ) (one other : Tree) (births others : ℕ → Birth)
        (number again : ℕ) (node file : Node)
        → IsLife life → HasTree life at place one births → HasTree life later behind other others
        → Sound one → Sound other → node_at one number ≡ Some node → node_at other again ≡ Some file
        → handle_bytes number node.stamp ≡ handle_bytes again file.stamp
        → (number ≡ again) × (births number ≡ others again) }
{
    crate::model::a_files_handle_names_it();
}

/// Each tree that the entries of a run of a life lead to has its births.
pub fn each_tree_has_its_births()
    ensures { (life : List CountedRun) (at place : ℕ) (run : CountedRun) (tree : Tree)
        → IsLife life → slice_get life at ≡ Some run → place ≤ length run.entries
        → after run.tree (take place run.entries) tree
        → (births : ℕ → Birth) × HasTree life at place tree births }
{}

/// The root was there at the start.
pub fn the_root_was_there_at_the_start()
    ensures { (life : List CountedRun) (at place : ℕ) (tree : Tree) (births : ℕ → Birth)
        → IsLife life → HasTree life at place tree births → Sound tree → births ROOT ≡ AtStart }
{}

/// A handle that named a file in a tree of a life, kept or lost, and is stale in a later one, is stale in each
/// that the later one leads to.
pub fn a_handle_once_stale_names_no_file_again()
    ensures { (life : List CountedRun) (handle : List ℕ) (at place later behind last end : ℕ)
        (named stale next : Tree) (births others ends : ℕ → Birth) (found : ℕ × Node)
        → IsLife life → HasTree life at place named births → find_file named handle ≡ Ok found
        → HasTree life later behind stale others → IsUpTo at place later behind
        → find_file stale handle ≡ Err status.Stale → Leads life later behind stale others last end next ends
        → find_file next handle ≡ Err status.Stale }
{}
