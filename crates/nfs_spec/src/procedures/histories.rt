//! Laws on histories.
ghost use Rattle.std.specs.Prelude.{◌≡◌, ◌↔◌, [], ◌++◌, List};
ghost use Rattle.nfs_spec.specs.Model.Entry.{Entry};
ghost use Rattle.nfs_spec.specs.Model.Tree.{Tree};
ghost use Rattle.nfs_spec.specs.Procedures.After.{after};

/// A history without entries leads from each tree to itself, and nowhere else.
pub fn an_empty_history_leads_nowhere()
    ensures { (tree next : Tree) → after tree [] next ↔ (next ≡ tree) }
{}

/// A history leads where its second part leads from where its first part leads.
pub fn histories_join()
    ensures { (tree next : Tree) (first second : List Entry)
        → after tree (first ++ second) next
        ↔ ((middle : Tree) × after tree first middle × after middle second next) }
{}
