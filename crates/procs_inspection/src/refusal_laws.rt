//! What is refused is in no tree.
ghost use Rattle.disk.specs.Crash.{Image};
ghost use Rattle.nfs_spec.specs.Model.Tree.{Tree};
ghost use Rattle.layout.specs.Holds.{Holds};
ghost use Rattle.inode.specs.declared.snap.Snap.{Snap};
ghost use Rattle.inode.specs.Read.{Saw};
ghost use Rattle.procs_inspection.specs.Refused.{IsRefused};

/// Blocks in which the layout refuses something that was read hold the files of no tree.
pub fn what_is_refused_is_in_no_tree()
    ensures { (snap : Snap) (blocks : Image) (tree : Tree) → Saw blocks snap → Holds snap.geometry blocks tree
        → IsRefused snap blocks → ⊥ }
{}
