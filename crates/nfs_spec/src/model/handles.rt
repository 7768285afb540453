//! Laws on handles.
ghost use Rattle.std.specs.Prelude.{◌≡◌, ℕ, ◌<◌, ◌≤◌, ◌^◌};
ghost use Rattle.nfs_types.specs.Handle.{handle_bytes};
ghost use Rattle.nfs_spec.specs.Model.Node.{Node};
ghost use Rattle.nfs_spec.specs.Model.Tree.{Tree, node_at};
ghost use Rattle.nfs_spec.specs.Model.Find.{find_file};

/// The handle that is made of a file's number and stamp names that file.
pub fn a_files_handle_names_it()
    ensures { (tree : Tree) (number : ℕ) (node : Node) → 0 < number → number < tree.geometry.inodes
        → number < 2 ^ 32
        → node.stamp.boot < 2 ^ 64 → node.stamp.transaction < 2 ^ 64 → node_at tree number ≡ Some node
        → find_file tree (handle_bytes number node.stamp) ≡ Ok (number, node) }
{}
