//! Numbers of new files.
ghost use Rattle.std.specs.Prelude.{◌≡◌, is_none};
ghost use Rattle.nfs_spec.specs.Model.Tree.{node_at};
ghost use Rattle.nfs_spec.specs.Procedures.Fresh.{IsNewNumber};
ghost use Rattle.plain_tree.specs.Tree.Plain.{tree_of};
ghost use Rattle.plain_steps.specs.Numbered.{least_unused};

use plain_tree::PlainTree;

fn is_unused(tree: &PlainTree, number: u32) -> bool
    ensures { result ≡ is_none (node_at (tree_of tree.now) number) }
{
    match tree.position_of(number) {
        Some(_) => false,
        None => true,
    }
}

/// The least number that a file may have and none has. There is none only where all are used.
pub(crate) fn least_unused(tree: &PlainTree) -> Option<u32>
    ensures least { result ≡ least_unused (tree_of tree.now) }
    ensures new { IsNewNumber (tree_of tree.now) result }
{
    let end = tree.inodes;
    let mut number = 1;
    'numbers: while number < end {
        if is_unused(tree, number) {
            return Some(number);
        }
        number += 1;
    }
    None
}
