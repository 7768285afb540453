//! The files by their numbers, and trees with one file more or less.
ghost use Rattle.std.specs.Prelude.{◌≡◌, IfSome, IfNone, nat_eq, Some, None, ◌<◌, IfOk, filter, not};
ghost use Rattle.nfs_spec.specs.Procedures.Places.{file_at};
ghost use Rattle.plain_tree.specs.Tree.Plain.{node_of, numbered, tree_of};
ghost use Rattle.nfs_spec.specs.Model.Tree.{with_node};
ghost use Rattle.nfs_spec.specs.Procedures.Changes.{without_node};

use plain_tree::{NumberedNode, PlainNode, PlainTree};
use std::alloc::AllocError;

/// The file of a number.
pub(crate) fn file_at(tree: &PlainTree, number: u32) -> Option<&NumberedNode>
    ensures some { IfSome result (λ file. file_at (tree_of tree.now) number ≡ Some (numbered file.now)) }
    ensures none { IfNone result (file_at (tree_of tree.now) number ≡ None) }
{
    let index = tree.position_of(number)?;
    Some(&tree.nodes[index])
}

// Takes the files of a number away.
fn retain_others(files: &mut Vec<NumberedNode>, number: u32)
    ensures { files.new.items ≡ filter (λ file. not (nat_eq number file.number)) files.old.items }
{
    files.retain(|file| number != file.number);
}

/// The tree without the file of a number.
pub(crate) fn without_node(tree: PlainTree, number: u32) -> PlainTree
    ensures { tree_of result ≡ without_node (tree_of tree) number }
{
    let mut next = tree;
    retain_others(&mut next.nodes, number);
    next
}

/// The tree with this file under this number.
pub(crate) fn with_node(
    tree: PlainTree,
    number: u32,
    node: PlainNode,
) -> Result<PlainTree, AllocError>
    ensures { IfOk result (λ next. tree_of next ≡ with_node (tree_of tree) number (node_of node)) }
{
    let mut next = without_node(tree, number);
    next.nodes.push(NumberedNode { number, node })?;
    Ok(next)
}
