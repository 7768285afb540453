//! The blocks and the numbers that files use, and that are free.
ghost use Rattle.std.specs.Prelude.{◌≡◌, ◌<◌, ◌≤◌, ◌^◌, ◌*◌, ◌+◌, ◌-◌, length, drop, position, nat_eq};
ghost use Rattle.std.specs.FinMap as map;
ghost use Rattle.nfs_spec.specs.Model.Tree.{cost_at, free};
ghost use Rattle.plain_tree.specs.Tree.Plain.{tree_of};
ghost use Rattle.plain_steps.specs.Numbered.{blocks_of, files_of};

use plain_tree::{NumberedNode, PlainTree};

// Where the first file of a number stands.
pub(crate) fn position_of(files: &[NumberedNode], number: u32) -> Option<usize>
    ensures { result ≡ position (λ file. nat_eq number file.number) files.now }
{
    files.iter().position(|file| number == file.number)
}

// The blocks that the first file of a number uses.
pub(crate) fn cost_at(files: &[NumberedNode], number: u32) -> u64
    ensures is { result ≡ cost_at (map.get (files_of files.now) number) }
    ensures small { result ≤ 2 ^ 32 }
{
    match position_of(files, number) {
        Some(index) => files[index].node.body.cost(),
        None => 0,
    }
}

pub(crate) fn behind(files: &[NumberedNode], index: usize) -> &[NumberedNode]
    requires { index ≤ length files.now }
    ensures { result.now ≡ drop index files.now }
{
    &files[index..]
}

// The blocks that a file and those behind it use together: one of its number among those doesn't count.
fn with_first(files: &[NumberedNode], index: usize, blocks: u128) -> u128
    requires inside { index < length files.now }
    requires counted { blocks ≡ blocks_of (drop (index + 1) files.now) }
    requires small { blocks ≤ (length files.now - (index + 1)) * 2 ^ 32 }
    ensures counted { result ≡ blocks_of (drop index files.now) }
    ensures small { result ≤ (length files.now - index) * 2 ^ 32 }
{
    let file = &files[index];
    let hidden = cost_at(behind(files, index + 1), file.number);
    blocks + file.node.body.cost() as u128 - hidden as u128
}

// The blocks that the files use together.
fn blocks_of(files: &[NumberedNode]) -> u128
    ensures { result ≡ blocks_of files.now }
{
    let mut blocks: u128 = 0;
    let mut index = files.len();
    'files: while index > 0 {
        index -= 1;
        blocks = with_first(files, index, blocks);
    }
    blocks
}

/// The data blocks that no file uses.
pub(crate) fn free_blocks(tree: &PlainTree) -> u32
    ensures { result ≡ free (tree_of tree.now) }
{
    let blocks = blocks_of(&tree.nodes);
    if blocks < tree.data_blocks as u128 {
        tree.data_blocks - blocks as u32
    } else {
        0
    }
}

// How many numbers the files have from one on: one that has its number later too doesn't count.
fn count_with(files: &[NumberedNode], index: usize, count: u64) -> u64
    requires inside { index < length files.now }
    requires counted { count ≡ map.len (files_of (drop (index + 1) files.now)) }
    requires small { count ≤ length files.now - (index + 1) }
    ensures counted { result ≡ map.len (files_of (drop index files.now)) }
    ensures small { result ≤ length files.now - index }
{
    let file = &files[index];
    match position_of(behind(files, index + 1), file.number) {
        Some(_) => count,
        None => count + 1,
    }
}

/// How many files there are.
pub(crate) fn count_of(files: &[NumberedNode]) -> u64
    ensures { result ≡ map.len (files_of files.now) }
{
    let mut count: u64 = 0;
    let mut index = files.len();
    'files: while index > 0 {
        index -= 1;
        count = count_with(files, index, count);
    }
    count
}
