//! Calls that only tell something, over the tree as files.
ghost use Rattle.std.specs.Prelude.{◌≡◌, ℕ, IfOk, IfSome, Option, is_some};
ghost use Rattle.nfs_spec.specs.Procedures.Step.{numbered_step};
ghost use Rattle.procs_dispatch.specs.Kinds.{tells};
ghost use Rattle.plain_tree.specs.Tree.Plain.{tree_of};

use crate::tree_files::PlainFiles;
use nfs_types::{Call, Ctx, Reply};
use plain_tree::PlainTree;
use procs_dispatch::tell;
use std::alloc::{AllocError, Global};
use std::mem;

// A tree without a file, which stands for another while that is read.
fn nothing(alloc: Global) -> PlainTree {
    PlainTree {
        data_blocks: 0,
        inodes: 0,
        nodes: Vec::new(alloc),
    }
}

/// What a call that only tells something is answered. The other calls and NULL have no answer here.
pub(crate) fn answer_query(
    alloc: Global,
    tree: &mut PlainTree,
    ctx: &Ctx,
    call: &Call,
) -> Result<Option<Reply>, AllocError>
    ensures same { tree_of tree.new ≡ tree_of tree.old }
    ensures step { IfOk result (λ r. IfSome r (λ reply. (new : Option ℕ) → numbered_step (tree_of tree.old)
        ctx.now new call.now reply (tree_of tree.old))) }
    ensures known { IfOk result (λ r. is_some r ≡ tells call.now) }
{
    let files = PlainFiles {
        tree: mem::replace(tree, nothing(alloc)),
    };
    let query_reply = tell(alloc, &files, ctx, call);
    *tree = files.tree;
    query_reply
}
