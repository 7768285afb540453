//! One call after another.
ghost use Rattle.std.specs.Prelude.{◌≡◌, IfOk, IfSome, IfNone, OnErr, is_some, not};
ghost use Rattle.nfs_types.specs.Fits.{CallFits};
ghost use Rattle.nfs_spec.specs.Model.Sound.{Sound, SoundCtx};
ghost use Rattle.nfs_spec.specs.Procedures.Step.{step};
ghost use Rattle.plain_tree.specs.Tree.Plain.{tree_of};
ghost use Rattle.plain_steps.specs.Computed.{is_null};

use crate::query_answers::answer_query;
use crate::update_answers::answer_update;
use nfs_types::{Call, Ctx, Reply};
use plain_tree::PlainTree;
use std::alloc::{AllocError, Global};

/// One step of the sequential server. NULL has no answer here. An error leaves the tree as it was.
pub fn answer(
    alloc: Global,
    tree: &mut PlainTree,
    ctx: &Ctx,
    call: &Call,
) -> Result<Option<Reply>, AllocError>
    ensures step { IfOk result (λ r. IfSome r (λ reply. Sound (tree_of tree.old) → SoundCtx ctx.now
        → CallFits call.now → step (tree_of tree.old) ctx.now call.now reply (tree_of tree.new))) }
    ensures known { IfOk result (λ r. is_some r ≡ not (is_null call.now)) }
    ensures unknown { IfOk result (λ r. IfNone r (tree_of tree.new ≡ tree_of tree.old)) }
    ensures err { OnErr result (tree_of tree.new ≡ tree_of tree.old) }
{
    if let Some(reply) = answer_query(alloc, tree, ctx, call)? {
        return Ok(Some(reply));
    }
    answer_update(alloc, tree, ctx, call)
}
