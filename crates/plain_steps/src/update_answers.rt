//! Calls that change files, over the tree as files.
ghost use Rattle.std.specs.Prelude.{◌≡◌, IfOk, IfSome, IfNone, OnErr, is_some};
ghost use Rattle.nfs_types.specs.Fits.{CallFits};
ghost use Rattle.nfs_spec.specs.Model.Sound.{Sound, SoundCtx};
ghost use Rattle.nfs_spec.specs.Procedures.Step.{step};
ghost use Rattle.procs_dispatch.specs.Kinds.{changes};
ghost use Rattle.plain_tree.specs.Tree.Plain.{tree_of};

use crate::tree_files::PlainFiles;
use nfs_types::{Call, Ctx, Reply};
use plain_tree::PlainTree;
use procs_dispatch::change;
use std::alloc::{AllocError, Global};

/// What a call that changes files is answered. The other calls have no answer here. The files change in a copy,
/// so an error leaves the tree as it was.
pub(crate) fn answer_update(
    alloc: Global,
    tree: &mut PlainTree,
    ctx: &Ctx,
    call: &Call,
) -> Result<Option<Reply>, AllocError>
    ensures step { IfOk result (λ r. IfSome r (λ reply. Sound (tree_of tree.old) → SoundCtx ctx.now
        → CallFits call.now → step (tree_of tree.old) ctx.now call.now reply (tree_of tree.new))) }
    ensures known { IfOk result (λ r. is_some r ≡ changes call.now) }
    ensures unknown { IfOk result (λ r. IfNone r (tree_of tree.new ≡ tree_of tree.old)) }
    ensures err { OnErr result (tree_of tree.new ≡ tree_of tree.old) }
{
    let mut files = PlainFiles {
        tree: tree.clone()?,
    };
    match change(alloc, &mut files, ctx, call)? {
        Some(reply) => {
            *tree = files.tree;
            Ok(Some(reply))
        }
        None => Ok(None),
    }
}
