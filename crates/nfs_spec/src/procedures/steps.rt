//! Laws on the steps of all procedures.
ghost use Rattle.std.specs.Prelude.{◌≡◌, ◌≢◌, ◌≤◌, ℕ, Option, Some, true, false};
ghost use Rattle.nfs_types.specs.declared.call.Call.{Call};
ghost use Rattle.nfs_types.specs.declared.call.Call.TheVariants as call;
ghost use Rattle.nfs_types.specs.declared.ctx.Ctx.{Ctx};
ghost use Rattle.nfs_types.specs.declared.reply.Reply.{Reply};
ghost use Rattle.nfs_spec.specs.Model.Node.{Node};
ghost use Rattle.nfs_spec.specs.Model.Sound.{IsMadeBy};
ghost use Rattle.nfs_spec.specs.Model.Tree.{Tree, node_at};
ghost use Rattle.nfs_spec.specs.Procedures.Histories.{stamp_of};
ghost use Rattle.nfs_spec.specs.Procedures.Kinds.{is_refusal, may_make_file, only_tells, tells_failure};
ghost use Rattle.nfs_spec.specs.Procedures.Stamps.{IsPreservedOrMade};
ghost use Rattle.nfs_spec.specs.Procedures.Step.{numbered_step, step};

/// Where the number of a new file is known, a call has one reply and one next tree.
pub fn a_numbered_step_is_determined()
    ensures { (tree next other : Tree) (ctx : Ctx) (new : Option ℕ) (asked : Call) (reply another : Reply)
        → numbered_step tree ctx new asked reply next → numbered_step tree ctx new asked another other
        → (reply ≡ another) × (next ≡ other) }
{}

/// A call that may make no file has one reply and one next tree.
pub fn a_step_that_makes_no_file_is_determined()
    ensures { (tree next other : Tree) (ctx : Ctx) (asked : Call) (reply another : Reply)
        → may_make_file asked ≡ false → step tree ctx asked reply next → step tree ctx asked another other
        → (reply ≡ another) × (next ≡ other) }
{}

/// Each call but NULL has a reply and a next tree, whatever the tree is.
pub fn each_call_has_a_step()
    ensures { (tree : Tree) (ctx : Ctx) (asked : Call) → asked ≢ call.Null
        → (reply : Reply) × (next : Tree) × step tree ctx asked reply next }
{}

/// A call that is refused changes nothing.
pub fn a_refusal_leaves_the_tree()
    ensures { (tree next : Tree) (ctx : Ctx) (asked : Call) (reply : Reply)
        → step tree ctx asked reply next → is_refusal reply ≡ true → next ≡ tree }
{}

/// A call that only tells something changes nothing.
pub fn what_only_tells_leaves_the_tree()
    ensures { (tree next : Tree) (ctx : Ctx) (asked : Call) (reply : Reply)
        → step tree ctx asked reply next → only_tells asked ≡ true → next ≡ tree }
{}

/// No step replies IO or SERVERFAULT: those tell that the store failed, and not what the procedure found.
pub fn no_step_tells_a_failure()
    ensures { (tree next : Tree) (ctx : Ctx) (asked : Call) (reply : Reply)
        → step tree ctx asked reply next → tells_failure reply ≡ false }
{}

/// Each file behind a step was there with its stamp, or the step made it: under a number that was unused, with
/// the stamp of its own transaction.
pub fn each_file_was_there_or_is_made_now()
    ensures { (tree next : Tree) (ctx : Ctx) (asked : Call) (reply : Reply) (number : ℕ) (node : Node)
        → step tree ctx asked reply next → node_at next number ≡ Some node
        → IsPreservedOrMade tree number node.stamp (stamp_of ctx) }
{}

/// A step makes no file with a later boot in its stamp: where none has one above a bound and the store's boot
/// isn't above it, none has afterwards.
pub fn no_step_makes_a_later_stamp()
    ensures { (boot : ℕ) (tree next : Tree) (ctx : Ctx) (asked : Call) (reply : Reply)
        → IsMadeBy boot tree → ctx.boot ≤ boot → step tree ctx asked reply next → IsMadeBy boot next }
{}
