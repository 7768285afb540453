//! Laws on the trees that steps lead to.
ghost use Rattle.std.specs.Prelude.{◌≡◌, ◌≢◌, ℕ, suc, List, Some, true};
ghost use Rattle.base.specs.declared.TheConstants.{ROOT};
ghost use Rattle.nfs_types.specs.Fits.{CallFits};
ghost use Rattle.nfs_types.specs.declared.call.Call.{Call};
ghost use Rattle.nfs_types.specs.declared.ctx.Ctx.{Ctx};
ghost use Rattle.nfs_types.specs.declared.reply.Reply.{Reply};
ghost use Rattle.nfs_spec.specs.Model.Entry.{Entry};
ghost use Rattle.nfs_spec.specs.Model.Names.{ancestor};
ghost use Rattle.nfs_spec.specs.Model.Node.{Node};
ghost use Rattle.nfs_spec.specs.Model.Sound.{Sound, SoundCtx};
ghost use Rattle.nfs_spec.specs.Model.Tree.{Tree, node_at};
ghost use Rattle.nfs_spec.specs.Procedures.After.{after};
ghost use Rattle.nfs_spec.specs.Procedures.Histories.{SoundHistory};
ghost use Rattle.nfs_spec.specs.Procedures.Step.{step};

/// A step of any call that can be spelled keeps a sound tree sound.
pub fn steps_keep_trees_sound()
    ensures { (tree next : Tree) (ctx : Ctx) (asked : Call) (reply : Reply)
        → Sound tree → SoundCtx ctx → CallFits asked → step tree ctx asked reply next → Sound next }
{}

/// Each history leads from a sound tree to a sound one.
pub fn histories_keep_trees_sound()
    ensures { (tree next : Tree) (entries : List Entry)
        → Sound tree → SoundHistory entries → after tree entries next → Sound next }
{}

/// No step, and so no RENAME, makes a file its own ancestor: but for the root, none is.
pub fn no_step_makes_a_file_its_own_ancestor()
    ensures { (tree next : Tree) (ctx : Ctx) (asked : Call) (reply : Reply) (number steps : ℕ) (node : Node)
        → Sound tree → SoundCtx ctx → CallFits asked → step tree ctx asked reply next
        → node_at next number ≡ Some node → number ≢ ROOT → ancestor next (suc steps) number ≢ number }
{}
