//! Laws on replies that no step gives.
ghost use Rattle.std.specs.Prelude.{◌≡◌, true};
ghost use Rattle.nfs_types.specs.declared.call.Call.{Call};
ghost use Rattle.nfs_types.specs.declared.ctx.Ctx.{Ctx};
ghost use Rattle.nfs_types.specs.declared.status.Status.TheVariants as status;
ghost use Rattle.nfs_spec.specs.Model.Calls.{is_answered_stable};
ghost use Rattle.nfs_spec.specs.Model.Refused.{refused};
ghost use Rattle.nfs_spec.specs.Model.Tree.{Tree};
ghost use Rattle.nfs_spec.specs.Procedures.Step.{step};

/// Of a call that is answered only once what it changed is stable, no step replies IO or SERVERFAULT: those
/// tell that the store failed, and not what the procedure found.
pub fn no_stable_answer_tells_a_failure()
    ensures io { (tree next : Tree) (ctx : Ctx) (asked : Call) → is_answered_stable asked ≡ true
        → step tree ctx asked (refused status.Io asked) next → ⊥ }
    ensures server_fault { (tree next : Tree) (ctx : Ctx) (asked : Call) → is_answered_stable asked ≡ true
        → step tree ctx asked (refused status.ServerFault asked) next → ⊥ }
{}
