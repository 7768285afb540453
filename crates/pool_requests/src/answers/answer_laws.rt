//! What an answer can't be.
ghost use Rattle.std.specs.Prelude.{◌≡◌, ℕ, Option};
ghost use Rattle.disk.specs.Crash.{Image};
ghost use Rattle.inode.specs.Read.{AreAsRead};
ghost use Rattle.layout.specs.Stands.{Stands};
ghost use Rattle.nfs_spec.specs.Model.Tree.{Tree};
ghost use Rattle.nfs_types.specs.declared.call.Call.TheVariants as call;
ghost use Rattle.nfs_types.specs.declared.ctx.Ctx.{Ctx};
ghost use Rattle.nfs_types.specs.declared.handle.Handle.{Handle};
ghost use Rattle.pool_requests.specs.Answers.Evident.{Answered, IsCommitted};
ghost use Rattle.pool_requests.specs.Answers.MayGet.{MayGet};
ghost use Rattle.pool_requests.specs.Jobs.Sent.{Sent};
ghost use Rattle.procs.specs.Outcome.{Outcome};
ghost use Rattle.session_wire.specs.declared.message.ReplyBody.{ReplyBody};
ghost use Rattle.txn.specs.Receipts.{Given};

/// The reply of a committed change is one that the job's call may get: wherever blocks have what was read for it and stand
/// for a tree, a step of the sequential server gives it there.
pub fn an_answer_is_one_that_its_call_may_get()
    ensures { (answer : Answered) (sent : Sent) (given : Given Outcome) (stable : Option ℕ)
        (is : IsCommitted answer sent given stable) (blocks : Image) (tree : Tree)
        → Stands is.finished.snap.geometry blocks tree → AreAsRead blocks given.change.read
        → MayGet tree given.change.ctx sent.job.call answer.body }
{}

/// No reply answers both a GETATTR and a COMMIT (RFC 1813, sections 3.3.1 and 3.3.21): so a constant one answers no two
/// procedures.
#[tactic(auto, using(crate::proofs::AnswersLemmas::OneProcedure::no_two))]
pub fn a_reply_answers_one_procedure()
    ensures { (tree : Tree) (other : Tree) (ctx : Ctx) (later : Ctx) (object : Handle) (asked : Handle) (offset : ℕ) (count : ℕ)
        (response : ReplyBody) → MayGet tree ctx (call.GetAttr object) response
        → MayGet other later (call.Commit asked offset count) response → ⊥ }
{}
