//! Laws on what no plan ends in.
ghost use Rattle.std.specs.Prelude.{◌≡◌, ◌<◌, ℕ, Some, Ok};
ghost use Rattle.std.specs.FinSet.{FinSet};
ghost use Rattle.std.specs.Ordering.{nat_cmp};
ghost use Rattle.disk.specs.Crash.{Image};
ghost use Rattle.nfs_types.specs.declared.reply.Reply.TheVariants.{Null};
ghost use Rattle.nfs_spec.specs.Model.Node.{Regular};
ghost use Rattle.nfs_spec.specs.Model.Tree.{Tree, node_at};
ghost use Rattle.nfs_spec.specs.Procedures.Step.{step};
ghost use Rattle.layout.specs.Decode.{inode_at, node_with};
ghost use Rattle.layout.specs.Stands.{Stands};
ghost use Rattle.layout.specs.declared.inode.Inode.{Inode};
ghost use Rattle.layout.specs.declared.inode.InodeKind.TheVariants as kinds;
ghost use Rattle.txn.specs.Window.{with_objects};
ghost use Rattle.inode.specs.Read.{AreAsRead};
ghost use Rattle.procs.specs.Finished.{IsFinished};
ghost use Rattle.procs.specs.Outcome.{Outcome};
ghost use Rattle.procs.specs.FileBytes.{bytes_in};

/// A reply that no step has is no finished plan's: as that to NULL, which begins no transaction.
#[tactic(auto, using(crate::proofs::NoPlan::no_null))]
pub fn a_reply_that_no_step_has_is_no_plan()
    ensures { (done : Outcome) (finished : IsFinished done) (blocks : Image) (tree : Tree)
        → Stands finished.snap.geometry blocks tree → AreAsRead blocks done.read → done.reply ≡ Null → ⊥ }
{}

/// A finished plan leaves, in the blocks of each regular file, the bytes that this file has in a tree that its step
/// leads to. So other bytes in a claimed block that a file has then are no finished plan's.
pub fn other_bytes_than_the_files_are_no_plan()
    ensures { (done : Outcome) (finished : IsFinished done) (blocks : Image) (tree : Tree)
        → Stands finished.snap.geometry blocks tree → AreAsRead blocks done.read
        → (number : ℕ) (inode : Inode) → number < finished.snap.geometry.inodes
        → inode_at finished.snap.geometry (with_objects blocks done.written) number ≡ Ok (Some inode)
        → inode.kind ≡ kinds.Regular
        → ((next : Tree) (mapped : FinSet nat_cmp) → step tree done.ctx done.asked done.reply next
        → node_at next number ≡ Some (node_with inode (Regular
        (bytes_in finished.snap.geometry (with_objects blocks done.written) inode) mapped)) → ⊥) → ⊥ }
{}
