//! Entries of a history, replayed over an image.
ghost use Rattle.std.specs.Prelude.{◌≡◌, ◌+◌, ◌^◌, ◌<◌, ◌≤◌, ℕ, Some, None, All, alloc_error, IfErr, IsErrOf, MatchResult, OnOk};
ghost use Rattle.nfs_spec.specs.Model.Calls.{begins_transaction};
ghost use Rattle.layout.specs.declared.version.FormatVersion.TheVariants.{Second};
ghost use Rattle.nfs_spec.specs.Model.Sound.{SoundTime};
ghost use Rattle.nfs_spec.specs.Model.Tree.{Tree};
ghost use Rattle.nfs_types.specs.Fits.{CallFits};
ghost use Rattle.procs.specs.SoundCalls.{SoundCall};
ghost use Rattle.circ.specs.Log.Recovery.{HasOnlyRead};
ghost use Rattle.store_promise.specs.Openings.{IsAnsweredFor, IsLater};
ghost use Rattle.store_images.specs.BringingHome.{CountsCause};
ghost use Rattle.store_images.specs.Opening.{HoldsTree};
ghost use Rattle.store_images.specs.Replays.AtHome.{HoldsAtHome, IsFailure};
ghost use Rattle.store_images.specs.Replays.Replayed.{CanBeReplayed, ComesOfReplay, GoesThrough, IsOfBoot, leads};

use crate::replays::home_writes::bring_home;
use crate::replays::plans::plan_over;
use crate::replays::start::begin;
use disk::{Block, CrashDisk, Failed};
use layout::Geometry;
use nfs_types::{Call, Ctx};
use procs::begins_transaction;
use std::alloc::Global;
use store_promise::OpenFault;
use txn::Change;

/// Replays entries on an image, one after another. What its log has is brought home, and its boot number rises, as in
/// an opening. Then each call is planned with its own context, over what is at home, and what it writes goes home and
/// is settled. So it needs no core, log or locks, and what stops on the way may leave an image in part: it is for
/// copies of images, to tell which files a history is to have. A call that begins no transaction, as NULL, is passed over.
/// An image is refused as an opening refuses it, before anything is written. Later only Device and NoMemory come.
/// Device comes just where a call of the device failed, and NoMemory leaves the files after a beginning of the entries.
#[tactic(auto, using(store_promise::proofs::Later::past_more, store_promise::proofs::Later::past_one, store_promise::proofs::Later::past_none))]
pub fn replay<D: CrashDisk>(
    alloc: Global,
    disk: &mut D,
    entries: &[(Ctx, Call)],
) -> Result<(), OpenFault>
    requires { All CanBeReplayed entries.now }
    ensures answered { MatchResult result
        (λ _. IsAnsweredFor (D.keeps_model disk.new) None (D.device disk.old) (D.device disk.new))
        (λ cause. IsAnsweredFor (D.keeps_model disk.new) (Some cause) (D.device disk.old) (D.device disk.new)) }
    ensures counted { IfErr result (λ cause. CountsCause cause (D.device disk.old) (D.device disk.new)) }
    ensures replayed { (tree : Tree) (first : ℕ) → HoldsTree (D.device disk.old) tree first
        → All (IsOfBoot (first + 1)) entries.now → D.keeps_model disk.new
        → ComesOfReplay (D.device disk.old) (D.device disk.new) tree first entries.now result }
    ensures model { D.keeps_model disk.new → D.keeps_model disk.old }
{
    let mut block = Block::zeros(alloc)?;
    let geometry = begin(alloc, disk, &mut block)?;
    replay_all(alloc, disk, &mut block, geometry, entries)
}

// Replays entries on an image in whose log is nothing.
#[tactic(auto, using(store_promise::proofs::Later::past_more, store_promise::proofs::Later::past_one, store_promise::proofs::Later::past_none))]
fn replay_all<D: CrashDisk>(
    alloc: Global,
    disk: &mut D,
    block: &mut Block,
    geometry: Geometry,
    entries: &[(Ctx, Call)],
) -> Result<(), OpenFault>
    requires newest { geometry.version ≡ Second }
    requires size { geometry.blocks ≡ (D.device disk.old).size }
    requires can { All CanBeReplayed entries.now }
    ensures later { IsLater (D.device disk.old) (D.device disk.new) }
    ensures failure { MatchResult result (λ _. (D.device disk.new).failures ≡ (D.device disk.old).failures)
        (λ cause. IsFailure cause (D.device disk.old) (D.device disk.new)) }
    ensures replayed { (tree : Tree) (boot : ℕ) → HoldsAtHome geometry (D.device disk.old) tree boot
        → All (IsOfBoot boot) entries.now → D.keeps_model disk.new
        → GoesThrough geometry (D.device disk.new) tree boot entries.now result }
    ensures model { D.keeps_model disk.new → D.keeps_model disk.old }
{
    'entries: for entry in entries {
        replay_one(alloc, disk, block, geometry, &entry.0, &entry.1)?;
    }
    Ok(())
}

// Replays one entry.
#[tactic(auto, using(store_promise::proofs::Later::past_more, store_promise::proofs::Later::past_one, store_promise::proofs::Later::past_none, store_promise::proofs::Later::read_later))]
fn replay_one<D: CrashDisk>(
    alloc: Global,
    disk: &mut D,
    block: &mut Block,
    geometry: Geometry,
    ctx: &Ctx,
    call: &Call,
) -> Result<(), OpenFault>
    requires newest { geometry.version ≡ Second }
    requires size { geometry.blocks ≡ (D.device disk.old).size }
    requires timely { SoundTime ctx.now.moment }
    requires spelled { CallFits call.now }
    ensures later { IsLater (D.device disk.old) (D.device disk.new) }
    ensures failure { MatchResult result (λ _. (D.device disk.new).failures ≡ (D.device disk.old).failures)
        (λ cause. IsFailure cause (D.device disk.old) (D.device disk.new)) }
    ensures is_preserved { IsErrOf result (OpenFault.NoMemory alloc_error) → HasOnlyRead (D.device disk.old) (D.device disk.new) }
    ensures replayed { (tree : Tree) (boot : ℕ) → HoldsAtHome geometry (D.device disk.old) tree boot
        → ctx.now.boot ≤ boot → D.keeps_model disk.new → OnOk result ((next : Tree)
        × leads (begins_transaction call.now) tree ctx.now call.now next
        × HoldsAtHome geometry (D.device disk.new) next boot) }
    ensures model { D.keeps_model disk.new → D.keeps_model disk.old }
{
    nfs_spec::no_step_makes_a_later_stamp();
    if !begins_transaction(call) {
        return Ok(());
    }
    fit_32_bits(ctx.credential.uid, ctx.credential.gid);
    let done = plan_over(alloc, disk, block, geometry, ctx, call)?;
    match bring_home(disk, block, done.written()) {
        Ok(()) => Ok(()),
        Err(Failed) => Err(OpenFault::Device),
    }
}

// Numbers that are told in 32 bits.
fn fit_32_bits(uid: u32, gid: u32)
    ensures uid { uid < 2 ^ 32 }
    ensures gid { gid < 2 ^ 32 }
{
    let _ = (uid, gid);
}
