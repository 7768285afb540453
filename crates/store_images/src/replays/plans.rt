//! A call's plan, with all that it asks for read from home.
ghost use Rattle.std.specs.Prelude.{◌≡◌, ◌++◌, ◌∷◌, [], true, ℕ, List, All, IfOk, MatchResult, OnOk};
ghost use Rattle.layout.specs.declared.version.FormatVersion.TheVariants.{Second};
ghost use Rattle.layout.specs.Homes.{homes_of};
ghost use Rattle.nfs_spec.specs.Model.Calls.{begins_transaction};
ghost use Rattle.objects.specs.Object.{ObjectBytes};
ghost use Rattle.circ.specs.Log.Log.{IsHomeOn};
ghost use Rattle.circ.specs.Log.Recovery.{HasOnlyRead, IsCertain, image_of};
ghost use Rattle.inode.specs.Read.{Saw};
ghost use Rattle.inode.specs.Snap.{HasReserved};
ghost use Rattle.procs.specs.SoundCalls.{SoundCall};
ghost use Rattle.store_images.specs.Replays.AtHome.{HasAdded, IsFailure, LeadsOver};

use disk::{Block, CrashDisk, Failed};
use inode::Snap;
use layout::Geometry;
use nfs_types::{Call, Ctx};
use objects::{Addr, Mode, extract};
use procs::{
    Done, Plan, a_plan_asks_for_few, a_plan_claims_few, plan, what_is_asked_for_counts,
    what_is_claimed_was_asked_for, what_is_read_was_asked_for,
};
use std::alloc::Global;
use store_promise::OpenFault;

/// What comes of a call by its plan, over an image in whose log is nothing. It only reads.
#[tactic(auto, using(circ::proofs::LogLemmas::OnlyRead::reads_then, circ::proofs::LogLemmas::OnlyRead::no_read, circ::proofs::LogLemmas::OnlyRead::single_read))]
pub(crate) fn plan_over<D: CrashDisk>(
    alloc: Global,
    disk: &mut D,
    block: &mut Block,
    geometry: Geometry,
    ctx: &Ctx,
    call: &Call,
) -> Result<Done, OpenFault>
    requires newest { geometry.version ≡ Second }
    requires size { geometry.blocks ≡ (D.device disk.old).size }
    requires served { begins_transaction call.now ≡ true }
    requires sound { SoundCall ctx.now.credential ctx.now.moment call.now }
    ensures reads { HasOnlyRead (D.device disk.old) (D.device disk.new) }
    ensures failure { MatchResult result (λ _. (D.device disk.new).failures ≡ (D.device disk.old).failures)
        (λ cause. IsFailure cause (D.device disk.old) (D.device disk.new)) }
    ensures home { IfOk result
        (λ done. All (λ object. IsHomeOn (D.device disk.old).size object.addr.block) done.written) }
    ensures leads { D.keeps_model disk.new → IsCertain (D.device disk.old) → IfOk result (λ done.
        LeadsOver geometry (homes_of geometry.blocks (image_of (D.device disk.old))) ctx.now call.now done) }
    ensures model { D.keeps_model disk.new → D.keeps_model disk.old }
{
    layout::objects_lie_at_home();
    what_is_read_was_asked_for();
    what_is_asked_for_counts();
    a_plan_asks_for_few();
    what_is_claimed_was_asked_for();
    a_plan_claims_few();
    let mut snap = Snap::new(alloc, geometry, 0, Mode::Exclusive);
    'asks: loop {
        snap.reserve_next()?;
        match plan(alloc, ctx, call, &snap) {
            Plan::Need(addr, mode) => read_object(alloc, disk, block, &mut snap, addr, mode)?,
            Plan::Claim(number) => snap.claimed(number),
            Plan::Done(done) => return Ok(done),
            Plan::NoMemory(error) => return Err(OpenFault::NoMemory(error)),
        }
    }
}

// Reads an object for a call.
#[tactic(auto, using(circ::proofs::LogLemmas::OnlyRead::reads_then, circ::proofs::LogLemmas::OnlyRead::no_read, circ::proofs::LogLemmas::OnlyRead::single_read))]
fn read_object<D: CrashDisk>(
    alloc: Global,
    disk: &mut D,
    block: &mut Block,
    snap: &mut Snap,
    addr: Addr,
    mode: Mode,
) -> Result<(), OpenFault>
    requires home { IsHomeOn (D.device disk.old).size addr.block }
    requires has_space { HasReserved snap.old }
    ensures reads { HasOnlyRead (D.device disk.old) (D.device disk.new) }
    ensures failure { MatchResult result (λ _. (D.device disk.new).failures ≡ (D.device disk.old).failures)
        (λ cause. IsFailure cause (D.device disk.old) (D.device disk.new)) }
    ensures added { OnOk result (HasAdded addr mode snap.old snap.new) }
    ensures saw { D.keeps_model disk.new → IsCertain (D.device disk.old)
        → OnOk result (Saw (homes_of (D.device disk.old).size (image_of (D.device disk.old))) snap.old
        → Saw (homes_of (D.device disk.old).size (image_of (D.device disk.old))) snap.new) }
    ensures model { D.keeps_model disk.new → D.keeps_model disk.old }
{
    if let Err(Failed) = disk.read(addr.block, block) {
        return Err(OpenFault::Device);
    }
    let bytes = extract(alloc, block, addr)?;
    snap.add(addr, mode, bytes);
    Ok(())
}
