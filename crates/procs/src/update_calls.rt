//! Calls that change files, over the blocks of an image.
ghost use Rattle.std.specs.Prelude.{◌≡◌, ◌^◌, ◌<◌, true, IfErr, IfOk};
ghost use Rattle.inode.specs.Snap.{IsNew};
ghost use Rattle.procs_dispatch.specs.Kinds.{changes};
ghost use Rattle.procs.specs.Asks.{IsAsked};
ghost use Rattle.procs.specs.Finished.{EndsFrom};
ghost use Rattle.procs.specs.Outcome.{IsMadeFor};
ghost use Rattle.procs.specs.Steps.{IsStepOf, NoneStandFor};

use crate::untested_plan::UntestedPlan;
use inode::{Snap, Suspend};
use nfs_types::{Call, Ctx};
use procs_blocks::WriteSetFiles;
use procs_dispatch::change;
use std::alloc::Global;

// Numbers that are told in 64 bits.
fn fit_64_bits(boot: u64, transaction: u64)
    ensures boot { boot < 2 ^ 64 }
    ensures transaction { transaction < 2 ^ 64 }
{
    let _ = (boot, transaction);
}

/// A call that changes files (RFC 1813, section 3.3).
pub(crate) fn change_call(
    alloc: Global,
    ctx: &Ctx,
    call: &Call,
    snap: &Snap,
) -> Result<UntestedPlan, Suspend>
    requires { changes call.now ≡ true }
    ensures made { IfOk result (λ done. IsMadeFor ctx.now call.now done) }
    ensures ok { IfOk result (λ done. EndsFrom snap.now done) }
    ensures step { IfOk result (λ done. IsStepOf snap.now.geometry ctx.now call.now done) }
    ensures err { IfErr result (λ suspend. IsNew snap.now suspend) }
    ensures asks { IfErr result (λ suspend. IsAsked snap.now suspend) }
    ensures io { IfErr result (λ suspend. NoneStandFor ctx.now call.now snap.now suspend) }
{
    fit_64_bits(ctx.boot, ctx.transaction);
    let mut files = WriteSetFiles::new(alloc, inode::WriteSet::begin(alloc, snap)?);
    match change(alloc, &mut files, ctx, call) {
        Ok(Some(reply)) => {
            let written = files.into_write_set().into_written();
            Ok(UntestedPlan::new(ctx, call, snap, reply, written)?)
        }
        Ok(None) => unreachable!(),
        Err(suspend) => Err(suspend),
    }
}
