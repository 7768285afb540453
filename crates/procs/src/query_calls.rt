//! Calls that only tell something, over the blocks of an image.
ghost use Rattle.std.specs.Prelude.{◌≡◌, true, [], IfErr, IfOk};
ghost use Rattle.inode.specs.Snap.{IsNew};
ghost use Rattle.dir.specs.Search.Known.{IsKnown};
ghost use Rattle.procs_dispatch.specs.Kinds.{tells};
ghost use Rattle.procs.specs.Asks.{IsAsked};
ghost use Rattle.procs.specs.Finished.{EndsFrom};
ghost use Rattle.procs.specs.Outcome.{IsDoneFor, IsMadeFor};
ghost use Rattle.procs.specs.Steps.{IsStepOf, NoneStandFor};

use crate::untested_plan::UntestedPlan;
use dir::Names;
use inode::{Snap, Suspend};
use nfs_types::{Call, Ctx, Reply};
use procs_blocks::BlockFiles;
use procs_dispatch::tell;
use std::alloc::{AllocError, Global};

/// What is done without a write.
pub(crate) fn read_only_plan(
    alloc: Global,
    ctx: &Ctx,
    call: &Call,
    snap: &Snap,
    reply: Reply,
) -> Result<UntestedPlan, AllocError>
    ensures made { IfOk result (λ done. IsMadeFor ctx.now call.now done) }
    ensures done { IfOk result (λ done. IsDoneFor snap.now done) }
    ensures reply { IfOk result (λ done. done.reply ≡ reply) }
    ensures written { IfOk result (λ done. done.written ≡ []) }
{
    UntestedPlan::new(ctx, call, snap, reply, Vec::new(alloc))
}

/// A call that only tells something, or refuses to make a special file (RFC 1813, section 3.3).
pub(crate) fn tell_call(
    alloc: Global,
    ctx: &Ctx,
    call: &Call,
    snap: &Snap,
    names: &Names,
) -> Result<UntestedPlan, Suspend>
    requires tells { tells call.now ≡ true }
    requires known { IsKnown snap.now names.now }
    ensures made { IfOk result (λ done. IsMadeFor ctx.now call.now done) }
    ensures ok { IfOk result (λ done. EndsFrom snap.now done) }
    ensures step { IfOk result (λ done. IsStepOf snap.now.geometry ctx.now call.now done) }
    ensures err { IfErr result (λ suspend. IsNew snap.now suspend) }
    ensures asks { IfErr result (λ suspend. IsAsked snap.now suspend) }
    ensures io { IfErr result (λ suspend. NoneStandFor ctx.now call.now snap.now suspend) }
{
    let files = BlockFiles::searched(alloc, snap, names);
    match tell(alloc, &files, ctx, call) {
        Ok(answer) => match answer {
            Some(reply) => Ok(read_only_plan(alloc, ctx, call, snap, reply)?),
            None => unreachable!(),
        },
        Err(suspend) => Err(suspend),
    }
}
