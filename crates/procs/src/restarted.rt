//! What a planner goes by beside a run, and a plan that is restarted.
ghost use Rattle.std.specs.Prelude.{◌≡◌, true, IfOk, Some};
ghost use Rattle.nfs_spec.specs.Model.Calls.{begins_transaction};
ghost use Rattle.inode.specs.declared.snap.Snap.{Snap};
ghost use Rattle.procs.specs.Planned.{IsPlanFor, IsPlanOf, IsStepPlan};
ghost use Rattle.procs.specs.Planning.{AreOf, IsKnownBy};
ghost use Rattle.procs.specs.Refused.{IsIoWhereRefused};
ghost use Rattle.procs.specs.SoundCalls.{SoundCall};

use crate::next::Plan;
use crate::work::run;
use dir::Names;
use inode::{Snap, Suspend};
use nfs_types::{Call, Ctx};
use std::alloc::{AllocError, Global};

/// The names of a call, unless it was begun to look for them before.
pub(crate) fn names_of(
    alloc: Global,
    call: &Call,
    names: Option<Names>,
) -> Result<Names, AllocError>
    ensures known { IfOk result (λ known. (snap : Snap) → IsKnownBy snap names → IsKnownBy snap (Some known)) }
    ensures of { IfOk result (λ known. AreOf call.now names → AreOf call.now (Some known)) }
{
    match names {
        Some(names) => Ok(names),
        None => match Names::begin(alloc, call) {
            Ok(names) => Ok(names),
            Err(error) => Err(error),
        },
    }
}

/// Whether a run stopped for what a search stopped for.
pub(crate) fn is_same(next: &Plan, search: &Result<(), Suspend>) -> bool {
    match (next, search) {
        (Plan::Need(addr, mode), Err(Suspend::Need(wanted, request))) => {
            *addr == *wanted && *mode == *request
        }
        _ => false,
    }
}

/// What a call needs next, or what comes of it, by what was read so far: a planner restarted on all of it.
pub fn plan(alloc: Global, ctx: &Ctx, call: &Call, snap: &Snap) -> Plan
    requires served { begins_transaction call.now ≡ true }
    requires sound { SoundCall ctx.now.credential ctx.now.moment call.now }
    ensures plan { IsPlanFor snap.now result }
    ensures made { IsPlanOf ctx.now call.now result }
    ensures step { IsStepPlan snap.now.geometry ctx.now call.now result }
    ensures io { IsIoWhereRefused call.now snap.now result }
{
    let mut names = match Names::begin(alloc, call) {
        Ok(names) => names,
        Err(error) => return Plan::NoMemory(error),
    };
    let _ = names.go_on(snap);
    run(alloc, ctx, call, snap, &names)
}
