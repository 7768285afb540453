//! A planner beside plans that restart on what it has read.
ghost use Rattle.std.specs.Prelude.{◌≡◌, ◌^◌, ◌<◌, true};
ghost use Rattle.nfs_spec.specs.Model.Calls.{begins_transaction};
ghost use Rattle.nfs_spec.specs.Model.Sound.{SoundTime};
ghost use Rattle.nfs_types.specs.Fits.{CallFits};

use disk::{CrashDisk, MemDisk};
use layout::Geometry;
use nfs_results::encode_reply;
use nfs_types::{Call, Ctx};
use objects::{Object, extract};
use procs::{Done, Plan, Planner, plan, reading_mode};
use std::alloc::Global;
use std::test::Fail;
use txn::Change;

// More than any call of the rows asks for.
const MOST_ASKED: usize = 4000;

// Whether objects lie at the same addresses and have the same bytes.
fn are_same(some: &[Object], others: &[Object]) -> bool {
    if some.len() != others.len() {
        return false;
    }
    for (one, other) in some.iter().zip(others.iter()) {
        if one.addr() != other.addr() || one.bytes() != other.bytes() {
            return false;
        }
    }
    true
}

// Whether two finished plans reply, have read and write the same.
fn is_same(alloc: Global, one: &Done, other: &Done) -> Result<bool, Fail> {
    let reply = encode_reply(alloc, one.reply())?;
    let other_reply = encode_reply(alloc, other.reply())?;
    Ok(
        reply.as_slice() == other_reply.as_slice()
            && are_same(one.read(), other.read())
            && are_same(one.written(), other.written()),
    )
}

// Numbers that are told in 32 bits.
fn fit_32_bits(uid: u32, gid: u32)
    ensures uid { uid < 2 ^ 32 }
    ensures gid { gid < 2 ^ 32 }
{
    let _ = (uid, gid);
}

/// Whether a planner over the homes of an image asks, claims and ends as a plan that restarts, each time.
pub(crate) fn plans_alike(
    alloc: Global,
    disk: &MemDisk,
    geometry: Geometry,
    from: u32,
    ctx: &Ctx,
    call: &Call,
) -> Result<bool, Fail>
    requires served { begins_transaction call.now ≡ true }
    requires timely { SoundTime ctx.now.moment }
    requires spelled { CallFits call.now }
{
    fit_32_bits(ctx.credential.uid, ctx.credential.gid);
    let mut planner = Planner::new(alloc, geometry.newest(), from, reading_mode(call));
    for _ in 0..MOST_ASKED {
        planner.reserve_next()?;
        let restarted = plan(alloc, ctx, call, &planner.snap);
        match (planner.next(alloc, ctx, call), restarted) {
            (Plan::Need(addr, mode), Plan::Need(other, other_mode)) => {
                if addr != other || mode != other_mode {
                    return Ok(false);
                }
                if addr.block.0 >= disk.blocks() {
                    return Ok(false);
                }
                let bytes = extract(alloc, disk.newest(addr.block), addr)?;
                planner.add(addr, mode, bytes);
            }
            (Plan::Claim(block), Plan::Claim(other)) => {
                if block != other {
                    return Ok(false);
                }
                planner.claimed(block);
            }
            (Plan::Done(one), Plan::Done(other)) => return is_same(alloc, &one, &other),
            _ => return Ok(false),
        }
    }
    Ok(false)
}
