//! What was worked out for a call.
ghost use Rattle.std.specs.Prelude.{◌≡◌, ◌≤◌, length, IfOk};
ghost use Rattle.base.specs.declared.TheConstants.{CHANGED_BLOCKS};
ghost use Rattle.txn.specs.Group.{blocks_of};

use inode::Snap;
use nfs_types::{Call, Ctx, Reply};
use std::alloc::AllocError;
use std::marker::Model;
use std::snapshot::Snapshot;
use txn::Object;

/// What was worked out for a call, which is kept for proofs alone. It writes no more blocks than a transaction
/// changes. It lies in a box, as a reply is long and each function that hands it on would copy it.
#[derive(Drop)]
pub(crate) struct UntestedPlan {
    parts: Box<UntestedPlanParts>,
}

#[derive(Drop)]
pub(crate) struct UntestedPlanParts {
    ctx: Snapshot<Ctx>,
    asked: Snapshot<Call>,
    pub(crate) reply: Reply,
    pub(crate) read: Vec<Object>,
    pub(crate) written: Vec<Object>,
    pub(crate) blocks: u32,
    pub(crate) inodes: u32,
}

impl Model for UntestedPlan {
    ghost use Rattle.std.specs.Prelude.{◌≤◌, length};
    ghost use Rattle.base.specs.declared.TheConstants.{CHANGED_BLOCKS};
    ghost use Rattle.txn.specs.Group.{blocks_of};
    ghost use Rattle.procs.specs.Outcome.{Outcome};

    ghost Value = { Outcome };

    ghost view = { λ untested_plan. record {
      ctx = untested_plan.parts.value.ctx.value;
      asked = untested_plan.parts.value.asked.value;
      reply = untested_plan.parts.value.reply;
      read = untested_plan.parts.value.read.items;
      written = untested_plan.parts.value.written.items;
      blocks = untested_plan.parts.value.blocks;
      inodes = untested_plan.parts.value.inodes;
    } };

    ghost invariant = { λ untested_plan. length (blocks_of untested_plan.parts.value.written.items) ≤ CHANGED_BLOCKS };
}

impl UntestedPlan {
    ghost use Rattle.procs.specs.Outcome.{IsDoneFor, IsMadeFor};

    /// What comes of a call, worked out from all that was read.
    pub(crate) fn new(
        ctx: &Ctx,
        call: &Call,
        snap: &Snap,
        reply: Reply,
        written: Vec<Object>,
    ) -> Result<UntestedPlan, AllocError>
        requires { length (blocks_of written.items) ≤ CHANGED_BLOCKS }
        ensures made { IfOk result (λ done. IsMadeFor ctx.now call.now done) }
        ensures snap { IfOk result (λ done. IsDoneFor snap.now done) }
        ensures reply { IfOk result (λ done. done.reply ≡ reply) }
        ensures written { IfOk result (λ done. done.written ≡ written.items) }
    {
        let alloc = *snap.objects.allocator();
        let parts = UntestedPlanParts {
            ctx: Snapshot::of(ctx),
            asked: Snapshot::of(call),
            reply,
            read: snap.objects.clone()?,
            written,
            blocks: snap.geometry.blocks,
            inodes: snap.geometry.inodes,
        };
        Ok(UntestedPlan {
            parts: Box::new(alloc, parts)?,
        })
    }

    /// The reply.
    pub(crate) fn reply(&self) -> &Reply
        ensures { result.now ≡ self.now.reply }
    {
        &self.parts.reply
    }

    /// The reply, by itself.
    pub(crate) fn into_reply(self) -> Reply
        ensures { result ≡ self.reply }
    {
        Box::into_inner(self.parts).reply
    }

    /// The objects that were read for it.
    pub(crate) fn read(&self) -> &[Object]
        ensures { result.now ≡ self.now.read }
    {
        &self.parts.read
    }

    /// The objects that it writes.
    pub(crate) fn written(&self) -> &[Object]
        ensures { result.now ≡ self.now.written }
    {
        &self.parts.written
    }

    /// How many blocks the image has.
    pub(crate) fn blocks(&self) -> u32
        ensures { result ≡ self.now.blocks }
    {
        self.parts.blocks
    }

    /// How many inodes it has.
    pub(crate) fn inodes(&self) -> u32
        ensures { result ≡ self.now.inodes }
    {
        self.parts.inodes
    }

    /// It writes few blocks.
    pub(crate) fn few(&self)
        ensures { length (blocks_of self.now.written) ≤ CHANGED_BLOCKS }
    {
        let _ = &self.parts;
    }
}
