//! The calls of the log's two sides. A side takes changes as a batch and makes its calls one after the other: the
//! writes of its blocks, a barrier, the write that tells of them, a barrier.
ghost use Rattle.std.specs.Prelude.{◌≡◌, ◌<◌, IfSome, IsNone, IsSome, is_some, if◌then◌else◌, MatchOption};
ghost use Rattle.std.specs.Prelude.{◌+◌, nat_lt, true, false};
ghost use Rattle.wal.specs.Batch.{IsStageOf, step_at};
ghost use Rattle.wal.specs.ByRole.{has_batch, out_of, step_of, taken_by, with_role_step};
ghost use Rattle.wal.specs.Sides.{IsNextCall, call_comes_back, call_goes_out, is_out, may_call, with_back, with_out};
ghost use Rattle.circ.specs.Log.Calls.{InstCallComesBack, InstCallGoesOut, LogCallComesBack, LogCallGoesOut};
ghost use Rattle.circ.specs.Log.Effects.{HasGoneOn};
ghost use Rattle.circ.specs.Log.Installer.{IsNextInstCall, is_inst_out, may_install, with_inst_back, with_inst_out};
ghost use Rattle.circ.specs.Log.Io.{IsCallWithin};
ghost use Rattle.circ.specs.Log.Log.{IsLawful};
ghost use Rattle.circ.specs.Log.Logger.{IsNextLogCall, is_log_out, may_log, with_log_back, with_log_out};

use super::Wal;
use super::batch::Stage;
use crate::{InstIo, IoCall, LogIo, RoleIo};
use disk::{Block, Handed, Side};

impl Wal {
    /// Takes what there is for a side where it has taken nothing, and hands out the side's next call.
    pub fn next(&mut self, role: Side) -> Option<RoleIo>
        ensures lawful { IsLawful self.old }
        ensures causes { is_some result ≡ may_call role self.old }
        ensures none { IsNone result → self.new ≡ self.old }
        ensures some { IsSome result → self.new ≡ with_out role self.old }
        ensures call { IfSome result (IsNextCall role self.new) }
        ensures within { IfSome result (λ io. IsCallWithin self.new.blocks io.call) }
        ensures seen { HasGoneOn self.old self.new }
        ensures law { IfSome result (λ io. call_goes_out role self.old io self.new) }
    {
        self.next_io(role)
    }

    /// Takes a call of a side back, with whether it was made. One that isn't the call that is out changes nothing.
    /// One that failed breaks the log for good.
    pub fn done(&mut self, role: Side, io: RoleIo, ok: bool)
        ensures log { self.new ≡ (if is_out role self.old io then with_back role self.old ok else self.old) }
        ensures seen { HasGoneOn self.old self.new }
        ensures law { call_comes_back role self.old io ok self.new }
    {
        self.take_io(role, io, ok);
    }

    /// The logger's next call: the writes of the tail to its slots, a barrier, the write of the header, a barrier.
    pub fn log_next(&mut self) -> Option<LogIo>
        ensures lawful { IsLawful self.old }
        ensures causes { is_some result ≡ may_log self.old }
        ensures none { IsNone result → self.new ≡ self.old }
        ensures some { IsSome result → self.new ≡ with_log_out self.old }
        ensures call { IfSome result (IsNextLogCall self.new) }
        ensures within { IfSome result (λ io. IsCallWithin self.new.blocks io.call) }
        ensures seen { HasGoneOn self.old self.new }
        ensures law { IfSome result (λ io. LogCallGoesOut self.old io self.new) }
    {
        self.next(Side::Log)
    }

    /// Takes one back.
    pub fn log_done(&mut self, io: LogIo, ok: bool)
        ensures log { self.new ≡ (if is_log_out self.old io then with_log_back self.old ok else self.old) }
        ensures seen { HasGoneOn self.old self.new }
        ensures law { LogCallComesBack self.old io ok self.new }
    {
        self.done(Side::Log, io, ok);
    }

    /// The installer's next call: the writes of the newest logged content of each block to its home, a barrier, the
    /// write of the start behind them, a barrier.
    pub fn inst_next(&mut self) -> Option<InstIo>
        ensures causes { is_some result ≡ may_install self.old }
        ensures none { IsNone result → self.new ≡ self.old }
        ensures some { IsSome result → self.new ≡ with_inst_out self.old }
        ensures call { IfSome result (IsNextInstCall self.new) }
        ensures within { IfSome result (λ io. IsCallWithin self.new.blocks io.call) }
        ensures seen { HasGoneOn self.old self.new }
        ensures law { IfSome result (λ io. InstCallGoesOut self.old io self.new) }
    {
        self.next(Side::Home)
    }

    /// Takes one back.
    pub fn inst_done(&mut self, io: InstIo, ok: bool)
        ensures log { self.new ≡ (if is_inst_out self.old io then with_inst_back self.old ok else self.old) }
        ensures seen { HasGoneOn self.old self.new }
        ensures law { InstCallComesBack self.old io ok self.new }
    {
        self.done(Side::Home, io, ok);
    }

    // Hands a side's next call out.
    fn next_io(&mut self, role: Side) -> Option<RoleIo>
        ensures lawful { IsLawful self.old }
        ensures causes { is_some result ≡ may_call role self.old }
        ensures none { IsNone result → self.new ≡ self.old }
        ensures some { IsSome result → self.new ≡ with_out role self.old }
        ensures call { IfSome result (IsNextCall role self.new) }
        ensures within { IfSome result (λ io. IsCallWithin self.new.blocks io.call) }
    {
        let (taken, stage) = self.begun(role);
        if self.broken || taken == 0 {
            return None;
        }
        let batch = self.batches.of_mut(role);
        let buffer = batch.buffer.take()?;
        batch.taken = taken;
        batch.stage = stage;
        Some(self.io(role, buffer))
    }

    // Takes a call back.
    fn take_io(&mut self, role: Side, io: RoleIo, ok: bool)
        ensures lawful { IsLawful self.old }
        ensures log { self.new ≡ (if is_out role self.old io then with_back role self.old ok else self.old) }
    {
        let is_out = self.is_out(role, &io);
        let RoleIo {
            beginning: _,
            step: _,
            call: _,
            content,
        } = io;
        if !is_out {
            return;
        }
        let after = self.after(role);
        let batch = self.batches.of_mut(role);
        batch.buffer = Some(content.into_buffer());
        if !ok {
            self.broken = true;
            return;
        }
        match after {
            Some(stage) => batch.stage = stage,
            None => self.end(role),
        }
    }

    // What a side has taken, and its call, once its next call is out: where it has nothing, it takes what there is.
    fn begun(&self, role: Side) -> (usize, Stage)
        ensures some { nat_lt 0 result.0 ≡ has_batch role self.now }
        ensures out { 0 < result.0 → with_out role self.now
            ≡ with_role_step role self.now result.0 (step_at result.0 result.1) true }
        ensures stage { IsStageOf result.0 result.1 }
    {
        let batch = self.batches.of(role);
        if batch.taken > 0 {
            return (batch.taken, batch.stage);
        }
        let taken = self.to_take(role);
        (taken, self.body_from(role, taken, 0))
    }

    // The call is the side's that is out.
    fn is_out(&self, role: Side, io: &RoleIo) -> bool
        ensures { result ≡ is_out role self.now io.now }
    {
        let batch = self.batches.of(role);
        batch.buffer.is_none()
            && io.beginning == self.changes.start() + self.preceding(role) as u64
            && io.step == batch.step()
    }

    // The side's call after the one that is out. There is none after the last.
    fn after(&self, role: Side) -> Option<Stage>
        ensures last { IsNone result → step_of role self.now ≡ taken_by role self.now + 2 }
        ensures more { IfSome result (λ stage. with_back role self.now true
            ≡ with_role_step role self.now (taken_by role self.now) (step_at (taken_by role self.now) stage) false) }
        ensures begun { IfSome result (λ stage. 0 < step_at (taken_by role self.now) stage) }
        ensures stage { IfSome result (IsStageOf (taken_by role self.now)) }
    {
        let batch = self.batches.of(role);
        match batch.stage {
            Stage::Body(number) => Some(self.body_from(role, batch.taken, number + 1)),
            Stage::BodyBarrier => Some(Stage::Header),
            Stage::Header => Some(Stage::HeaderBarrier),
            Stage::HeaderBarrier => None,
        }
    }

    // The side's call, in a buffer.
    fn io(&self, role: Side, buffer: Block) -> RoleIo
        requires { 0 < taken_by role self.now }
        ensures call { IsNextCall role self.now result }
        ensures within { IsCallWithin self.now.blocks result.call }
    {
        let batch = self.batches.of(role);
        let (call, content) = match batch.stage {
            Stage::Body(number) => {
                let (block, content) = self.hand_body(role, number, buffer);
                (IoCall::Write(block), content)
            }
            Stage::Header => {
                let mut content = buffer;
                let block = self.put_control(role, &mut content);
                (IoCall::Write(block), Handed::own(content))
            }
            Stage::BodyBarrier | Stage::HeaderBarrier => {
                (IoCall::Barrier(role), Handed::own(buffer))
            }
        };
        RoleIo {
            beginning: self.changes.start() + self.preceding(role) as u64,
            step: batch.step(),
            call,
            content,
        }
    }
}
