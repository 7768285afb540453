//! The logger or the installer between two steps.
ghost use Rattle.std.specs.Prelude.{◌≡◌, None, Some, MatchOption, false};
ghost use Rattle.disk.specs.declared.block.Side.{Side};
ghost use Rattle.wal_calls.specs.Callers.Making.{IsDue, IsMadeOn, IsTried, IsTriedOn};
ghost use Rattle.wal_calls.specs.Callers.Steps.{comes_back, goes_out, HasEnded, HasStepped};
ghost use Rattle.wal.specs.Sides.{call_is_made, may_call};

use crate::callers::Stepped;
use crate::callers::calls::{is_within, was_ok};
use crate::callers::options::put;
use disk::{CrashDisk, Failed, Port, Side};
use txn::{Change, Core, RoleIo};
use wal::IoCall;

/// Who makes the device calls of one side, the logger those of the log's, the installer those of the home side: its
/// call that is out, and once that was made, whether it was answered Ok. It isn't let go with a call that is out: that
/// goes back to the core. Each step names the side.
pub struct Caller {
    pub(crate) io: Option<RoleIo>,
    pub(crate) made: Option<bool>,
}

/// The one of the log's side.
pub type Logger = Caller;

/// The one of the home side.
pub type Installer = Caller;

impl Caller {
    /// Nothing is out.
    pub fn new() -> Caller
        ensures { (result.io ≡ None) × (result.made ≡ None) }
    {
        Caller {
            io: None,
            made: None,
        }
    }

    /// The device call that is out.
    pub fn out(&self) -> Option<&RoleIo>
        ensures { MatchOption result (self.now.io ≡ None) (λ io. self.now.io ≡ Some io.now) }
    {
        self.io.as_ref()
    }

    /// The device call to make: the one that is out, where it wasn't made.
    pub fn due(&self) -> Option<IoCall>
        ensures { IsDue self.now.io self.now.made result }
    {
        if self.made.is_some() {
            return None;
        }
        match self.io.as_ref() {
            Some(io) => Some(io.call()),
            None => None,
        }
    }

    /// One step on the core: gives back the call that was made; or, where none is out, takes the next.
    pub fn step<C: Change>(&mut self, side: Side, core: &mut Core<C>) -> Option<Stepped>
        ensures step { HasStepped (may_call side) (goes_out side) (comes_back side) core.old self.old.io self.old.made
            result core.new self.new.io self.new.made }
        ensures blocks { core.new.log.blocks ≡ core.old.log.blocks }
        ensures inodes { core.new.inodes ≡ core.old.inodes }
    {
        let Some(io) = self.io.take() else {
            let io = next(side, core)?;
            let call = io.call();
            self.made = None;
            put(&mut self.io, io);
            return Some(Stepped::Next(call));
        };
        match self.made.take() {
            Some(ok) => {
                done(side, core, io, ok);
                Some(Stepped::Done(ok))
            }
            None => {
                put(&mut self.io, io);
                None
            }
        }
    }

    /// Makes the call that is out on a disk, where it wasn't made, and tells whether it was answered Ok. One that
    /// doesn't lie on the disk has failed, and asks nothing of it.
    pub fn make<D: CrashDisk>(&mut self, disk: &mut D) -> Option<bool>
        ensures made { (side : Side) → IsTried (call_is_made side) (D.device disk.old) self.old.io self.old.made result
            (D.device disk.new) self.new.made }
        ensures io { self.new.io ≡ self.old.io }
        ensures size { (D.device disk.new).size ≡ (D.device disk.old).size }
        ensures model { D.keeps_model disk.new → D.keeps_model disk.old }
    {
        if self.made.is_some() {
            return None;
        }
        let io = self.io.as_ref()?;
        let ok = make_on_disk(io, disk);
        self.made = Some(ok);
        Some(ok)
    }

    /// Makes the call that is out on a port, where it wasn't made, and tells the port's answer.
    pub fn make_on<P: Port>(&mut self, port: &mut P) -> Option<Result<(), Failed>>
        ensures made { IsTriedOn (P.calls port.old) self.old.io self.old.made result (P.calls port.new)
            self.new.made }
        ensures io { self.new.io ≡ self.old.io }
        ensures side { P.on port.new ≡ P.on port.old }
    {
        if self.made.is_some() {
            return None;
        }
        let io = self.io.as_ref()?;
        let made = io.perform_on(port);
        self.made = Some(made.is_ok());
        Some(made)
    }

    /// Ends it: the call that is out is given back by its answer, or as failed where it wasn't made.
    pub fn end<C: Change>(self, side: Side, core: &mut Core<C>)
        ensures back { HasEnded (comes_back side) core.old self.io self.made core.new }
        ensures blocks { core.new.log.blocks ≡ core.old.log.blocks }
        ensures inodes { core.new.inodes ≡ core.old.inodes }
        ensures calls { (core.new.log_calls ≡ core.old.log_calls) × (core.new.inst_calls ≡ core.old.inst_calls) }
        ensures boot { core.new.boot ≡ core.old.boot }
    {
        let Caller { io, made } = self;
        if let Some(io) = io {
            done(side, core, io, was_ok(made));
        }
    }
}

// The core's next call of a side.
fn next<C: Change>(side: Side, core: &mut Core<C>) -> Option<RoleIo>
    ensures next { MatchOption result ((core.new ≡ core.old) × (may_call side core.old.log ≡ false))
        (λ io. goes_out side core.old io core.new) }
    ensures blocks { core.new.log.blocks ≡ core.old.log.blocks }
    ensures inodes { core.new.inodes ≡ core.old.inodes }
{
    core.next(side)
}

// Gives the core a call of a side back.
fn done<C: Change>(side: Side, core: &mut Core<C>, io: RoleIo, ok: bool)
    ensures back { comes_back side core.old io ok core.new }
    ensures blocks { core.new.log.blocks ≡ core.old.log.blocks }
    ensures inodes { core.new.inodes ≡ core.old.inodes }
    ensures calls { (core.new.log_calls ≡ core.old.log_calls) × (core.new.inst_calls ≡ core.old.inst_calls) }
    ensures boot { core.new.boot ≡ core.old.boot }
{
    core.done(side, io, ok);
}

// Makes a call on a disk, and answers whether that answered Ok.
#[tactic(auto, using(crate::proofs::CallersLemmas::Made::made_size))]
fn make_on_disk<D: CrashDisk>(io: &RoleIo, disk: &mut D) -> bool
    ensures made { (side : Side) → IsMadeOn (call_is_made side) (D.device disk.old) io.now result
        (D.device disk.new) }
    ensures size { (D.device disk.new).size ≡ (D.device disk.old).size }
    ensures model { D.keeps_model disk.new → D.keeps_model disk.old }
{
    if !is_within(io.call(), disk.blocks()) {
        return false;
    }
    io.perform(disk).is_ok()
}
