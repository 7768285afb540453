//! Plans that go on: what a call needs next, asked for as it was read.
ghost use Rattle.std.specs.Prelude.{◌≡◌};
ghost use Rattle.inode.specs.Snap.{AreSeen};
ghost use Rattle.procs.specs.Planning.{IsKnownBy};

use crate::ahead::{Ahead, behind};
use crate::next::Plan;
use crate::restarted::{is_same, names_of};
use crate::searched::go_on_behind;
use crate::work::run;
use dir::Names;
use disk::BlockNo;
use inode::{Snap, Suspend};
use layout::{Geometry, PIECE_BITS};
use nfs_types::{Call, Ctx};
use objects::{Addr, Mode, SharedBytes};
use std::alloc::{AllocError, Global};

/// What was read for a call so far, and what its plans have found out: how far its names were looked for, of which it
/// is known that it is so, and what is asked for behind the last run without another, of which nothing is claimed.
#[derive(Drop)]
pub struct Planner {
    pub snap: Snap,
    names: Option<Names>,
    searches: Option<bool>,
    ahead: Ahead,
    ghost known: { IsKnownBy snap names },
    ghost exclusives: { AreSeen snap.exclusives.items snap.objects.items },
}

impl Planner {
    ghost use Rattle.std.specs.Prelude.{◌++◌, ◌∷◌, ◌≤◌, ◌*◌, ℕ, [], None, Some, Ok, true, length, IfSome, OnOk};
    ghost use Rattle.base.specs.declared.TheConstants.{HANDLE_BYTES, SLOTS_PER_BLOCK};
    ghost use Rattle.disk.specs.Crash.{Image};
    ghost use Rattle.nfs_types.specs.declared.call.Call.{Call};
    ghost use Rattle.nfs_types.specs.declared.call.DirectoryName.{DirectoryName};
    ghost use Rattle.nfs_spec.specs.Model.Calls.{begins_transaction};
    ghost use Rattle.nfs_spec.specs.Model.Find.{number_in};
    ghost use Rattle.layout.specs.declared.inode.Inode.{Inode};
    ghost use Rattle.layout.specs.declared.version.FormatVersion.TheVariants.{Second};
    ghost use Rattle.layout.specs.Decode.{inode_at, span_of};
    ghost use Rattle.inode.specs.declared.snap.Snap.{Snap};
    ghost use Rattle.inode.specs.Read.{Saw};
    ghost use Rattle.inode.specs.Snap.{HasReserved, with_mode, with_read};
    ghost use Rattle.dir.specs.Search.Known.{IsKnown, IsOfCall};
    ghost use Rattle.dir.specs.Search.Places.{first_dentry, second_dentry};
    ghost use Rattle.procs.specs.Planned.{IsPlanFor, IsPlanOf, IsStepPlan};
    ghost use Rattle.procs.specs.Planning.{AreOf};
    ghost use Rattle.procs.specs.Refused.{IsIoWhereRefused};
    ghost use Rattle.procs.specs.SoundCalls.{SoundCall};

    /// Nothing was read yet. Free blocks are looked for from a piece of their bitmap on, and what is read is asked for
    /// in a mode.
    pub fn new(alloc: Global, geometry: Geometry, from: u32, asks: Mode) -> Planner
        requires { geometry.version ≡ Second }
        ensures geometry { result.snap.geometry ≡ geometry }
        ensures asks { result.snap.asks ≡ asks }
        ensures objects { result.snap.objects.items ≡ [] }
        ensures exclusives { result.snap.exclusives.items ≡ [] }
        ensures claims { result.snap.claims.items ≡ [] }
        ensures from { result.snap.from ≡ from }
        ensures of { (call : Call) → AreOf call result.names }
    {
        Planner {
            snap: Snap::new(alloc, geometry, from, asks),
            names: None,
            searches: None,
            ahead: Ahead::Nothing,
        }
    }

    /// Makes room for one more object and one more claim.
    pub fn reserve_next(&mut self) -> Result<(), AllocError>
        ensures has_space { OnOk result (HasReserved self.new.snap) }
        ensures geometry { self.new.snap.geometry ≡ self.old.snap.geometry }
        ensures objects { self.new.snap.objects.items ≡ self.old.snap.objects.items }
        ensures exclusives { self.new.snap.exclusives.items ≡ self.old.snap.exclusives.items }
        ensures claims { self.new.snap.claims.items ≡ self.old.snap.claims.items }
        ensures names { self.new.names ≡ self.old.names }
    {
        self.snap.reserve_next()
    }

    /// Adds an object that was read in a mode, for which there is room. One that was read before is had in this mode,
    /// too.
    pub fn add(&mut self, addr: Addr, mode: Mode, bytes: SharedBytes)
        requires len { length bytes ≡ addr.len }
        requires has_space { HasReserved self.old.snap }
        ensures objects { self.new.snap.objects.items ≡ with_read addr bytes self.old.snap.objects.items }
        ensures exclusives { self.new.snap.exclusives.items ≡ with_mode addr mode self.old.snap.exclusives.items }
        ensures geometry { self.new.snap.geometry ≡ self.old.snap.geometry }
        ensures claims { self.new.snap.claims.items ≡ self.old.snap.claims.items }
        ensures names { self.new.names ≡ self.old.names }
    {
        self.snap.add(addr, mode, bytes);
    }

    /// Notes that a block was claimed, for which there is room.
    pub fn claimed(&mut self, block: BlockNo)
        requires { HasReserved self.old.snap }
        ensures claims { self.new.snap.claims.items ≡ self.old.snap.claims.items ++ block ∷ [] }
        ensures geometry { self.new.snap.geometry ≡ self.old.snap.geometry }
        ensures objects { self.new.snap.objects.items ≡ self.old.snap.objects.items }
        ensures exclusives { self.new.snap.exclusives.items ≡ self.old.snap.exclusives.items }
        ensures names { self.new.names ≡ self.old.names }
    {
        self.snap.claimed(block);
    }

    /// The piece of the bitmap in which the last block was claimed, or from which free blocks are looked for, if none
    /// was: where the next call may look for them first.
    pub fn alloc_cursor(&self) -> u32 {
        match self.snap.claims.last() {
            Some(block) => block.0 / PIECE_BITS,
            None => self.snap.from,
        }
    }

    /// What a call needs next, or what comes of it, by what was read so far. It asks for one object at a time, alone
    /// for what is written, as `plan` does that restarts: the procedure is run only where what follows isn't told by
    /// where the last run stopped.
    pub fn next(&mut self, alloc: Global, ctx: &Ctx, call: &Call) -> Plan
        requires served { begins_transaction call.now ≡ true }
        requires sound { SoundCall ctx.now.credential ctx.now.moment call.now }
        ensures plan { IsPlanFor self.old.snap result }
        ensures made { IsPlanOf ctx.now call.now result }
        ensures step { IsStepPlan self.old.snap.geometry ctx.now call.now result }
        ensures io { IsIoWhereRefused call.now self.old.snap result }
        ensures snap { self.new.snap ≡ self.old.snap }
        ensures of { AreOf call.now self.old.names → AreOf call.now self.new.names }
    {
        let mut names = match names_of(alloc, call, self.names.take()) {
            Ok(names) => names,
            Err(error) => return Plan::NoMemory(error),
        };
        let next = self.next_by(alloc, ctx, call, &mut names);
        self.names = Some(names);
        next
    }

    // The same, once it was begun to look for the names.
    fn next_by(&mut self, alloc: Global, ctx: &Ctx, call: &Call, names: &mut Names) -> Plan
        requires served { begins_transaction call.now ≡ true }
        requires sound { SoundCall ctx.now.credential ctx.now.moment call.now }
        requires known { IsKnown self.old.snap names.old }
        ensures plan { IsPlanFor self.old.snap result }
        ensures made { IsPlanOf ctx.now call.now result }
        ensures step { IsStepPlan self.old.snap.geometry ctx.now call.now result }
        ensures io { IsIoWhereRefused call.now self.old.snap result }
        ensures snap { self.new.snap ≡ self.old.snap }
        ensures names { self.new.names ≡ self.old.names }
        ensures known { IsKnown self.old.snap names.new }
        ensures of { (asked : Call) → IsOfCall asked names.old → IsOfCall asked names.new }
    {
        let search = names.go_on(&self.snap);
        if self.searches == Some(names.is_second()) {
            if let Err(Suspend::Need(addr, mode)) = search {
                return Plan::Need(addr, mode);
            }
        }
        match go_on_behind(
            alloc,
            call,
            &self.snap,
            names,
            &search,
            &mut self.searches,
            &mut self.ahead,
        ) {
            Some(Suspend::Need(addr, mode)) => return Plan::Need(addr, mode),
            Some(Suspend::Claim(block)) => return Plan::Claim(block),
            _ => {}
        }
        let next = run(alloc, ctx, call, &self.snap, names);
        if is_same(&next, &search) {
            self.searches = Some(names.is_second());
            self.ahead = Ahead::Nothing;
        } else {
            self.searches = None;
            self.ahead = behind(alloc, call, &self.snap, names, &next);
        }
        next
    }

    /// How many names were compared in all calls of `next` together: for a call of one name at most 32 for each block
    /// of its directory. Nothing else compares names for it, but for what a call that changes files looks for itself.
    pub fn compared(&self) -> u64
        ensures { (call : Call) (dentry : DirectoryName) → AreOf call self.now.names
            → first_dentry call ≡ Some dentry → second_dentry call ≡ None
            → length dentry.directory.bytes ≡ HANDLE_BYTES
            → (blocks : Image) (inode : Inode) → Saw blocks self.now.snap
            → inode_at self.now.snap.geometry blocks (number_in dentry.directory.bytes) ≡ Ok (Some inode)
            → result ≤ SLOTS_PER_BLOCK * span_of inode }
    {
        match &self.names {
            Some(names) => names.compared(),
            None => 0,
        }
    }
}
