//! How far the names of a call were looked for.
ghost use Rattle.std.specs.Prelude.{◌≡◌, ◌+◌, ◌*◌, ◌≤◌};
ghost use Rattle.base.specs.declared.TheConstants.{MOST_SPAN, SLOTS_PER_BLOCK};

use crate::search::begun::{first_begun, second_begun};
use crate::search::name_search::search;
use crate::{SearchCursor, find, find_known};
use inode::{Snap, Suspend};
use layout::Inode;
use nfs_types::Call;
use procs_files::SlotDirent;
use std::alloc::{AllocError, Global};

/// How far the names of a call were looked for, and how many names were compared for it: at most one a slot of the
/// blocks that were looked through.
#[derive(Drop)]
pub struct Names {
    first: SearchCursor,
    second: SearchCursor,
    is_second: bool,
    compared: u64,
    ghost first_few: { first.blocks ≤ MOST_SPAN },
    ghost second_few: { second.blocks ≤ MOST_SPAN },
    ghost counted: { compared ≤ SLOTS_PER_BLOCK * (first.blocks + second.blocks) },
}

impl Names {
    ghost use Rattle.std.specs.Prelude.{◌<◌, ℕ, None, Ok, Some, length, IfErr, IfOk};
    ghost use Rattle.std.specs.FinMap.{get};
    ghost use Rattle.std.specs.Option.{option_map};
    ghost use Rattle.base.specs.declared.TheConstants.{HANDLE_BYTES};
    ghost use Rattle.disk.specs.Crash.{Image};
    ghost use Rattle.nfs_types.specs.declared.call.Call.{Call};
    ghost use Rattle.nfs_types.specs.declared.call.DirectoryName.{DirectoryName};
    ghost use Rattle.nfs_spec.specs.Model.Find.{number_in};
    ghost use Rattle.nfs_spec.specs.Model.Tree.{Tree};
    ghost use Rattle.layout.specs.declared.inode.Inode.{Inode};
    ghost use Rattle.layout.specs.Decode.{entries_in, inode_at, span_of};
    ghost use Rattle.layout.specs.Parts.{content_in};
    ghost use Rattle.procs_files.specs.Heads.{dirent_of};
    ghost use Rattle.inode.specs.declared.snap.Snap.{Snap};
    ghost use Rattle.inode.specs.Over.{IsResumable, MaySuspend};
    ghost use Rattle.inode.specs.Read.{Saw};
    ghost use Rattle.dir.specs.Slots.{IsDirectoryOf};
    ghost use Rattle.dir.specs.SearchCursor.{IsValidAt, IsSearchCursor};
    ghost use Rattle.dir.specs.Search.Known.{IsKnown, IsOfCall, IsOfDentry};
    ghost use Rattle.dir.specs.Search.Places.{first_dentry, second_dentry};

    /// The names of a call, none of which was looked for yet.
    pub fn begin(alloc: Global, call: &Call) -> Result<Names, AllocError>
        ensures known { IfOk result (λ names. (snap : Snap) → IsKnown snap names) }
        ensures of { IfOk result (λ names. IsOfCall call.now names) }
    {
        Ok(Names {
            first: first_begun(alloc, call)?,
            second: second_begun(alloc, call)?,
            is_second: false,
            compared: 0,
        })
    }

    /// Looks for them, as far as blocks of their directories were read, and stops for the next one.
    pub fn go_on(&mut self, snap: &Snap) -> Result<(), Suspend>
        ensures known { IsKnown snap.now self.old → IsKnown snap.now self.new }
        ensures of { (call : Call) → IsOfCall call self.old → IsOfCall call self.new }
        ensures err { IfErr result (λ suspend. MaySuspend snap.now suspend) }
    {
        match self.go_on_first(snap) {
            Ok(()) => {
                self.is_second = true;
                self.go_on_second(snap)
            }
            Err(suspend) => {
                self.is_second = false;
                Err(suspend)
            }
        }
    }

    /// Whether the first name needs no more to be looked through, so that it is the second for which the search stops.
    pub fn is_second(&self) -> bool
        ensures { result ≡ self.now.is_second }
    {
        self.is_second
    }

    fn go_on_first(&mut self, snap: &Snap) -> Result<(), Suspend>
        ensures known { IsSearchCursor snap.now self.old.first → IsSearchCursor snap.now self.new.first }
        ensures directory { self.new.first.directory ≡ self.old.first.directory }
        ensures name { self.new.first.name ≡ self.old.first.name }
        ensures none { self.old.first.directory ≡ 0 → self.new.first ≡ self.old.first }
        ensures same { self.new.second ≡ self.old.second }
        ensures err { IfErr result (λ suspend. MaySuspend snap.now suspend) }
    {
        search(snap, &mut self.first, &mut self.compared)
    }

    fn go_on_second(&mut self, snap: &Snap) -> Result<(), Suspend>
        ensures known { IsSearchCursor snap.now self.old.second → IsSearchCursor snap.now self.new.second }
        ensures directory { self.new.second.directory ≡ self.old.second.directory }
        ensures name { self.new.second.name ≡ self.old.second.name }
        ensures none { self.old.second.directory ≡ 0 → self.new.second ≡ self.old.second }
        ensures same { self.new.first ≡ self.old.first }
        ensures err { IfErr result (λ suspend. MaySuspend snap.now suspend) }
    {
        search(snap, &mut self.second, &mut self.compared)
    }

    /// How many names were compared: for a call of one name at most 32 for each block of its directory.
    pub fn compared(&self) -> u64
        ensures { (snap : Snap) (call : Call) (dentry : DirectoryName) → IsKnown snap self.now
            → IsOfCall call self.now → first_dentry call ≡ Some dentry → second_dentry call ≡ None
            → length dentry.directory.bytes ≡ HANDLE_BYTES
            → (blocks : Image) (inode : Inode) → Saw blocks snap
            → inode_at snap.geometry blocks (number_in dentry.directory.bytes) ≡ Ok (Some inode)
            → result ≤ SLOTS_PER_BLOCK * span_of inode }
    {
        self.compared
    }

    /// Of how many first blocks of the directory of a number it is known that the layout refuses none of their slots.
    pub fn valid_count(&self, number: u32) -> u32
        ensures { (snap : Snap) (blocks : Image) (inode : Inode) (index : ℕ) → IsKnown snap self.now
            → Saw blocks snap → inode_at snap.geometry blocks number ≡ Ok (Some inode) → index < result
            → IsValidAt snap blocks inode index }
    {
        let first = self.first.valid_count(number);
        let second = self.second.valid_count(number);
        if first < second { second } else { first }
    }

    /// What a name in the directory of a number leads to, whose inode is this one: by what is known, where it is one of
    /// these names.
    pub fn dirent(
        &self,
        snap: &Snap,
        number: u32,
        inode: &Inode,
        name: &[u8],
    ) -> Result<Option<SlotDirent>, Suspend>
        ensures ok { IfOk result (λ found. IsKnown snap.now self.now → (blocks : Image) (tree : Tree)
            → IsDirectoryOf snap.now blocks tree number inode.now
            → option_map dirent_of found
            ≡ get (entries_in snap.now.geometry.inodes (content_in snap.now.geometry blocks) inode.now) name.now) }
        ensures err { IfErr result (λ suspend. MaySuspend snap.now suspend) }
        ensures resumable { IfErr result (λ suspend. (blocks : Image) (tree : Tree) (file : ℕ)
            → IsDirectoryOf snap.now blocks tree file inode.now → IsResumable suspend) }
    {
        if self.first.is_of(number, name) {
            return find_known(snap, inode, &self.first);
        }
        if self.second.is_of(number, name) {
            return find_known(snap, inode, &self.second);
        }
        find(snap, inode, name)
    }
}
