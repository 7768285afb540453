//! Names that are looked for in a directory, block by block, as these are read.
ghost use Rattle.std.specs.Prelude.{◌≡◌, ◌+◌, ◌*◌, ◌^◌, ◌<◌, ◌≤◌, ℕ, true, length, None, Some, Ok};
ghost use Rattle.std.specs.Prelude.{IfErr, IfOk, OnErr, OnOk};
ghost use Rattle.std.specs.FinMap.{get};
ghost use Rattle.std.specs.Option.{option_map};
ghost use Rattle.base.specs.declared.TheConstants.{BLOCK_BYTES, MOST_SPAN, SLOTS_PER_BLOCK};
ghost use Rattle.disk.specs.Crash.{Image};
ghost use Rattle.nfs_spec.specs.Model.Tree.{Tree};
ghost use Rattle.layout.specs.Decode.{entries_in, inode_at, span_of};
ghost use Rattle.layout.specs.Parts.{content_in};
ghost use Rattle.inode.specs.Over.{IsResumable, MaySuspend};
ghost use Rattle.inode.specs.declared.snap.Snap.{Snap};
ghost use Rattle.inode.specs.Read.{Saw};
ghost use Rattle.procs_files.specs.Heads.{dirent_of};
ghost use Rattle.dir.specs.Slots.{IsDirectoryOf, NoneRefused, block_slot};
ghost use Rattle.dir.specs.SearchCursor.{IsValidAt, IsValidBehind, IsSearchCursor};
ghost use Rattle.layout.specs.declared.inode.Inode.{Inode};
ghost use Rattle.inode.specs.Asked.{IsNeededAt, IsSuspendFor};
ghost use Rattle.dir.specs.Asked.{IsAtCursor, IsAtCursorOrRestarted};

use crate::block::{BlockScan, find_in_block, is_valid_from};
use crate::lookup::find;
use crate::span::{directory_block, span_of};
use base::SLOTS_PER_BLOCK;
use inode::{Snap, Suspend};
use layout::Inode;
use nfs_types::Octets;
use procs_files::SlotDirent;

/// A name that is looked for in the directory of a number: how many of its first blocks were looked through, of how
/// many of these it is known that the layout refuses none of their slots, and where the name was found, if it was.
#[derive(Drop)]
pub struct SearchCursor {
    pub directory: u32,
    pub name: Octets,
    pub blocks: u32,
    pub valid_blocks: u32,
    pub found: Option<SlotDirent>,
}

impl SearchCursor {
    /// Nothing was looked through yet.
    pub fn begin(directory: u32, name: Octets) -> SearchCursor
        ensures is { result ≡ record { directory = directory; name = name; blocks = 0; valid_blocks = 0; found = None } }
        ensures knows { (snap : Snap) → IsSearchCursor snap result }
    {
        SearchCursor {
            directory,
            name,
            blocks: 0,
            valid_blocks: 0,
            found: None,
        }
    }

    /// Whether this name is looked for, in the directory of this number.
    pub fn is_of(&self, number: u32, name: &[u8]) -> bool
        ensures number { result ≡ true → self.now.directory ≡ number }
        ensures name { result ≡ true → self.now.name ≡ name.now }
    {
        self.directory == number && self.name.as_slice() == name
    }

    /// Of how many first blocks of the directory of a number it is known that the layout refuses none of their slots.
    pub fn valid_count(&self, number: u32) -> u32
        ensures { (snap : Snap) (blocks : Image) (inode : Inode) (index : ℕ) → IsSearchCursor snap self.now
            → Saw blocks snap → inode_at snap.geometry blocks number ≡ Ok (Some inode) → index < result
            → IsValidAt snap blocks inode index }
    {
        if self.directory == number {
            self.valid_blocks
        } else {
            0
        }
    }
}

// How many first blocks are valid, once the next one was looked through: from one on that isn't it doesn't grow.
fn valid_behind(
    inodes: u32,
    block: &[u8],
    first: u32,
    cursor: &SearchCursor,
    scanned: &BlockScan,
) -> u32
    requires len { length block.now ≡ BLOCK_BYTES }
    requires few { cursor.now.blocks < MOST_SPAN }
    requires first { first ≡ SLOTS_PER_BLOCK * cursor.now.blocks }
    requires past { first ≤ scanned.now.past }
    requires is_valid { scanned.now.is_valid ≡ true → NoneRefused (block_slot inodes first block.now) first scanned.now.past }
    ensures { IsValidBehind inodes first block.now cursor.now result }
{
    if cursor.valid_blocks != cursor.blocks || !scanned.is_valid {
        return cursor.valid_blocks;
    }
    if is_valid_from(inodes, block, first, scanned.past) {
        cursor.valid_blocks + 1
    } else {
        cursor.valid_blocks
    }
}

// Looks through the next block.
fn scan_next_block(
    snap: &Snap,
    inode: &Inode,
    cursor: &mut SearchCursor,
    compared: &mut u64,
) -> Result<(), Suspend>
    requires few { cursor.old.blocks < MOST_SPAN }
    requires less { cursor.old.blocks < span_of inode.now }
    requires none { cursor.old.found ≡ None }
    requires no_overflow { compared.old + SLOTS_PER_BLOCK < 2 ^ 64 }
    requires there { (blocks : Image) → Saw blocks snap.now
        → inode_at snap.now.geometry blocks cursor.old.directory ≡ Ok (Some inode.now) }
    ensures knows { OnOk result (IsSearchCursor snap.now cursor.old → IsSearchCursor snap.now cursor.new) }
    ensures next { OnOk result (cursor.new.blocks ≡ cursor.old.blocks + 1) }
    ensures directory { cursor.new.directory ≡ cursor.old.directory }
    ensures name { cursor.new.name ≡ cursor.old.name }
    ensures same { OnErr result (cursor.new ≡ cursor.old) }
    ensures count { OnOk result (compared.new ≤ compared.old + SLOTS_PER_BLOCK) }
    ensures none { OnErr result (compared.new ≡ compared.old) }
    ensures err { IfErr result (λ suspend. MaySuspend snap.now suspend) }
    ensures asks { IfErr result (λ suspend. IsSuspendFor (IsNeededAt snap.now inode.now cursor.old.blocks) suspend) }
{
    let block = directory_block(snap, inode, cursor.blocks as usize)?;
    let first = SLOTS_PER_BLOCK * cursor.blocks;
    let inodes = snap.geometry.inodes;
    let scanned = find_in_block(inodes, block, first, cursor.name.as_slice(), compared);
    let valid_blocks = valid_behind(inodes, block, first, cursor, &scanned);
    cursor.valid_blocks = valid_blocks;
    cursor.found = scanned.found;
    cursor.blocks += 1;
    Ok(())
}

// Looks through the blocks of a directory that spans so many, from the next one on.
fn go_through(
    snap: &Snap,
    inode: &Inode,
    span: u32,
    cursor: &mut SearchCursor,
    compared: &mut u64,
) -> Result<(), Suspend>
    requires span { span ≡ span_of inode.now }
    requires few { span ≤ MOST_SPAN }
    requires none { cursor.old.found ≡ None }
    requires no_overflow { compared.old + SLOTS_PER_BLOCK * MOST_SPAN < 2 ^ 64 }
    requires there { (blocks : Image) → Saw blocks snap.now
        → inode_at snap.now.geometry blocks cursor.old.directory ≡ Ok (Some inode.now) }
    ensures knows { IsSearchCursor snap.now cursor.old → IsSearchCursor snap.now cursor.new }
    ensures directory { cursor.new.directory ≡ cursor.old.directory }
    ensures name { cursor.new.name ≡ cursor.old.name }
    ensures few { cursor.old.blocks ≤ MOST_SPAN → cursor.new.blocks ≤ MOST_SPAN }
    ensures count { compared.new + SLOTS_PER_BLOCK * cursor.old.blocks
        ≤ compared.old + SLOTS_PER_BLOCK * cursor.new.blocks }
    ensures err { IfErr result (λ suspend. MaySuspend snap.now suspend) }
    ensures asks { IfErr result (λ suspend. IsSuspendFor (IsAtCursor snap.now inode.now cursor.new) suspend) }
{
    'indexes: for index in cursor.blocks..span {
        match scan_next_block(snap, inode, cursor, compared) {
            Ok(()) => {
                if cursor.found.is_some() {
                    return Ok(());
                }
            }
            Err(suspend) => return Err(suspend),
        }
    }
    Ok(())
}

/// Goes on with a search in the directory of this inode, until the name is found, or no block is left, or the next
/// one wasn't read. Each block is looked through once, however often this is called: at most one comparison a slot.
pub fn go_on(
    snap: &Snap,
    inode: &Inode,
    cursor: &mut SearchCursor,
    compared: &mut u64,
) -> Result<(), Suspend>
    requires no_overflow { compared.old + SLOTS_PER_BLOCK * MOST_SPAN < 2 ^ 64 }
    requires there { (blocks : Image) → Saw blocks snap.now
        → inode_at snap.now.geometry blocks cursor.old.directory ≡ Ok (Some inode.now) }
    ensures knows { IsSearchCursor snap.now cursor.old → IsSearchCursor snap.now cursor.new }
    ensures directory { cursor.new.directory ≡ cursor.old.directory }
    ensures name { cursor.new.name ≡ cursor.old.name }
    ensures few { cursor.old.blocks ≤ MOST_SPAN → cursor.new.blocks ≤ MOST_SPAN }
    ensures count { compared.new + SLOTS_PER_BLOCK * cursor.old.blocks
        ≤ compared.old + SLOTS_PER_BLOCK * cursor.new.blocks }
    ensures err { IfErr result (λ suspend. MaySuspend snap.now suspend) }
    ensures asks { IfErr result (λ suspend. IsSuspendFor (IsAtCursor snap.now inode.now cursor.new) suspend) }
{
    if cursor.found.is_some() {
        return Ok(());
    }
    match span_of(inode) {
        Some(span) => go_through(snap, inode, span as u32, cursor, compared),
        None => Ok(()),
    }
}

/// What the name leads to in the directory of this inode, by what is known of it. Where more has to be looked through
/// it stops for the next block.
pub fn find_known(
    snap: &Snap,
    inode: &Inode,
    cursor: &SearchCursor,
) -> Result<Option<SlotDirent>, Suspend>
    ensures ok { IfOk result (λ found. IsSearchCursor snap.now cursor.now → (blocks : Image) (tree : Tree)
        → IsDirectoryOf snap.now blocks tree cursor.now.directory inode.now
        → option_map dirent_of found
        ≡ get (entries_in snap.now.geometry.inodes (content_in snap.now.geometry blocks) inode.now) cursor.now.name) }
    ensures err { IfErr result (λ suspend. MaySuspend snap.now suspend) }
    ensures asks { IfErr result (λ suspend. IsSuspendFor (IsAtCursorOrRestarted snap.now inode.now cursor.now) suspend) }
    ensures resumable { IfErr result (λ suspend. (blocks : Image) (tree : Tree) (file : ℕ)
        → IsDirectoryOf snap.now blocks tree file inode.now → IsResumable suspend) }
{
    let Some(span) = span_of(inode) else {
        return Err(Suspend::Io);
    };
    if let Some(search_hit) = cursor.found {
        return Ok(Some(search_hit));
    }
    if cursor.blocks as usize >= span {
        return Ok(None);
    }
    match directory_block(snap, inode, cursor.blocks as usize) {
        // Who goes on before each plan doesn't come here.
        Ok(_) => find(snap, inode, cursor.name.as_slice()),
        Err(suspend) => Err(suspend),
    }
}
