//! What a call asks for behind a run that stopped, without another. These are positions, of which nothing is claimed:
//! the procedure is run again once all of it was read.
ghost use Rattle.std.specs.Prelude.{◌≡◌, ◌≤◌, IfErr, IfSome, alloc_error};
ghost use Rattle.inode.specs.declared.suspend.Suspend.TheVariants.{NoMemory};
ghost use Rattle.base.specs.declared.TheConstants.{FILE_INDEXES};
ghost use Rattle.inode.specs.Over.{MaySuspend};
ghost use Rattle.nfs_spec.specs.Procedures.Listing.{listing_budget};

use crate::above::Above;
use crate::entering::Entering;
use crate::first_file::first_handle;
use crate::free_slots::behind_free_slots;
use crate::freeing::Freeing;
use crate::next::Plan;
use crate::pieces::Pieces;
use crate::pointers::{Pointers, ask_data, pointers_of};
use crate::shrinking::{cut_at, cut_for, named, unnamed};
use crate::writing::Writing;
use base::{
    BLOCK_BYTES, LARGEST_FILE, LISTED_ITEM_BYTES, LISTED_ITEM_PLUS_BYTES, LISTING_BYTES,
    LISTING_FRAME, TRANSFER_BYTES,
};
use dir::{Names, next_name};
use inode::{Snap, Suspend, ask_block, held};
use layout::{Inode, InodeKind};
use nfs_spec::{ITSELF_COOKIE, PARENT_COOKIE};
use nfs_types::{Call, DirectoryName, Handle};
use procs_blocks::BlockFiles;
use procs_files::Files;
use std::alloc::{AllocError, Global};

/// Nothing; the blocks of a file that a READ asks for; what a WRITE asks for; what a name asks for that a directory
/// gets; what the blocks ask for that a file frees; what a listing asks for; the bitmaps; the pointer blocks of a
/// file; or the directories above one. It lies in a box, as it is long and each function that hands it on would copy it.
#[derive(Drop)]
pub(crate) enum Ahead {
    Nothing,
    Blocks(Box<Blocks>),
    Writing(Box<Writing>),
    Entering(Box<Entering>),
    Freeing(Box<Freeing>),
    Listing(Box<Listing>),
    Pieces(Pieces),
    Pointers(Box<Pointers>),
    Above(Above),
}

/// The blocks of a file from an index on up to another.
#[derive(Drop)]
pub(crate) struct Blocks {
    inode: Inode,
    at: usize,
    end: usize,
    ghost within: { end ≤ FILE_INDEXES },
}

/// A listing of a directory: the slot from which it goes on, the room that is left for names and for the whole, and the
/// numbers that it has listed, of which the first were told; these only where their files are told, with the pointer
/// blocks of the next, if it has some.
#[derive(Drop)]
pub(crate) struct Listing {
    directory: Inode,
    besides: u32,
    tells: bool,
    from: u64,
    names_budget: u64,
    room: u64,
    is_full: bool,
    numbers: Vec<u32>,
    emitted: usize,
    pointers: Option<Pointers>,
}

// The pointer blocks of a file, if it has some of which something is told: those of a directory aren't looked at.
fn told_pointers(snap: &Snap, number: u32) -> Result<Option<Pointers>, Suspend>
    ensures { IfErr result (λ why. MaySuspend snap.now why) }
{
    let Some(inode) = held(snap, number)? else {
        return Ok(None);
    };
    if inode.kind == InodeKind::Directory || inode.indirect == 0 && inode.double == 0 {
        return Ok(None);
    }
    Ok(Some(Pointers::begin(inode)))
}

// How far a listing is with what a directory lists, as long as there is room.
impl Listing {
    // An entry more, if there is room for it.
    fn add(&mut self, number: u32, name: &[u8]) -> Result<(), AllocError>
        ensures { self.new.from ≡ self.old.from }
    {
        let padded = (name.len() as u64 + 3) / 4 * 4;
        let bytes = self.besides as u64 + padded;
        let name_bytes = LISTED_ITEM_BYTES as u64 + padded;
        if self.is_full || bytes > self.room || name_bytes > self.names_budget {
            self.is_full = true;
            return Ok(());
        }
        self.room -= bytes;
        self.names_budget -= name_bytes;
        if self.tells {
            self.numbers.push(number)?;
        }
        Ok(())
    }

    // Lists names until one has no room, or none is left. What was found free isn't looked at again.
    fn list(&mut self, alloc: Global, snap: &Snap) -> Result<(), Suspend>
        ensures { IfErr result (λ why. MaySuspend snap.now why) }
    {
        'names: while !self.is_full {
            match next_name(alloc, snap, &self.directory, self.from) {
                Ok(Some(found)) => {
                    self.from = found.slot as u64 + 1;
                    self.add(found.number, found.name.as_slice())?;
                }
                Ok(None) => {
                    self.is_full = true;
                    return Ok(());
                }
                Err(why) => {
                    self.from = behind_free_slots(snap, &self.directory, self.from);
                    return Err(why);
                }
            }
        }
        Ok(())
    }

    // Tells the next file of what was listed.
    fn tell_next(&mut self, alloc: Global, snap: &Snap, number: u32) -> Result<(), Suspend>
        ensures emitted { self.new.emitted ≡ self.old.emitted }
        ensures numbers { self.new.numbers ≡ self.old.numbers }
        ensures err { IfErr result (λ why. MaySuspend snap.now why) }
    {
        if self.pointers.is_none() {
            self.pointers = told_pointers(snap, number)?;
        }
        if let Some(pointers) = &mut self.pointers {
            pointers.go_on(snap)?;
            BlockFiles::new(alloc, snap).file(number)?;
        }
        Ok(())
    }

    // Tells the files of what was listed.
    fn tell(&mut self, alloc: Global, snap: &Snap) -> Result<(), Suspend>
        ensures { IfErr result (λ why. MaySuspend snap.now why) }
    {
        'numbers: while self.emitted < self.numbers.len() {
            let number = self.numbers[self.emitted];
            self.tell_next(alloc, snap, number)?;
            self.emitted += 1;
            self.pointers = None;
        }
        Ok(())
    }

    // Asks on. The pointer block of the directory itself is looked at when all else is known.
    fn go_on(&mut self, alloc: Global, snap: &Snap) -> Result<(), Suspend>
        ensures { IfErr result (λ why. MaySuspend snap.now why) }
    {
        self.list(alloc, snap)?;
        self.tell(alloc, snap)?;
        ask_data(snap, self.directory.indirect)
    }
}

impl Blocks {
    fn go_on(&mut self, snap: &Snap) -> Result<(), Suspend>
        ensures { IfErr result (λ why. MaySuspend snap.now why) }
    {
        'indexes: while self.at < self.end {
            ask_block(snap, &self.inode, self.at)?;
            self.at += 1;
        }
        Ok(())
    }
}

impl Ahead {
    fn go_on(&mut self, alloc: Global, snap: &Snap) -> Result<(), Suspend>
        ensures { IfErr result (λ why. MaySuspend snap.now why) }
    {
        match self {
            Ahead::Nothing => Ok(()),
            Ahead::Blocks(blocks) => blocks.go_on(snap),
            Ahead::Writing(writing) => writing.go_on(snap),
            Ahead::Entering(entering) => entering.go_on(snap),
            Ahead::Freeing(freeing) => freeing.go_on(alloc, snap),
            Ahead::Listing(listing) => listing.go_on(alloc, snap),
            Ahead::Pieces(pieces) => pieces.go_on(snap),
            Ahead::Pointers(pointers) => pointers.go_on(snap),
            Ahead::Above(above) => above.go_on(snap),
        }
    }

    /// The next object or block that is asked for: the same until it was read or claimed.
    pub(crate) fn next(&mut self, alloc: Global, snap: &Snap) -> Option<Suspend>
        ensures { IfSome result (λ why. MaySuspend snap.now why) }
    {
        match self.go_on(alloc, snap) {
            Ok(()) => None,
            Err(suspend) => Some(suspend),
        }
    }
}

// A position, in a box.
fn boxed<T: Drop>(alloc: Global, position: T) -> Result<Box<T>, Suspend>
    ensures { IfErr result (λ why. why ≡ NoMemory alloc_error) }
{
    match Box::new(alloc, position) {
        Ok(boxed) => Ok(boxed),
        Err(failed) => Err(Suspend::NoMemory(AllocError::from(failed))),
    }
}

// The blocks that a READ asks for.
fn blocks_of(
    alloc: Global,
    snap: &Snap,
    file: &Handle,
    offset: u64,
    count: u32,
) -> Result<Ahead, Suspend> {
    let Some((number, _)) = file.parts() else {
        return Ok(Ahead::Nothing);
    };
    let Some(inode) = held(snap, number)? else {
        return Ok(Ahead::Nothing);
    };
    if inode.kind != InodeKind::Regular || inode.size > LARGEST_FILE || offset >= inode.size {
        return Ok(Ahead::Nothing);
    }
    let wanted = count.min(TRANSFER_BYTES) as u64;
    let end = offset + wanted.min(inode.size - offset);
    let blocks = Blocks {
        inode,
        at: (offset / BLOCK_BYTES as u64) as usize,
        end: ((end + BLOCK_BYTES as u64 - 1) / BLOCK_BYTES as u64) as usize,
    };
    Ok(Ahead::Blocks(boxed(alloc, blocks)?))
}

// What of so many bytes is left for entries.
fn listing_budget(count: u32) -> u32
    ensures { result ≡ listing_budget count }
{
    count.min(LISTING_BYTES).saturating_sub(LISTING_FRAME)
}

// A listing behind a cookie, of which nothing but the directory itself was looked at.
fn listing_of(
    alloc: Global,
    snap: &Snap,
    directory: &Handle,
    cookie: u64,
    besides: u32,
    names_budget: u32,
    room: u32,
    tells: bool,
) -> Result<Ahead, Suspend> {
    let Some((number, _)) = directory.parts() else {
        return Ok(Ahead::Nothing);
    };
    let Some(directory) = held(snap, number)? else {
        return Ok(Ahead::Nothing);
    };
    if directory.kind != InodeKind::Directory {
        return Ok(Ahead::Nothing);
    }
    let mut listing = Listing {
        directory,
        besides,
        tells,
        from: cookie.saturating_sub(PARENT_COOKIE),
        names_budget: names_budget as u64,
        room: room as u64,
        is_full: false,
        numbers: Vec::new(alloc),
        emitted: 0,
        pointers: None,
    };
    if cookie < ITSELF_COOKIE {
        listing.add(number, b".")?;
    }
    if cookie < PARENT_COOKIE {
        listing.add(directory.parent, b"..")?;
    }
    Ok(Ahead::Listing(boxed(alloc, listing)?))
}

/// What a name asks for that a directory gets.
pub(crate) fn entering(
    alloc: Global,
    snap: &Snap,
    name: &DirectoryName,
    makes: bool,
    has_block: bool,
) -> Result<Ahead, Suspend>
    ensures { IfErr result (λ why. MaySuspend snap.now why) }
{
    match Entering::begin(alloc, snap, &name.directory, makes, has_block)? {
        Some(entering) => Ok(Ahead::Entering(boxed(alloc, entering)?)),
        None => Ok(Ahead::Nothing),
    }
}

/// What the blocks ask for that a file frees, if it does.
pub(crate) fn freed(alloc: Global, freeing: Option<Freeing>) -> Result<Ahead, Suspend>
    ensures { IfErr result (λ why. why ≡ NoMemory alloc_error) }
{
    match freeing {
        Some(freeing) => Ok(Ahead::Freeing(boxed(alloc, freeing)?)),
        None => Ok(Ahead::Nothing),
    }
}

// Whether what a call asks for in a row is more than its names, the files to which they lead, and their pointer blocks.
fn has_a_row(call: &Call) -> bool {
    !matches!(
        call,
        Call::Null
            | Call::GetAttr { .. }
            | Call::Lookup { .. }
            | Call::Access { .. }
            | Call::ReadLink { .. }
            | Call::FsInfo { .. }
            | Call::PathConf { .. }
            | Call::Commit { .. }
    )
}

// What a call asks for in a row, from its first object on. It stands apart, so that a plan that goes on elsewhere has
// no room for it.
#[inline(never)]
fn in_a_row(alloc: Global, call: &Call, snap: &Snap, names: &Names) -> Result<Ahead, Suspend> {
    match call {
        Call::Read {
            file,
            offset,
            count,
        } => blocks_of(alloc, snap, file, *offset, *count),
        Call::ReadDir {
            directory,
            cookie,
            count,
            ..
        } => {
            let room = listing_budget(*count);
            listing_of(
                alloc,
                snap,
                directory,
                *cookie,
                LISTED_ITEM_BYTES,
                room,
                room,
                false,
            )
        }
        Call::ReadDirPlus {
            directory,
            cookie,
            directory_count,
            greatest_count,
            ..
        } => {
            let room = listing_budget(*greatest_count);
            let names_budget = *directory_count;
            listing_of(
                alloc,
                snap,
                directory,
                *cookie,
                LISTED_ITEM_PLUS_BYTES,
                names_budget,
                room,
                true,
            )
        }
        Call::Write {
            file,
            offset,
            bytes,
            ..
        } => match Writing::begin(snap, file, *offset, bytes.as_slice().len())? {
            Some(writing) => Ok(Ahead::Writing(boxed(alloc, writing)?)),
            None => Ok(Ahead::Nothing),
        },
        Call::SetAttr {
            object,
            attributes,
            ..
        } => freed(alloc, cut_at(snap, object, attributes.size)?),
        Call::Create { name, how } => match named(snap, names, name)? {
            Some(number) => freed(alloc, cut_for(snap, number, how)?),
            None => entering(alloc, snap, name, true, false),
        },
        Call::MkDir { name, .. } => entering(alloc, snap, name, true, false),
        Call::SymLink { name, .. } => entering(alloc, snap, name, true, true),
        Call::Link { name, .. } => entering(alloc, snap, name, false, false),
        Call::Remove { name } => freed(alloc, unnamed(snap, names, name, false)?),
        Call::RmDir { name } => freed(alloc, unnamed(snap, names, name, true)?),
        Call::Rename { target, .. } => match named(snap, names, target)? {
            Some(number) => freed(alloc, Freeing::gone(snap, number)?),
            None => entering(alloc, snap, target, false, false),
        },
        Call::FsStat { .. } => Ok(Ahead::Pieces(Pieces::begin())),
        _ => Ok(Ahead::Nothing),
    }
}

// Whether a plan asks for what a position asks for next.
fn is_asked(plan: &Plan, next: &Option<Suspend>) -> bool {
    match (plan, next) {
        (Plan::Need(asked, mode), Some(Suspend::Need(addr, request))) => {
            *asked == *addr && *mode == *request
        }
        (Plan::Claim(asked), Some(Suspend::Claim(block))) => *asked == *block,
        _ => false,
    }
}

// A position, if a plan asks for the next of what it asks for, so that the run has come there.
fn begun(alloc: Global, snap: &Snap, plan: &Plan, position: Ahead) -> Option<Ahead> {
    let mut ahead = position;
    let next = ahead.next(alloc, snap);
    if is_asked(plan, &next) {
        Some(ahead)
    } else {
        None
    }
}

// The number of the file to which a name leads, if this is known.
fn known_number(snap: &Snap, names: &Names, name: &DirectoryName) -> Option<u32> {
    match named(snap, names, name) {
        Ok(found) => found,
        Err(_) => None,
    }
}

// The numbers of files whose pointer blocks a call asks for: of that which its first handle names, and of those to
// which its names lead.
fn files_of(call: &Call, snap: &Snap, names: &Names) -> [Option<u32>; 3] {
    let handled = match first_handle(call) {
        Some(handle) => match handle.parts() {
            Some((number, _)) => Some(number),
            None => None,
        },
        None => None,
    };
    match call {
        Call::Lookup { name } | Call::Create { name, .. } | Call::Remove { name } => {
            [handled, known_number(snap, names, name), None]
        }
        Call::Rename { source, target } => [
            handled,
            known_number(snap, names, source),
            known_number(snap, names, target),
        ],
        _ => [handled, None, None],
    }
}

// Whether a plan asks for a whole block.
fn needs_block(plan: &Plan) -> bool {
    match plan {
        Plan::Need(addr, _) => addr.len == BLOCK_BYTES,
        _ => false,
    }
}

// The pointer blocks of a file for the next of which a plan asks.
fn pointers_behind(
    alloc: Global,
    call: &Call,
    snap: &Snap,
    names: &Names,
    plan: &Plan,
) -> Option<Ahead> {
    if !needs_block(plan) {
        return None;
    }
    for number in files_of(call, snap, names) {
        if let Some(number) = number {
            if let Some(pointers) = pointers_of(snap, number) {
                let Ok(pointers) = boxed(alloc, pointers) else {
                    return None;
                };
                if let Some(ahead) = begun(alloc, snap, plan, Ahead::Pointers(pointers)) {
                    return Some(ahead);
                }
            }
        }
    }
    None
}

// The directories above the one that gets a name by a RENAME, for the next of which a plan asks.
fn above_behind(
    alloc: Global,
    call: &Call,
    snap: &Snap,
    names: &Names,
    plan: &Plan,
) -> Option<Ahead> {
    let Call::Rename { source, target } = call else {
        return None;
    };
    let moved = known_number(snap, names, source)?;
    let above = Above::begin(&target.directory, moved)?;
    begun(alloc, snap, plan, Ahead::Above(above))
}

/// What a call asks for behind a plan: nothing, unless the plan asks for the next of what the call asks for in a row,
/// so that the run has come there.
pub(crate) fn behind(alloc: Global, call: &Call, snap: &Snap, names: &Names, plan: &Plan) -> Ahead {
    if !matches!(plan, Plan::Need(..) | Plan::Claim(_)) {
        return Ahead::Nothing;
    }
    if let Some(ahead) = pointers_behind(alloc, call, snap, names, plan) {
        return ahead;
    }
    if let Some(ahead) = above_behind(alloc, call, snap, names, plan) {
        return ahead;
    }
    if !has_a_row(call) {
        return Ahead::Nothing;
    }
    let Ok(ahead) = in_a_row(alloc, call, snap, names) else {
        return Ahead::Nothing;
    };
    match begun(alloc, snap, plan, ahead) {
        Some(ahead) => ahead,
        None => Ahead::Nothing,
    }
}
