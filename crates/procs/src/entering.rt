//! What a call asks for behind a run that gives a directory a name, maybe of a new file (RFC 1813, sections 3.3.8 to
//! 3.3.10 and 3.3.15): a number that no file has, free blocks, each as a claim, and the new file's inode. These are
//! positions, of which nothing is claimed.
ghost use Rattle.std.specs.Prelude.{◌≡◌, ◌^◌, ◌≤◌, IfErr};
ghost use Rattle.inode.specs.Over.{MaySuspend};

use crate::free::{FreeBlocks, FreeNumber, Room};
use dir::free_slot;
use inode::{Snap, Suspend, held};
use layout::{Inode, InodeKind};
use nfs_types::Handle;
use procs_blocks::BlockFiles;
use procs_files::{Files, InodeAttributes};
use procs_names::dirent_adds;
use std::alloc::Global;

/// A directory; the number of a new file, where one is made, and how many blocks it has; how many free blocks are
/// wanted for these and for the name, once this is known; and how many of them were taken.
#[derive(Drop)]
pub(crate) struct Entering {
    directory: InodeAttributes,
    inode: Inode,
    number: Option<FreeNumber>,
    blocks: u32,
    wanted: Option<u32>,
    room: Room,
    free: FreeBlocks,
    taken: u32,
    ghost few: { blocks ≤ 1 },
}

impl Entering {
    /// What a name asks for in the directory of a handle: of a file that is there, or of a new one with so many blocks.
    pub(crate) fn begin(
        alloc: Global,
        snap: &Snap,
        directory: &Handle,
        makes: bool,
        has_block: bool,
    ) -> Result<Option<Entering>, Suspend>
        ensures { IfErr result (λ why. MaySuspend snap.now why) }
    {
        let Some((number, _)) = directory.parts() else {
            return Ok(None);
        };
        let Some(inode) = held(snap, number)? else {
            return Ok(None);
        };
        if inode.kind != InodeKind::Directory {
            return Ok(None);
        }
        let Some(directory) = BlockFiles::new(alloc, snap).file(number)? else {
            return Ok(None);
        };
        Ok(Some(Entering {
            directory,
            inode,
            number: if makes {
                Some(FreeNumber::begin())
            } else {
                None
            },
            blocks: if has_block { 1 } else { 0 },
            wanted: None,
            room: Room::begin(),
            free: FreeBlocks::begin(),
            taken: 0,
        }))
    }
    // Whether so many free blocks are wanted and there. Asks for what tells how many.
    fn has_free_blocks(&mut self, snap: &Snap) -> Result<bool, Suspend>
        ensures { IfErr result (λ why. MaySuspend snap.now why) }
    {
        let wanted = match self.wanted {
            Some(wanted) => wanted,
            None => match free_slot(snap, &self.inode)? {
                Some(slot) => dirent_adds(&self.directory, slot) + self.blocks,
                None => return Ok(false),
            },
        };
        self.wanted = Some(wanted);
        self.room.is_for(snap, wanted)
    }

    // Asks for the free blocks that are wanted.
    fn take(&mut self, snap: &Snap) -> Result<(), Suspend>
        ensures { IfErr result (λ why. MaySuspend snap.now why) }
    {
        'blocks: for taken in self.taken..self.wanted.unwrap_or(0) {
            self.free.take(snap)?;
            self.taken = taken + 1;
        }
        Ok(())
    }

    /// Asks for the next object or block that wasn't read or claimed.
    pub(crate) fn go_on(&mut self, snap: &Snap) -> Result<(), Suspend>
        ensures { IfErr result (λ why. MaySuspend snap.now why) }
    {
        let number = match &mut self.number {
            Some(number) => match number.find(snap)? {
                Some(number) => Some(number),
                None => return Ok(()),
            },
            None => None,
        };
        if !self.has_free_blocks(snap)? {
            return Ok(());
        }
        self.take(snap)?;
        if let Some(number) = number {
            held(snap, number)?;
        }
        Ok(())
    }
}
