//! What a WRITE asks for behind a run (RFC 1813, section 3.3.7): the blocks of which it writes a part, to read them,
//! the others that it writes, to claim them, and free ones for what isn't mapped. These are positions, of which nothing
//! is claimed.
ghost use Rattle.std.specs.Prelude.{◌≡◌, ◌+◌, ◌<◌, ◌≤◌, true, IfErr, IfOk};
ghost use Rattle.base.specs.declared.TheConstants.{FILE_INDEXES, LARGEST_FILE};
ghost use Rattle.layout.specs.Places.{is_data};
ghost use Rattle.inode.specs.Over.{MaySuspend};

use crate::free::{FreeBlocks, Room};
use base::{BLOCK_BYTES, DIRECT_INDEXES, FIRST_DOUBLE_INDEX, INDIRECT_INDEXES, LARGEST_FILE};
use disk::BlockNo;
use inode::{Snap, Suspend, block_number, data_block, held, inner_number};
use inode_data::unmapped;
use layout::{Inode, InodeKind};
use nfs_types::Handle;
use objects::Addr;

/// The blocks of a file from an index on up to another, which are written from an offset on up to the end; how many
/// free ones are owed to those before; and whether the file has an indirect block then, a double one, and the inner
/// block of the last index.
#[derive(Drop)]
pub(crate) struct Writing {
    inode: Inode,
    offset: u64,
    end: u64,
    at: usize,
    past: usize,
    wanted: u32,
    room: Room,
    free: FreeBlocks,
    owed: u32,
    has_indirect: bool,
    has_double: bool,
    inner: usize,
    ghost within: { past ≤ FILE_INDEXES },
}

// Asks to claim a data block that is written as a whole, unless it was read.
fn ask_whole(snap: &Snap, number: u32) -> Result<(), Suspend>
    requires { is_data snap.now.geometry number ≡ true }
    ensures { IfErr result (λ why. MaySuspend snap.now why) }
{
    let block = BlockNo(number);
    if snap.get(Addr::whole(block)).is_none() && !snap.has_claim(block) {
        return Err(Suspend::Claim(block));
    }
    Ok(())
}

impl Writing {
    /// What so many bytes ask for that are written to the file of a handle.
    pub(crate) fn begin(
        snap: &Snap,
        file: &Handle,
        offset: u64,
        count: usize,
    ) -> Result<Option<Writing>, Suspend> {
        let Some((number, _)) = file.parts() else {
            return Ok(None);
        };
        let Some(inode) = held(snap, number)? else {
            return Ok(None);
        };
        if count == 0 || offset > LARGEST_FILE || count as u64 > LARGEST_FILE - offset {
            return Ok(None);
        }
        let wanted = unmapped(snap, &inode, offset, count)?;
        let end = offset + count as u64;
        Ok(Some(Writing {
            inode,
            offset,
            end,
            at: (offset / BLOCK_BYTES as u64) as usize,
            past: ((end + BLOCK_BYTES as u64 - 1) / BLOCK_BYTES as u64) as usize,
            wanted,
            room: Room::begin(),
            free: FreeBlocks::begin(),
            owed: 0,
            has_indirect: inode.indirect != 0,
            has_double: inode.double != 0,
            inner: INDIRECT_INDEXES,
        }))
    }

    // Whether the block at an index is written as a whole.
    fn is_whole(&self, index: usize) -> bool
        requires { index < FILE_INDEXES }
    {
        let start = index as u64 * BLOCK_BYTES as u64;
        self.offset <= start && start + BLOCK_BYTES as u64 <= self.end
    }

    // How many pointer blocks are owed for a block at an index that isn't mapped.
    fn owe_pointers(&mut self, snap: &Snap, index: usize) -> Result<u32, Suspend>
        requires { index < FILE_INDEXES }
        ensures few { IfOk result (λ owed. owed ≤ 2) }
        ensures err { IfErr result (λ why. MaySuspend snap.now why) }
    {
        if index < DIRECT_INDEXES {
            return Ok(0);
        }
        if index < FIRST_DOUBLE_INDEX {
            if self.has_indirect {
                return Ok(0);
            }
            self.has_indirect = true;
            return Ok(1);
        }
        let inner = (index - FIRST_DOUBLE_INDEX) / INDIRECT_INDEXES;
        if inner == self.inner {
            return Ok(0);
        }
        let has_inner = inner_number(snap, &self.inode, inner)? != 0;
        self.inner = inner;
        if has_inner {
            return Ok(0);
        }
        if self.has_double {
            return Ok(1);
        }
        self.has_double = true;
        Ok(2)
    }

    // Asks for the block at an index. Where there is none a free one is owed, and one for each pointer block that there
    // isn't either.
    fn ask(&mut self, snap: &Snap, index: usize) -> Result<(), Suspend>
        requires { index < FILE_INDEXES }
        ensures { IfErr result (λ why. MaySuspend snap.now why) }
    {
        let number = block_number(snap, &self.inode, index)?;
        if number == 0 {
            self.owed = 1 + self.owe_pointers(snap, index)?;
            return Ok(());
        }
        if self.is_whole(index) {
            return ask_whole(snap, number);
        }
        data_block(snap, number)?;
        Ok(())
    }

    // Asks for the free blocks that are owed.
    fn pay(&mut self, snap: &Snap) -> Result<(), Suspend>
        ensures { IfErr result (λ why. MaySuspend snap.now why) }
    {
        'owed: while self.owed > 0 {
            self.free.take(snap)?;
            self.owed -= 1;
        }
        Ok(())
    }

    /// Asks for the next object or block that wasn't read or claimed.
    pub(crate) fn go_on(&mut self, snap: &Snap) -> Result<(), Suspend>
        ensures { IfErr result (λ why. MaySuspend snap.now why) }
    {
        if !self.room.is_for(snap, self.wanted)? {
            return Ok(());
        }
        self.pay(snap)?;
        'indexes: for index in self.at..self.past {
            self.ask(snap, index)?;
            self.at = index + 1;
            self.pay(snap)?;
        }
        Ok(())
    }
}
