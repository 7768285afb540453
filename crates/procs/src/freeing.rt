//! What a call asks for behind a run that frees blocks of a file: of one that is cut (RFC 1813, section 3.3.2), or that
//! loses its last name (sections 3.3.12 to 3.3.14). It goes by the file's pointer blocks and not by its size. These are
//! positions, of which nothing is claimed.
ghost use Rattle.std.specs.Prelude.{◌≡◌, ◌≤◌, length, IfErr};
ghost use Rattle.base.specs.declared.TheConstants.{BLOCK_BYTES, FILE_INDEXES};
ghost use Rattle.inode.specs.Over.{MaySuspend};

use crate::free_slots::behind_free_slots;
use crate::pieces::{ask_block_bit, ask_number_bit};
use crate::pointers::Pointers;
use base::{BLOCK_BYTES, DIRECT_INDEXES, FIRST_DOUBLE_INDEX, INDIRECT_INDEXES, LARGEST_FILE};
use dir::next_name;
use inode::{Snap, Suspend, block_number, data_block, held};
use layout::{Inode, InodeKind, Numbers};
use std::alloc::Global;

/// A file, and how many of its indexes stay; whether a part of the last of these is written over with zeros; the number
/// that no file has then, where none stays; whether it is yet to be looked through for names, and from which slot on; its
/// pointer blocks; and
/// how far the bits of what is freed were asked for: those of inner blocks of a file that is gone, and those of what
/// the indirect block names, inner blocks, and so many numbers of the next; and whether an inner block stays.
#[derive(Drop)]
pub(crate) struct Freeing {
    inode: Inode,
    kept: usize,
    is_zeroed: bool,
    number: Option<u32>,
    is_looked_through: bool,
    from: u64,
    pointers: Pointers,
    marked: usize,
    is_past_far: bool,
    inners: usize,
    at: usize,
    has_inner: bool,
    ghost within: { kept ≤ FILE_INDEXES },
}

// Asks for the bit of a block that is freed, if the number is that of one.
fn ask_freed(snap: &Snap, number: u32) -> Result<(), Suspend>
    ensures { IfErr result (λ why. MaySuspend snap.now why) }
{
    if number == 0 {
        return Ok(());
    }
    ask_block_bit(snap, number)
}

// Whether one of the first so many numbers in a pointer block is that of a block.
fn names_any(bytes: &[u8], count: usize) -> bool
    requires { length bytes.now ≡ BLOCK_BYTES }
{
    'indexes: for index in 0..count.min(INDIRECT_INDEXES) {
        if Numbers::at(bytes, index) != 0 {
            return true;
        }
    }
    false
}

impl Freeing {
    /// What the file of a number asks for that is cut to this size.
    pub(crate) fn cut(snap: &Snap, number: u32, size: u64) -> Result<Option<Freeing>, Suspend> {
        let Some(inode) = held(snap, number)? else {
            return Ok(None);
        };
        if inode.kind != InodeKind::Regular || size >= inode.size || size > LARGEST_FILE {
            return Ok(None);
        }
        Ok(Some(Freeing {
            inode,
            kept: ((size + BLOCK_BYTES as u64 - 1) / BLOCK_BYTES as u64) as usize,
            is_zeroed: size % BLOCK_BYTES as u64 != 0,
            number: None,
            is_looked_through: false,
            from: 0,
            pointers: Pointers::begin(inode),
            marked: 0,
            is_past_far: false,
            inners: 0,
            at: 0,
            has_inner: false,
        }))
    }

    /// What the file of a number asks for that loses a name, if that is its last: as a directory it is looked through
    /// for names before.
    pub(crate) fn gone(snap: &Snap, number: u32) -> Result<Option<Freeing>, Suspend>
        ensures { IfErr result (λ why. MaySuspend snap.now why) }
    {
        let Some(inode) = held(snap, number)? else {
            return Ok(None);
        };
        let is_directory = inode.kind == InodeKind::Directory;
        if !is_directory && inode.nlink > 1 {
            return Ok(None);
        }
        Ok(Some(Freeing {
            inode,
            kept: 0,
            is_zeroed: false,
            number: Some(number),
            is_looked_through: is_directory,
            from: 0,
            pointers: Pointers::begin(inode),
            marked: 0,
            is_past_far: false,
            inners: 0,
            at: 0,
            has_inner: false,
        }))
    }

    /// Whether the file is a directory.
    pub(crate) fn is_of_directory(&self) -> bool {
        self.inode.kind == InodeKind::Directory
    }

    // Asks for what is looked through for names. Whether there is none.
    fn has_no_name(&mut self, alloc: Global, snap: &Snap) -> Result<bool, Suspend>
        ensures { IfErr result (λ why. MaySuspend snap.now why) }
    {
        if !self.is_looked_through {
            return Ok(true);
        }
        match next_name(alloc, snap, &self.inode, self.from) {
            Ok(Some(_)) => Ok(false),
            Ok(None) => {
                self.is_looked_through = false;
                Ok(true)
            }
            Err(why) => {
                self.from = behind_free_slots(snap, &self.inode, self.from);
                Err(why)
            }
        }
    }

    // Asks for the last block that stays, where a part of it is written over.
    fn ask_last(&self, snap: &Snap) -> Result<(), Suspend>
        ensures { IfErr result (λ why. MaySuspend snap.now why) }
    {
        if !self.is_zeroed || self.kept == 0 {
            return Ok(());
        }
        let number = block_number(snap, &self.inode, self.kept - 1)?;
        if number != 0 {
            data_block(snap, number)?;
        }
        Ok(())
    }

    // Asks for the bits of the pointer blocks of a file that is gone.
    fn ask_pointer_bits(&mut self, snap: &Snap) -> Result<(), Suspend>
        ensures { IfErr result (λ why. MaySuspend snap.now why) }
    {
        ask_freed(snap, self.inode.indirect)?;
        ask_freed(snap, self.inode.double)?;
        if !snap.geometry.is_data(self.inode.double) {
            return Ok(());
        }
        let numbers = data_block(snap, self.inode.double)?;
        'inners: for inner in self.marked..INDIRECT_INDEXES {
            ask_freed(snap, Numbers::at(numbers, inner))?;
            self.marked = inner + 1;
        }
        Ok(())
    }

    // Asks for the bits of the blocks that the inode names itself and that are freed.
    fn ask_near(&self, snap: &Snap) -> Result<(), Suspend>
        ensures { IfErr result (λ why. MaySuspend snap.now why) }
    {
        'indexes: for index in self.kept..DIRECT_INDEXES {
            ask_freed(snap, self.inode.direct[index])?;
        }
        Ok(())
    }

    // Asks for the bits of the blocks that a pointer block names, if there is one, from the first index that is freed
    // on; its own numbers begin with this index. Then for its own bit, where the file is cut and none of its numbers
    // stays. Whether one does.
    fn ask_row(&mut self, snap: &Snap, pointer: u32, first: usize) -> Result<bool, Suspend>
        ensures { IfErr result (λ why. MaySuspend snap.now why) }
    {
        if !snap.geometry.is_data(pointer) {
            return Ok(false);
        }
        let bytes = data_block(snap, pointer)?;
        let kept = self.kept.saturating_sub(first);
        'indexes: for index in self.at.max(kept)..INDIRECT_INDEXES {
            ask_freed(snap, Numbers::at(bytes, index))?;
            self.at = index + 1;
        }
        if names_any(bytes, kept) {
            return Ok(true);
        }
        if self.number.is_none() {
            ask_block_bit(snap, pointer)?;
        }
        Ok(false)
    }

    // Asks for the bits that the indirect block has freed.
    fn ask_far(&mut self, snap: &Snap) -> Result<(), Suspend>
        ensures { IfErr result (λ why. MaySuspend snap.now why) }
    {
        if !self.is_past_far {
            self.ask_row(snap, self.inode.indirect, DIRECT_INDEXES)?;
            self.is_past_far = true;
            self.at = 0;
        }
        Ok(())
    }

    // Asks for the bits that the inner blocks of these numbers have freed, one block behind the other.
    fn ask_inners(&mut self, snap: &Snap, numbers: &[u8]) -> Result<(), Suspend>
        requires { length numbers.now ≡ BLOCK_BYTES }
        ensures { IfErr result (λ why. MaySuspend snap.now why) }
    {
        'inners: for inner in self.inners..INDIRECT_INDEXES {
            let first = FIRST_DOUBLE_INDEX + INDIRECT_INDEXES * inner;
            if self.ask_row(snap, Numbers::at(numbers, inner), first)? {
                self.has_inner = true;
            }
            self.inners = inner + 1;
            self.at = 0;
        }
        Ok(())
    }

    // Asks for the bits that the double indirect block has freed, and then for its own, where the file is cut and no
    // inner block stays.
    fn ask_double(&mut self, snap: &Snap) -> Result<(), Suspend>
        ensures { IfErr result (λ why. MaySuspend snap.now why) }
    {
        let double = self.inode.double;
        if !snap.geometry.is_data(double) {
            return Ok(());
        }
        let numbers = data_block(snap, double)?;
        self.ask_inners(snap, numbers)?;
        if self.number.is_some() || self.has_inner {
            return Ok(());
        }
        ask_block_bit(snap, double)
    }

    /// Asks for the next object that wasn't read.
    pub(crate) fn go_on(&mut self, alloc: Global, snap: &Snap) -> Result<(), Suspend>
        ensures { IfErr result (λ why. MaySuspend snap.now why) }
    {
        if !self.has_no_name(alloc, snap)? {
            return Ok(());
        }
        self.pointers.go_on(snap)?;
        self.ask_last(snap)?;
        if self.number.is_some() {
            self.ask_pointer_bits(snap)?;
        }
        self.ask_near(snap)?;
        self.ask_far(snap)?;
        self.ask_double(snap)?;
        match self.number {
            Some(number) => ask_number_bit(snap, number),
            None => Ok(()),
        }
    }
}
