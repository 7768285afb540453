//! What a call does to the files on blocks.
ghost use Rattle.std.specs.Prelude.{◌≡◌, ◌+◌, ◌<◌, ◌≤◌, length};
ghost use Rattle.base.specs.declared.TheConstants.{LARGEST_FILE};

use crate::added_blocks::unmapped;
use crate::attributes::set;
use crate::insertion::enter;
use crate::new_file::{make, new_number};
use crate::removal::depart;
use crate::size_changes::resize;
use crate::write_set_files::WriteSetFiles;
use crate::writes::write;
use bitmap::remove;
use inode::Suspend;
use procs_files::{InodeAttributes, SlotDirent, WritableFiles};
use std::alloc::Global;

impl<'a> WritableFiles for WriteSetFiles<'a> {
    ghost use Rattle.inode.specs.WriteSets.WriteSetContents.{dirty_count};

    ghost dirty_count = { λ files. dirty_count files.write_set };

    fn free_slot(&self, directory: &InodeAttributes) -> Result<Option<u32>, Suspend> {
        self.now().free_slot(directory)
    }

    fn is_empty(&self, file: &InodeAttributes) -> Result<bool, Suspend> {
        self.now().is_empty(file)
    }

    fn unmapped(&self, file: &InodeAttributes, offset: u64, count: usize) -> Result<u32, Suspend> {
        unmapped(&self.write_set, file, offset, count)
    }

    fn new_number(&self) -> Result<Option<u32>, Suspend> {
        new_number(&self.write_set)
    }

    fn set(&mut self, inode_attributes: &InodeAttributes) -> Result<(), Suspend> {
        set(self.alloc, &mut self.write_set, inode_attributes)
    }

    fn depart(&mut self, inode_attributes: &InodeAttributes, name: &[u8]) -> Result<(), Suspend> {
        depart(self.alloc, &mut self.write_set, inode_attributes, name)
    }

    fn enter(
        &mut self,
        alloc: Global,
        inode_attributes: &InodeAttributes,
        name: &[u8],
        dirent: SlotDirent,
    ) -> Result<InodeAttributes, Suspend> {
        enter(alloc, &mut self.write_set, inode_attributes, name, dirent)
    }

    fn write(
        &mut self,
        alloc: Global,
        inode_attributes: &InodeAttributes,
        offset: u64,
        text: &[u8],
    ) -> Result<InodeAttributes, Suspend> {
        write(alloc, &mut self.write_set, inode_attributes, offset, text)
    }

    fn resize(
        &mut self,
        inode_attributes: &InodeAttributes,
        size: u64,
    ) -> Result<InodeAttributes, Suspend> {
        resize(self.alloc, &mut self.write_set, inode_attributes, size)
    }

    fn make(
        &mut self,
        alloc: Global,
        inode_attributes: &InodeAttributes,
        target: &[u8],
    ) -> Result<(), Suspend> {
        make(alloc, &mut self.write_set, inode_attributes, target)
    }

    fn remove(&mut self, number: u32) -> Result<(), Suspend> {
        remove(self.alloc, &mut self.write_set, number)
    }
}
