//! The files on blocks with what a call writes over them.
ghost use Rattle.std.specs.Prelude.{◌≡◌};
ghost use Rattle.inode.specs.declared.suspend.Suspend.{Suspend as Stopped};
ghost use Rattle.inode.specs.Over.{MaySuspend};

use crate::BlockFiles;
use inode::{Suspend, WriteSet};
use nfs_types::{Octets, Pieces};
use procs_files::{Files, InodeAttributes, SlotDirent, SlotName};
use std::alloc::Global;

/// The files on the blocks that were read so far, with what was written over them.
#[derive(Drop)]
pub struct WriteSetFiles<'a> {
    pub(crate) write_set: WriteSet<'a>,
    pub(crate) alloc: Global,
}

impl<'a> WriteSetFiles<'a> {
    /// The files of a write set.
    pub fn new(alloc: Global, write_set: WriteSet<'a>) -> WriteSetFiles<'a>
        ensures { result.write_set ≡ write_set.entry }
    {
        WriteSetFiles { write_set, alloc }
    }

    /// The write set in which they lie.
    pub fn into_write_set(self) -> WriteSet<'a>
        ensures { result ≡ self.entry.write_set }
    {
        self.write_set
    }

    // The files as they are now. A reading of them stops for nothing that was read.
    pub(crate) fn now(&self) -> BlockFiles<'_>
        ensures there { result.snap.now ≡ self.now.write_set.there }
        ensures stops { (suspend : Stopped) → MaySuspend result.snap.now suspend → MaySuspend self.now.write_set.seen suspend }
    {
        BlockFiles::new(self.alloc, self.write_set.there())
    }
}

impl<'a> Files for WriteSetFiles<'a> {
    ghost use Rattle.std.specs.Prelude.{◌≡◌};
    ghost use Rattle.disk.specs.Crash.{Image};
    ghost use Rattle.inode.specs.declared.snap.Snap.{Snap};
    ghost use Rattle.inode.specs.Over.{IsResumable, MaySuspend};
    ghost use Rattle.inode.specs.WriteSets.WriteSetContents.{IsWriteSet};
    ghost use Rattle.procs_blocks.specs.Memory.{may_lack_memory, memory_is_no_fault};

    type Suspend = Suspend;

    ghost World = { Image };

    ghost Source = { Snap };

    ghost source = { λ files. files.write_set.seen };

    ghost may_suspend = { MaySuspend };

    ghost is_resumable = { IsResumable };

    ghost was_read = { λ snap number. Unit {0} };

    ghost stands = { λ files blocks tree. IsWriteSet files.write_set blocks tree };

    ghost may_lack_memory = { λ snap error suspend is. may_lack_memory snap suspend is };

    ghost memory_is_no_fault = { λ error suspend is. memory_is_no_fault suspend is };

    fn inodes(&self) -> u32 {
        self.now().inodes()
    }

    fn data_blocks(&self) -> u32 {
        self.now().data_blocks()
    }

    fn file(&self, number: u32) -> Result<Option<InodeAttributes>, Suspend> {
        self.now().file(number)
    }

    fn dirent(
        &self,
        directory: &InodeAttributes,
        name: &[u8],
    ) -> Result<Option<SlotDirent>, Suspend> {
        self.now().dirent(directory, name)
    }

    fn next_name(
        &self,
        alloc: Global,
        directory: &InodeAttributes,
        from: u64,
    ) -> Result<Option<SlotName>, Suspend> {
        self.now().next_name(alloc, directory, from)
    }

    fn bytes(
        &self,
        alloc: Global,
        file: &InodeAttributes,
        offset: u64,
        count: u32,
    ) -> Result<Pieces, Suspend> {
        self.now().bytes(alloc, file, offset, count)
    }

    fn target(&self, alloc: Global, link: &InodeAttributes) -> Result<Octets, Suspend> {
        self.now().target(alloc, link)
    }

    fn has_free_blocks(&self, blocks: u32) -> Result<bool, Suspend> {
        self.now().has_free_blocks(blocks)
    }

    fn free_blocks(&self) -> Result<u32, Suspend> {
        self.now().free_blocks()
    }

    fn free_numbers(&self) -> Result<u32, Suspend> {
        self.now().free_numbers()
    }
}
