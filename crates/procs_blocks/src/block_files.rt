//! What is asked of the files on the blocks of an image.
ghost use Rattle.std.specs.Prelude.{◌≡◌};
ghost use Rattle.dir.specs.Search.Known.{AreKnown};

use crate::contents::{bytes_from, dirent_under, name_from, target_in};
use crate::heads::file;
use crate::space::{are_enough_free_for, blocks_left, numbers_left};
use dir::Names;
use inode::{Snap, Suspend, held};
use nfs_types::{Octets, Pieces};
use procs_files::{Files, InodeAttributes, SlotDirent, SlotName};
use std::alloc::Global;

/// The files on the blocks that were read so far, and what is known of names in their directories.
#[derive(Drop)]
pub struct BlockFiles<'a> {
    pub(crate) snap: &'a Snap,
    pub(crate) names: Option<&'a Names>,
    pub(crate) alloc: Global,
    pub ghost known: { AreKnown snap.now names },
}

impl<'a> BlockFiles<'a> {
    ghost use Rattle.dir.specs.Search.Known.{IsKnown};

    /// The files on the blocks that were read so far.
    pub fn new(alloc: Global, snap: &'a Snap) -> BlockFiles<'a>
        ensures { result.snap.now ≡ snap.now }
    {
        BlockFiles {
            snap,
            names: None,
            alloc,
        }
    }

    /// The same, where these names were looked for as far as their blocks were read.
    pub fn searched(alloc: Global, snap: &'a Snap, names: &'a Names) -> BlockFiles<'a>
        requires { IsKnown snap.now names.now }
        ensures { result.snap.now ≡ snap.now }
    {
        BlockFiles {
            snap,
            names: Some(names),
            alloc,
        }
    }
}

impl<'a> Files for BlockFiles<'a> {
    ghost use Rattle.std.specs.Prelude.{◌≡◌};
    ghost use Rattle.disk.specs.Crash.{Image};
    ghost use Rattle.inode.specs.declared.snap.Snap.{Snap};
    ghost use Rattle.inode.specs.Over.{IsOver, IsResumable, MaySuspend};
    ghost use Rattle.procs_blocks.specs.Memory.{may_lack_memory, memory_is_no_fault};

    type Suspend = Suspend;

    ghost World = { Image };

    ghost Source = { Snap };

    ghost source = { λ files. files.snap.now };

    ghost may_suspend = { MaySuspend };

    ghost is_resumable = { IsResumable };

    ghost was_read = { λ snap number. Unit {0} };

    ghost stands = { λ files blocks tree. IsOver files.snap.now blocks tree };

    ghost may_lack_memory = { λ snap error suspend is. may_lack_memory snap suspend is };

    ghost memory_is_no_fault = { λ error suspend is. memory_is_no_fault suspend is };

    fn inodes(&self) -> u32 {
        self.snap.geometry.inodes
    }

    fn data_blocks(&self) -> u32 {
        self.snap.geometry.data_blocks()
    }

    fn file(&self, number: u32) -> Result<Option<InodeAttributes>, Suspend> {
        file(self.snap, number)
    }

    fn dirent(
        &self,
        directory: &InodeAttributes,
        name: &[u8],
    ) -> Result<Option<SlotDirent>, Suspend> {
        match held(self.snap, directory.number)? {
            Some(inode) => dirent_under(self.snap, self.names, directory.number, &inode, name),
            None => Ok(None),
        }
    }

    fn next_name(
        &self,
        alloc: Global,
        directory: &InodeAttributes,
        from: u64,
    ) -> Result<Option<SlotName>, Suspend> {
        match held(self.snap, directory.number)? {
            Some(inode) => name_from(alloc, self.snap, &inode, from),
            None => Ok(None),
        }
    }

    fn bytes(
        &self,
        alloc: Global,
        file: &InodeAttributes,
        offset: u64,
        count: u32,
    ) -> Result<Pieces, Suspend> {
        match held(self.snap, file.number)? {
            Some(inode) => bytes_from(alloc, self.snap, &inode, offset, count),
            None => Ok(Pieces::new(alloc)),
        }
    }

    fn target(&self, alloc: Global, link: &InodeAttributes) -> Result<Octets, Suspend> {
        match held(self.snap, link.number)? {
            Some(inode) => Ok(Octets::new(target_in(alloc, self.snap, &inode)?)),
            None => Ok(Octets::new(Vec::new(alloc))),
        }
    }

    fn has_free_blocks(&self, blocks: u32) -> Result<bool, Suspend> {
        are_enough_free_for(self.snap, blocks)
    }

    fn free_blocks(&self) -> Result<u32, Suspend> {
        blocks_left(self.snap)
    }

    fn free_numbers(&self) -> Result<u32, Suspend> {
        numbers_left(self.snap)
    }
}
