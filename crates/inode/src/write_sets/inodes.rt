//! Inodes that are written.
ghost use Rattle.std.specs.Prelude.{ℕ, ◌≡◌, ◌+◌, ◌<◌, ◌≤◌, IfErr, OnOk, replicate};
ghost use Rattle.base.specs.declared.TheConstants.{INODE_BYTES};
ghost use Rattle.disk.specs.Crash.{Image};
ghost use Rattle.layout.specs.Parts.{with_bytes, with_inode};
ghost use Rattle.layout.specs.Places.{inode_block, inode_offset};
ghost use Rattle.inode.specs.Over.{IsResumable, MaySuspend};
ghost use Rattle.inode.specs.WriteSets.WriteSetContents.{Shows, fresh, fresh_inode, image_of, dirty_count};

use crate::Suspend;
use crate::write_sets::WriteSet;
use layout::Inode;
use std::alloc::Global;

impl<'a> WriteSet<'a> {
    /// Writes the inode of a number.
    pub fn put_inode(&mut self, alloc: Global, number: u32, inode: &Inode) -> Result<(), Suspend>
        ensures shows { OnOk result ((image : Image) → Shows self.old image
            → Shows self.new (with_inode self.old.there.geometry image number inode.now)) }
        ensures image { OnOk result ((blocks : Image) → image_of blocks self.new
            ≡ with_inode self.old.there.geometry (image_of blocks self.old) number inode.now) }
        ensures seen { self.new.seen ≡ self.old.seen }
        ensures geometry { self.new.there.geometry ≡ self.old.there.geometry }
        ensures dirty_count { dirty_count self.new ≤ dirty_count self.old + 1 }
        // An inode counts once, however often it is put, and what was written stays written.
        ensures once { dirty_count self.new + fresh_inode self.new number ≤ dirty_count self.old + fresh_inode self.old number }
        ensures stays { (block offset len : ℕ) → fresh block offset len self.new ≤ fresh block offset len self.old }
        ensures err { IfErr result (λ suspend. MaySuspend self.old.seen suspend) }
        ensures resumable { IfErr result (λ suspend. number < self.old.there.geometry.inodes → IsResumable suspend) }
    {
        let geometry = self.there().geometry;
        if number >= geometry.inodes {
            return Err(Suspend::Io);
        }
        let bytes = inode.write(alloc)?;
        self.put(geometry.inode_addr(number), bytes)?;
        Ok(())
    }

    /// Makes the inode of a number a free one, which is nothing but zeros.
    pub fn erase_inode(&mut self, alloc: Global, number: u32) -> Result<(), Suspend>
        ensures shows { OnOk result ((image : Image) → Shows self.old image
            → Shows self.new (with_bytes image (inode_block self.old.there.geometry number)
            (inode_offset number) (replicate INODE_BYTES 0))) }
        ensures image { OnOk result ((blocks : Image) → image_of blocks self.new
            ≡ with_bytes (image_of blocks self.old) (inode_block self.old.there.geometry number)
            (inode_offset number) (replicate INODE_BYTES 0)) }
        ensures seen { self.new.seen ≡ self.old.seen }
        ensures geometry { self.new.there.geometry ≡ self.old.there.geometry }
        ensures dirty_count { dirty_count self.new ≤ dirty_count self.old + 1 }
        ensures err { IfErr result (λ suspend. MaySuspend self.old.seen suspend) }
        ensures resumable { IfErr result (λ suspend. number < self.old.there.geometry.inodes → IsResumable suspend) }
    {
        let geometry = self.there().geometry;
        if number >= geometry.inodes {
            return Err(Suspend::Io);
        }
        let bytes = Inode::free(alloc)?;
        self.put(geometry.inode_addr(number), bytes)?;
        Ok(())
    }
}
