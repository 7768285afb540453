//! Links that are made.
ghost use Rattle.std.specs.Prelude.{◌≡◌, ◌+◌, ◌<◌, ◌≤◌, ℕ, length, true, IfErr, IfOk, OnOk};
ghost use Rattle.base.specs.declared.TheConstants.{BLOCK_BYTES};
ghost use Rattle.disk.specs.Crash.{Image};
ghost use Rattle.layout.specs.declared.inode.InodeKind.TheVariants as kinds;
ghost use Rattle.layout.specs.Decode.{node_with};
ghost use Rattle.layout.specs.InodeForm.{SoundInode};
ghost use Rattle.layout.specs.Places.{is_data};
ghost use Rattle.nfs_spec.specs.Model.Node.{Link};
ghost use Rattle.nfs_spec.specs.Model.Sound.{SoundTarget};
ghost use Rattle.nfs_spec.specs.Model.Tree.{Tree, free, with_node};
ghost use Rattle.nfs_spec.specs.Procedures.Fresh.{IsUnused};
ghost use Rattle.inode.specs.Over.{IsResumable, MaySuspend};
ghost use Rattle.inode.specs.WriteSets.WriteSetContents.{IsWriteSet, Shows, image_of, dirty_count};
ghost use Rattle.bitmap.specs.Inodes.Linked.{IsLinkWritten, filled, linked};

use crate::{mark_number, take_block};
use base::BLOCK_BYTES;
use disk::BlockNo;
use inode::{Suspend, WriteSet};
use layout::Inode;
use objects::Addr;
use std::alloc::{AllocError, Global};

// The inode with so many bytes in this block.
fn linked(inode: &Inode, size: usize, block: u32) -> Inode
    ensures { result ≡ linked inode.now size block }
{
    let mut new = *inode;
    new.size = size as u64;
    new.direct = [block, 0, 0, 0, 0, 0, 0, 0];
    new.indirect = 0;
    new.double = 0;
    new
}

// A block with these bytes, and zeros behind them.
fn filled(alloc: Global, bytes: &[u8]) -> Result<Vec<u8>, AllocError>
    requires { length bytes.now ≤ BLOCK_BYTES }
    ensures len { IfOk result (λ block. length block.items ≡ BLOCK_BYTES) }
    ensures is { IfOk result (λ block. block.items ≡ filled bytes.now) }
{
    let mut block = Vec::from_slice(alloc, bytes)?;
    block.resize(BLOCK_BYTES, 0)?;
    Ok(block)
}

// Writes a block and then an inode, whose number is marked.
fn write_link(
    alloc: Global,
    write_set: &mut WriteSet,
    number: u32,
    inode: &Inode,
    block: u32,
    bytes: Vec<u8>,
) -> Result<(), Suspend>
    requires less { number < write_set.old.there.geometry.inodes }
    requires lies { is_data write_set.old.there.geometry block ≡ true }
    requires len { length bytes.items ≡ BLOCK_BYTES }
    ensures shows { OnOk result ((blocks : Image) → Shows write_set.old (image_of blocks write_set.old)
        → Shows write_set.new (image_of blocks write_set.new)) }
    ensures link_written { OnOk result ((blocks : Image) → Shows write_set.old (image_of blocks write_set.old)
        → IsLinkWritten write_set.old.there.geometry number block bytes.items inode.now (image_of blocks write_set.old)
        (image_of blocks write_set.new)) }
    ensures seen { write_set.new.seen ≡ write_set.old.seen }
    ensures geometry { write_set.new.there.geometry ≡ write_set.old.there.geometry }
    ensures dirty_count { dirty_count write_set.new ≤ dirty_count write_set.old + 2 }
    ensures err { IfErr result (λ suspend. MaySuspend write_set.old.seen suspend) }
    ensures resumable { IfErr result (λ suspend. IsResumable suspend) }
{
    match write_set.put(Addr::whole(BlockNo(block)), bytes) {
        Ok(()) => {}
        Err(suspend) => return Err(suspend),
    }
    match mark_number(alloc, write_set, number, true) {
        Ok(()) => write_set.put_inode(alloc, number, inode),
        Err(suspend) => Err(suspend),
    }
}

/// Makes a link with the attributes of this inode and this target, under a number that none has.
pub fn make_link(
    alloc: Global,
    write_set: &mut WriteSet,
    number: u32,
    inode: &Inode,
    target: &[u8],
) -> Result<(), Suspend>
    ensures ok { OnOk result ((blocks : Image) (tree : Tree) → IsWriteSet write_set.old blocks tree
        → IsUnused tree number → inode.now.kind ≡ kinds.Link → SoundTarget target.now
        → ((block : ℕ) → is_data write_set.old.there.geometry block ≡ true
        → SoundInode write_set.old.there.geometry (linked inode.now (length target.now) block))
        → 1 ≤ free tree
        → IsWriteSet write_set.new blocks (with_node tree number (node_with inode.now (Link target.now)))) }
    ensures seen { write_set.new.seen ≡ write_set.old.seen }
    ensures dirty_count { dirty_count write_set.new ≤ dirty_count write_set.old + 2 }
    ensures err { IfErr result (λ suspend. MaySuspend write_set.old.seen suspend) }
    ensures resumable { IfErr result (λ suspend. (blocks : Image) (tree : Tree) → IsWriteSet write_set.old blocks tree
        → IsResumable suspend) }
{
    if number >= write_set.there().geometry.inodes || target.len() > BLOCK_BYTES {
        return Ok(());
    }
    let bytes = filled(alloc, target)?;
    match take_block(alloc, write_set) {
        Ok(Some(block)) => {
            let new = linked(inode, target.len(), block);
            write_link(alloc, write_set, number, &new, block, bytes)
        }
        Ok(None) => Ok(()),
        Err(suspend) => Err(suspend),
    }
}
