//! Files of another size.
ghost use Rattle.std.specs.Prelude.{◌≡◌, false, ◌+◌, ◌<◌, ◌≤◌, ℕ, Some, None, Ok, IfErr, IfOk, OnOk};
ghost use Rattle.base.specs.declared.TheConstants.{LARGEST_FILE};
ghost use Rattle.disk.specs.Crash.{Image};
ghost use Rattle.layout.specs.declared.inode.Inode.{Inode as Held};
ghost use Rattle.layout.specs.declared.inode.InodeKind.TheVariants as kinds;
ghost use Rattle.layout.specs.Decode.{inode_at, node_with};
ghost use Rattle.layout.specs.InodeForm.{SoundInode};
ghost use Rattle.nfs_spec.specs.Model.Node.{Node};
ghost use Rattle.nfs_spec.specs.Model.SetAttr.{with_length};
ghost use Rattle.nfs_spec.specs.Model.Tree.{Tree, node_at, with_node};
ghost use Rattle.inode.specs.Over.{HasInode, IsResumable, MaySuspend};
ghost use Rattle.inode.specs.Shown.{body_in};
ghost use Rattle.inode.specs.WriteSets.Attributes.{attributed};
ghost use Rattle.inode.specs.WriteSets.WriteSetContents.{IsWriteSet, image_of, dirty_count};
ghost use Rattle.inode_sizes.specs.Sized.{IsUse, is_regular_kind, sized};

use crate::cuts::cut;
use inode::{Suspend, WriteSet, attributed, held};
use layout::{Inode, InodeKind};
use std::alloc::Global;

// The inode with this size, and its own blocks.
fn sized(inode: &Inode, size: u64) -> Inode
    ensures { result ≡ sized inode.now size }
{
    let mut new = *inode;
    new.size = size;
    new
}

// Fills a regular file up with zeros, whose attributes become these.
fn grow(
    alloc: Global,
    write_set: &mut WriteSet,
    number: u32,
    inode: &Inode,
    looks: &Inode,
    size: u64,
) -> Result<(), Suspend>
    requires more { inode.now.size ≤ size }
    requires small { size ≤ LARGEST_FILE }
    requires regular { inode.now.kind ≡ kinds.Regular }
    ensures ok { OnOk result ((blocks : Image) (tree : Tree) → IsWriteSet write_set.old blocks tree
        → HasInode write_set.old.there (image_of blocks write_set.old) tree number inode.now
        → SoundInode write_set.old.there.geometry (attributed inode.now looks.now)
        → IsWriteSet write_set.new blocks (with_node tree number (node_with (attributed inode.now looks.now)
        (with_length (Some size)
        (body_in write_set.old.there.geometry (image_of blocks write_set.old) (attributed inode.now looks.now)))))) }
    ensures cost { (blocks : Image) (tree : Tree) → IsWriteSet write_set.old blocks tree
        → HasInode write_set.old.there (image_of blocks write_set.old) tree number inode.now
        → SoundInode write_set.old.there.geometry (attributed inode.now looks.now)
        → IsUse None
        (body_in write_set.old.there.geometry (image_of blocks write_set.old) (attributed inode.now looks.now))
        (with_length (Some size)
        (body_in write_set.old.there.geometry (image_of blocks write_set.old) (attributed inode.now looks.now))) }
    ensures seen { write_set.new.seen ≡ write_set.old.seen }
    ensures dirty_count { dirty_count write_set.new ≤ dirty_count write_set.old + 5 }
    ensures err { IfErr result (λ suspend. MaySuspend write_set.old.seen suspend) }
    ensures resumable { IfErr result (λ suspend. number < write_set.old.there.geometry.inodes → IsResumable suspend) }
{
    write_set.put_inode(alloc, number, &sized(&attributed(inode, looks), size))
}

// Gives a file that is no regular one, and so keeps its size, these attributes.
fn keep(
    alloc: Global,
    write_set: &mut WriteSet,
    number: u32,
    inode: &Inode,
    looks: &Inode,
    size: u64,
) -> Result<Option<u32>, Suspend>
    requires other { is_regular_kind inode.now.kind ≡ false }
    ensures ok { IfOk result (λ used. (blocks : Image) (tree : Tree) (node : Node) → IsWriteSet write_set.old blocks tree
        → node_at tree number ≡ Some node
        → HasInode write_set.old.there (image_of blocks write_set.old) tree number inode.now
        → SoundInode write_set.old.there.geometry (attributed inode.now looks.now)
        → IsUse used
        (body_in write_set.old.there.geometry (image_of blocks write_set.old) (attributed inode.now looks.now))
        (with_length (Some size)
        (body_in write_set.old.there.geometry (image_of blocks write_set.old) (attributed inode.now looks.now)))
        × IsWriteSet write_set.new blocks (with_node tree number (node_with (attributed inode.now looks.now)
        (with_length (Some size)
        (body_in write_set.old.there.geometry (image_of blocks write_set.old) (attributed inode.now looks.now)))))) }
    ensures seen { write_set.new.seen ≡ write_set.old.seen }
    ensures dirty_count { dirty_count write_set.new ≤ dirty_count write_set.old + 5 }
    ensures err { IfErr result (λ suspend. MaySuspend write_set.old.seen suspend) }
    ensures resumable { IfErr result (λ suspend. (blocks : Image) (tree : Tree) → IsWriteSet write_set.old blocks tree
        → HasInode write_set.old.there (image_of blocks write_set.old) tree number inode.now → IsResumable suspend) }
{
    match write_set.set(alloc, number, looks) {
        Ok(()) => Ok(None),
        Err(suspend) => Err(suspend),
    }
}

// Gives the file of this inode a size, if it is a regular file, and these attributes.
fn resize_there(
    alloc: Global,
    write_set: &mut WriteSet,
    number: u32,
    inode: &Inode,
    looks: &Inode,
    size: u64,
) -> Result<Option<u32>, Suspend>
    requires small { size ≤ LARGEST_FILE }
    ensures ok { IfOk result (λ used. (blocks : Image) (tree : Tree) (node : Node) → IsWriteSet write_set.old blocks tree
        → node_at tree number ≡ Some node
        → HasInode write_set.old.there (image_of blocks write_set.old) tree number inode.now
        → SoundInode write_set.old.there.geometry (attributed inode.now looks.now)
        → IsUse used
        (body_in write_set.old.there.geometry (image_of blocks write_set.old) (attributed inode.now looks.now))
        (with_length (Some size)
        (body_in write_set.old.there.geometry (image_of blocks write_set.old) (attributed inode.now looks.now)))
        × IsWriteSet write_set.new blocks (with_node tree number (node_with (attributed inode.now looks.now)
        (with_length (Some size)
        (body_in write_set.old.there.geometry (image_of blocks write_set.old) (attributed inode.now looks.now)))))) }
    ensures seen { write_set.new.seen ≡ write_set.old.seen }
    ensures dirty_count { dirty_count write_set.new ≤ dirty_count write_set.old + 5 }
    ensures err { IfErr result (λ suspend. MaySuspend write_set.old.seen suspend) }
    ensures resumable { IfErr result (λ suspend. (blocks : Image) (tree : Tree) → IsWriteSet write_set.old blocks tree
        → HasInode write_set.old.there (image_of blocks write_set.old) tree number inode.now → IsResumable suspend) }
{
    match inode.kind {
        InodeKind::Regular => {
            if size < inode.size {
                return match cut(alloc, write_set, number, inode, looks, size) {
                    Ok(used) => Ok(Some(used)),
                    Err(suspend) => Err(suspend),
                };
            }
            match grow(alloc, write_set, number, inode, looks, size) {
                Ok(()) => Ok(None),
                Err(suspend) => Err(suspend),
            }
        }
        InodeKind::Directory => keep(alloc, write_set, number, inode, looks, size),
        InodeKind::Link => keep(alloc, write_set, number, inode, looks, size),
    }
}

/// Gives the file of a number a size, if it is a regular file, and the attributes of this inode: it is cut, or
/// filled up with zeros, for which it takes no block. Said is
/// how many blocks it uses then, if it was cut. Where there is no file nothing is done.
pub fn resize(
    alloc: Global,
    write_set: &mut WriteSet,
    number: u32,
    looks: &Inode,
    size: u64,
) -> Result<Option<u32>, Suspend>
    requires small { size ≤ LARGEST_FILE }
    ensures ok { IfOk result (λ used. (blocks : Image) (tree : Tree) (node : Node) (inode : Held)
        → IsWriteSet write_set.old blocks tree → node_at tree number ≡ Some node
        → inode_at write_set.old.there.geometry (image_of blocks write_set.old) number ≡ Ok (Some inode)
        → SoundInode write_set.old.there.geometry (attributed inode looks.now)
        → IsUse used
        (body_in write_set.old.there.geometry (image_of blocks write_set.old) (attributed inode looks.now))
        (with_length (Some size)
        (body_in write_set.old.there.geometry (image_of blocks write_set.old) (attributed inode looks.now)))
        × IsWriteSet write_set.new blocks (with_node tree number (node_with (attributed inode looks.now)
        (with_length (Some size)
        (body_in write_set.old.there.geometry (image_of blocks write_set.old) (attributed inode looks.now)))))) }
    ensures seen { write_set.new.seen ≡ write_set.old.seen }
    ensures dirty_count { dirty_count write_set.new ≤ dirty_count write_set.old + 5 }
    ensures err { IfErr result (λ suspend. MaySuspend write_set.old.seen suspend) }
    ensures resumable { IfErr result (λ suspend. (blocks : Image) (tree : Tree) → IsWriteSet write_set.old blocks tree
        → IsResumable suspend) }
{
    match held(write_set.there(), number) {
        Ok(Some(inode)) => resize_there(alloc, write_set, number, &inode, looks, size),
        Ok(None) => Ok(None),
        Err(suspend) => Err(suspend),
    }
}
