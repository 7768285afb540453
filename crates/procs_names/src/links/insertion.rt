//! Names that come, and the links and blocks that they take.
ghost use Rattle.std.specs.Prelude.{◌≡◌, ◌+◌, ◌≤◌, ◌^◌, nat_le, IfErr, IfOk, OnOk};
ghost use Rattle.nfs_spec.specs.Model.Node.{Body};
ghost use Rattle.nfs_spec.specs.Model.Tree.{Tree, free};
ghost use Rattle.nfs_spec.specs.Procedures.Changes.{changed_at, entered};
ghost use Rattle.nfs_spec.specs.Procedures.Link.{linked};
ghost use Rattle.procs_files.specs.Heads.{IsBodyOf, IsFileIn, dirent_of};
ghost use Rattle.procs_names.specs.Links.Rooms.{IsRoomy, dirent_adds, span_cost};
ghost use Rattle.procs_names.specs.Links.Shapes.{CanChange, CanEnterAt};

use crate::links::links::{more_links, parent_links};
use base::{BLOCK_BYTES, DIRECT_INDEXES, SLOTS_PER_BLOCK};
use nfs_types::Moment;
use procs_files::{Files, InodeAttributes, SlotDirent, WritableFiles};
use std::alloc::Global;

// The blocks of a directory that spans so many.
fn span_cost(span: u64) -> u64
    requires { span ≤ 2 ^ 52 }
    ensures { result ≡ span_cost span }
{
    if span > DIRECT_INDEXES as u64 {
        span + 1
    } else {
        span
    }
}

/// The blocks that a name in this slot adds to a directory.
pub fn dirent_adds(directory: &InodeAttributes, slot: u32) -> u32
    ensures is { result ≡ dirent_adds directory.now.size slot }
    ensures small { result ≤ 2 ^ 28 }
{
    let span = directory.size / BLOCK_BYTES as u64;
    let needed = (slot / SLOTS_PER_BLOCK) as u64 + 1;
    if needed <= span {
        0
    } else {
        (span_cost(needed) - span_cost(span)) as u32
    }
}

/// Whether a name in this slot of a directory has the blocks that it takes, and so many more are free.
pub fn has_dirent_blocks<F: Files>(
    files: &F,
    directory: &InodeAttributes,
    slot: u32,
    more: u32,
) -> Result<bool, F::Suspend>
    requires { more ≤ 2 ^ 28 }
    ensures err { IfErr result (λ suspend. F.may_suspend (F.source files.now) suspend) }
    ensures resumable { IfErr result (λ suspend. (world : F.World) (tree : Tree) → F.stands files.now world tree
        → F.is_resumable suspend) }
    ensures ok { IfOk result (λ has. (world : F.World) (tree : Tree) → F.stands files.now world tree
        → has ≡ nat_le (dirent_adds directory.now.size slot + more) (free tree)) }
{
    files.has_free_blocks(dirent_adds(directory, slot) + more)
}

/// The least free slot of a directory, where the blocks for a name in it and so many more are free.
pub fn slot_with_blocks<F: WritableFiles>(
    files: &F,
    directory: &InodeAttributes,
    more: u32,
) -> Result<Option<u32>, F::Suspend>
    requires { more ≤ 2 ^ 28 }
    ensures err { IfErr result (λ suspend. F.may_suspend (F.source files.now) suspend) }
    ensures resumable { IfErr result (λ suspend. (world : F.World) (tree : Tree) → F.stands files.now world tree
        → F.is_resumable suspend) }
    ensures ok { IfOk result (λ slot. (world : F.World) (tree : Tree) (body : Body)
        → F.stands files.now world tree → IsFileIn tree directory.now body
        → IsRoomy tree directory.now.size body more slot) }
{
    let Some(slot) = files.free_slot(directory)? else {
        return Ok(None);
    };
    if has_dirent_blocks(files, directory, slot, more)? {
        Ok(Some(slot))
    } else {
        Ok(None)
    }
}

/// The directory of a number, if there is one, gets a name for a file.
pub fn enter_name<F: WritableFiles>(
    alloc: Global,
    files: &mut F,
    moment: Moment,
    number: u32,
    name: &[u8],
    dirent: SlotDirent,
    file: &InodeAttributes,
) -> Result<(), F::Suspend>
    ensures err { IfErr result (λ suspend. F.may_suspend (F.source files.old) suspend) }
    ensures source { F.source files.new ≡ F.source files.old }
    ensures dirty_count { F.dirty_count files.new ≤ F.dirty_count files.old + 4 }
    ensures resumable { IfErr result (λ suspend. (world : F.World) (tree : Tree) → F.stands files.old world tree
        → F.is_resumable suspend) }
    ensures ok { OnOk result ((world : F.World) (tree : Tree) (body : Body) → F.stands files.old world tree
        → IsBodyOf file.now body → CanEnterAt tree moment number name.now (dirent_of dirent) body
        → F.stands files.new world (changed_at tree number (entered moment name.now (dirent_of dirent) body))) }
{
    let Some(directory) = files.file(number)? else {
        return Ok(());
    };
    let inode_attributes = InodeAttributes {
        nlink: more_links(directory.nlink, parent_links(file)),
        mtime: moment,
        ctime: moment,
        ..directory
    };
    let _inode_attributes = files.enter(alloc, &inode_attributes, name, dirent)?;
    Ok(())
}

/// The file of a number, if there is one, has one link more.
pub fn gain_link<F: WritableFiles>(
    files: &mut F,
    moment: Moment,
    number: u32,
) -> Result<(), F::Suspend>
    ensures err { IfErr result (λ suspend. F.may_suspend (F.source files.old) suspend) }
    ensures source { F.source files.new ≡ F.source files.old }
    ensures dirty_count { F.dirty_count files.new ≤ F.dirty_count files.old + 1 }
    ensures resumable { IfErr result (λ suspend. (world : F.World) (tree : Tree) → F.stands files.old world tree
        → F.is_resumable suspend) }
    ensures ok { OnOk result ((world : F.World) (tree : Tree) → F.stands files.old world tree
        → CanChange tree number (linked moment)
        → F.stands files.new world (changed_at tree number (linked moment))) }
{
    let Some(file) = files.file(number)? else {
        return Ok(());
    };
    let inode_attributes = InodeAttributes {
        nlink: more_links(file.nlink, 1),
        ctime: moment,
        ..file
    };
    files.set(&inode_attributes)
}
