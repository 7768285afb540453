//! A file in its new place.
ghost use Rattle.std.specs.Prelude.{◌≡◌, ◌+◌, ◌≤◌, ℕ, Option, Some, IfErr, OnOk};
ghost use Rattle.nfs_spec.specs.Model.Node.{Body, Node};
ghost use Rattle.nfs_spec.specs.Model.Tree.{Tree};
ghost use Rattle.nfs_spec.specs.Procedures.Changes.{changed_at, without_name};
ghost use Rattle.nfs_spec.specs.Procedures.Rename.{moved};
ghost use Rattle.procs_files.specs.Heads.{IsBodyOf, IsFileIn, IsFound};
ghost use Rattle.procs_names.specs.Links.Shapes.{CanChange, CanTake};
ghost use Rattle.procs_renames.specs.Placing.{CanMove, CanLinkRenamed, CanReplace, above, moved_tree, placed_tree};

use nfs_types::{FileKind, Moment};
use procs_files::{InodeAttributes, SlotDirent, WritableFiles};
use procs_names::{depart, enter_name, take_name};
use std::alloc::Global;

// What stood in the place loses its name, if anything did.
fn unlink_replaced<F: WritableFiles>(
    files: &mut F,
    moment: Moment,
    directory: u32,
    name: &[u8],
    replaced: &Option<InodeAttributes>,
) -> Result<(), F::Suspend>
    ensures err { IfErr result (λ suspend. F.may_suspend (F.source files.old) suspend) }
    ensures source { F.source files.new ≡ F.source files.old }
    ensures dirty_count { F.dirty_count files.new ≤ F.dirty_count files.old + 3 }
    ensures resumable { IfErr result (λ suspend. (world : F.World) (tree : Tree) (found : Option (ℕ × Node))
        → F.stands files.old world tree → IsFound tree found replaced.now
        → ((other : ℕ × Node) → found ≡ Some other
        → CanTake tree moment directory name.now other.0 other.1) → F.is_resumable suspend) }
    ensures ok { OnOk result ((world : F.World) (tree : Tree) (found : Option (ℕ × Node))
        → F.stands files.old world tree → IsFound tree found replaced.now
        → ((other : ℕ × Node) → found ≡ Some other
        → CanTake tree moment directory name.now other.0 other.1)
        → F.stands files.new world (without_name tree moment directory name.now found)) }
{
    match replaced {
        Some(file) => take_name(files, moment, directory, name, file),
        None => Ok(()),
    }
}

// The file of a number, if there is one, is in its new place: a directory has another parent.
fn settle<F: WritableFiles>(
    files: &mut F,
    moment: Moment,
    number: u32,
    parent: u32,
) -> Result<(), F::Suspend>
    ensures err { IfErr result (λ suspend. F.may_suspend (F.source files.old) suspend) }
    ensures source { F.source files.new ≡ F.source files.old }
    ensures dirty_count { F.dirty_count files.new ≤ F.dirty_count files.old + 1 }
    ensures resumable { IfErr result (λ suspend. (world : F.World) (tree : Tree) → F.stands files.old world tree
        → F.is_resumable suspend) }
    ensures ok { OnOk result ((world : F.World) (tree : Tree) → F.stands files.old world tree
        → CanChange tree number (moved moment parent)
        → F.stands files.new world (changed_at tree number (moved moment parent))) }
{
    let Some(file) = files.file(number)? else {
        return Ok(());
    };
    let inode_attributes = InodeAttributes {
        ctime: moment,
        parent: above(&file, parent),
        ..file
    };
    files.set(&inode_attributes)
}

// The number of the directory above a file, which for what is no directory stays as it is.
fn above(file: &InodeAttributes, parent: u32) -> u32
    ensures { result ≡ above file.now parent }
{
    match file.kind {
        FileKind::Directory => parent,
        _ => file.parent,
    }
}

// The file enters its new place.
fn link_renamed<F: WritableFiles>(
    alloc: Global,
    files: &mut F,
    moment: Moment,
    target: u32,
    new_name: &[u8],
    file: &InodeAttributes,
    slot: u32,
) -> Result<(), F::Suspend>
    ensures err { IfErr result (λ suspend. F.may_suspend (F.source files.old) suspend) }
    ensures source { F.source files.new ≡ F.source files.old }
    ensures dirty_count { F.dirty_count files.new ≤ F.dirty_count files.old + 5 }
    ensures resumable { IfErr result (λ suspend. (world : F.World) (tree : Tree) (body : Body)
        → F.stands files.old world tree → IsBodyOf file.now body
        → CanLinkRenamed tree moment target new_name.now file.now.number body slot → F.is_resumable suspend) }
    ensures ok { OnOk result ((world : F.World) (tree : Tree) (body : Body)
        → F.stands files.old world tree → IsBodyOf file.now body
        → CanLinkRenamed tree moment target new_name.now file.now.number body slot
        → F.stands files.new world (placed_tree tree moment target new_name.now file.now.number body slot)) }
{
    let dirent = SlotDirent {
        number: file.number,
        slot,
    };
    enter_name(alloc, files, moment, target, new_name, dirent, file)?;
    settle(files, moment, file.number, target)
}

// What stood in the place loses its name, and the file enters there.
fn replace<F: WritableFiles>(
    alloc: Global,
    files: &mut F,
    moment: Moment,
    target: u32,
    new_name: &[u8],
    file: &InodeAttributes,
    replaced: &Option<InodeAttributes>,
    slot: u32,
) -> Result<(), F::Suspend>
    ensures err { IfErr result (λ suspend. F.may_suspend (F.source files.old) suspend) }
    ensures source { F.source files.new ≡ F.source files.old }
    ensures dirty_count { F.dirty_count files.new ≤ F.dirty_count files.old + 8 }
    ensures resumable { IfErr result (λ suspend. (world : F.World) (tree : Tree) (body : Body)
        (found : Option (ℕ × Node)) → F.stands files.old world tree → IsBodyOf file.now body
        → IsFound tree found replaced.now
        → CanReplace tree moment target new_name.now file.now.number body found slot → F.is_resumable suspend) }
    ensures ok { OnOk result ((world : F.World) (tree : Tree) (body : Body)
        (found : Option (ℕ × Node)) → F.stands files.old world tree → IsBodyOf file.now body
        → IsFound tree found replaced.now
        → CanReplace tree moment target new_name.now file.now.number body found slot
        → F.stands files.new world (placed_tree (without_name tree moment target new_name.now found) moment target
        new_name.now file.now.number body slot)) }
{
    unlink_replaced(files, moment, target, new_name, replaced)?;
    link_renamed(alloc, files, moment, target, new_name, file, slot)
}

/// The file leaves the one place, what stood in the other loses its name, and the file enters there in this slot.
pub fn move_file<F: WritableFiles>(
    alloc: Global,
    files: &mut F,
    moment: Moment,
    source: u32,
    name: &[u8],
    target: u32,
    new_name: &[u8],
    file: &InodeAttributes,
    replaced: &Option<InodeAttributes>,
    slot: u32,
) -> Result<(), F::Suspend>
    ensures err { IfErr result (λ suspend. F.may_suspend (F.source files.old) suspend) }
    ensures source { F.source files.new ≡ F.source files.old }
    ensures dirty_count { F.dirty_count files.new ≤ F.dirty_count files.old + 10 }
    ensures resumable { IfErr result (λ suspend. (world : F.World) (tree : Tree) (body : Body)
        (found : Option (ℕ × Node)) → F.stands files.old world tree → IsFileIn tree file.now body
        → IsFound tree found replaced.now
        → CanMove tree moment source name.now target new_name.now file.now.number body found slot
        → F.is_resumable suspend) }
    ensures ok { OnOk result ((world : F.World) (tree : Tree) (body : Body)
        (found : Option (ℕ × Node)) → F.stands files.old world tree → IsFileIn tree file.now body
        → IsFound tree found replaced.now
        → CanMove tree moment source name.now target new_name.now file.now.number body found slot
        → F.stands files.new world (moved_tree tree moment source name.now target new_name.now
        file.now.number body found slot)) }
{
    depart(files, moment, source, name, file)?;
    replace(alloc, files, moment, target, new_name, file, replaced, slot)
}
