//! Names that go, and files that lose them.
ghost use Rattle.std.specs.Prelude.{◌≡◌, ◌+◌, ◌≤◌, IfErr, OnOk, Some};
ghost use Rattle.nfs_spec.specs.Model.Node.{Body};
ghost use Rattle.nfs_spec.specs.Model.Tree.{Tree, with_node};
ghost use Rattle.nfs_spec.specs.Procedures.Changes.{changed_at, departed, unnamed, without_name};
ghost use Rattle.procs_files.specs.Heads.{IsBodyOf, IsFileIn, node_of};
ghost use Rattle.procs_names.specs.Links.Shapes.{CanChange, CanLose, CanTake, IsShaped, less_linked};

use crate::links::links::{is_directory, parent_links};
use nfs_types::Moment;
use procs_files::{InodeAttributes, WritableFiles};

/// The directory of a number, if there is one, loses the name of a file.
pub fn depart<F: WritableFiles>(
    files: &mut F,
    moment: Moment,
    number: u32,
    name: &[u8],
    file: &InodeAttributes,
) -> Result<(), F::Suspend>
    ensures err { IfErr result (λ suspend. F.may_suspend (F.source files.old) suspend) }
    ensures source { F.source files.new ≡ F.source files.old }
    ensures dirty_count { F.dirty_count files.new ≤ F.dirty_count files.old + 2 }
    ensures resumable { IfErr result (λ suspend. (world : F.World) (tree : Tree) → F.stands files.old world tree
        → F.is_resumable suspend) }
    ensures ok { OnOk result ((world : F.World) (tree : Tree) (body : Body) → F.stands files.old world tree
        → IsBodyOf file.now body → CanChange tree number (departed moment name.now body)
        → F.stands files.new world (changed_at tree number (departed moment name.now body))) }
{
    let Some(directory) = files.file(number)? else {
        return Ok(());
    };
    let inode_attributes = InodeAttributes {
        nlink: directory.nlink.saturating_sub(parent_links(file)),
        mtime: moment,
        ctime: moment,
        ..directory
    };
    files.depart(&inode_attributes, name)
}

// A file has one link less.
fn lose_link<F: WritableFiles>(
    files: &mut F,
    moment: Moment,
    file: &InodeAttributes,
) -> Result<(), F::Suspend>
    ensures err { IfErr result (λ suspend. F.may_suspend (F.source files.old) suspend) }
    ensures source { F.source files.new ≡ F.source files.old }
    ensures dirty_count { F.dirty_count files.new ≤ F.dirty_count files.old + 1 }
    ensures resumable { IfErr result (λ suspend. (world : F.World) (tree : Tree) → F.stands files.old world tree
        → F.is_resumable suspend) }
    ensures ok { OnOk result ((world : F.World) (tree : Tree) (body : Body) → F.stands files.old world tree
        → IsFileIn tree file.now body
        → IsShaped tree.geometry.inodes (less_linked moment (node_of file.now body))
        → F.stands files.new world
        (with_node tree file.now.number (less_linked moment (node_of file.now body)))) }
{
    let inode_attributes = InodeAttributes {
        nlink: file.nlink.saturating_sub(1),
        ctime: moment,
        ..*file
    };
    files.set(&inode_attributes)
}

/// A file loses a name: it is gone, or has one link less.
pub fn lose_name<F: WritableFiles>(
    files: &mut F,
    moment: Moment,
    file: &InodeAttributes,
) -> Result<(), F::Suspend>
    ensures err { IfErr result (λ suspend. F.may_suspend (F.source files.old) suspend) }
    ensures source { F.source files.new ≡ F.source files.old }
    ensures dirty_count { F.dirty_count files.new ≤ F.dirty_count files.old + 1 }
    ensures resumable { IfErr result (λ suspend. (world : F.World) (tree : Tree) → F.stands files.old world tree
        → F.is_resumable suspend) }
    ensures ok { OnOk result ((world : F.World) (tree : Tree) (body : Body) → F.stands files.old world tree
        → IsFileIn tree file.now body → CanLose tree moment (node_of file.now body)
        → F.stands files.new world (unnamed tree moment file.now.number (node_of file.now body))) }
{
    if is_directory(file) || file.nlink <= 1 {
        files.remove(file.number)
    } else {
        lose_link(files, moment, file)
    }
}

/// The file that a name in a directory leads to loses that name.
pub fn take_name<F: WritableFiles>(
    files: &mut F,
    moment: Moment,
    directory: u32,
    name: &[u8],
    file: &InodeAttributes,
) -> Result<(), F::Suspend>
    ensures err { IfErr result (λ suspend. F.may_suspend (F.source files.old) suspend) }
    ensures source { F.source files.new ≡ F.source files.old }
    ensures dirty_count { F.dirty_count files.new ≤ F.dirty_count files.old + 3 }
    ensures resumable { IfErr result (λ suspend. (world : F.World) (tree : Tree) (body : Body)
        → F.stands files.old world tree → IsFileIn tree file.now body
        → CanTake tree moment directory name.now file.now.number (node_of file.now body) → F.is_resumable suspend) }
    ensures ok { OnOk result ((world : F.World) (tree : Tree) (body : Body) → F.stands files.old world tree
        → IsFileIn tree file.now body
        → CanTake tree moment directory name.now file.now.number (node_of file.now body)
        → F.stands files.new world (without_name tree moment directory name.now
        (Some (file.now.number, node_of file.now body)))) }
{
    depart(files, moment, directory, name, file)?;
    lose_name(files, moment, file)
}
