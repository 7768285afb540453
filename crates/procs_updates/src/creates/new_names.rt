//! New files and their names.
ghost use Rattle.std.specs.Prelude.{◌≡◌, ◌+◌, ◌≤◌, nat_lt, false, IfErr, IfOk};
ghost use Rattle.base.specs.declared.TheConstants.{LARGEST_FILE};
ghost use Rattle.nfs_spec.specs.Model.Node.{Body};
ghost use Rattle.nfs_spec.specs.Model.SetAttr.{given, with_length};
ghost use Rattle.nfs_spec.specs.Model.Tree.{Tree, with_node};
ghost use Rattle.nfs_spec.specs.Procedures.Changes.{changed_at, entered};
ghost use Rattle.nfs_spec.specs.Procedures.Fresh.{created};
ghost use Rattle.procs_files.specs.Writable.{SoundInodeAttributes, first_body, headed};
ghost use Rattle.procs_files.specs.Heads.{IsBodyOf, IsFileIn, node_of};
ghost use Rattle.procs_names.specs.Links.Shapes.{CanEnterAt};
ghost use Rattle.procs_updates.specs.Creates.Making.{CanMakeIn};

use nfs_types::{Created, Handle, Moment};
use procs_files::{InodeAttributes, SlotDirent, WritableFiles};
use procs_names::enter_name;
use std::alloc::{AllocError, Global};

// The file gets the size that is given.
fn set_size<F: WritableFiles>(
    files: &mut F,
    inode_attributes: &InodeAttributes,
    size: Option<u64>,
) -> Result<InodeAttributes, F::Suspend>
    requires { given size (λ size. nat_lt LARGEST_FILE size) ≡ false }
    ensures err { IfErr result (λ suspend. F.may_suspend (F.source files.old) suspend) }
    ensures source { F.source files.new ≡ F.source files.old }
    ensures dirty_count { F.dirty_count files.new ≤ F.dirty_count files.old + 5 }
    ensures resumable { IfErr result (λ suspend. (world : F.World) (tree : Tree) → F.stands files.old world tree
        → F.is_resumable suspend) }
    ensures ok { IfOk result (λ last. (world : F.World) (tree : Tree) (body : Body)
        → F.stands files.old world tree → IsFileIn tree inode_attributes.now body
        → SoundInodeAttributes tree.geometry.inodes inode_attributes.now
        → (last ≡ headed inode_attributes.now (with_length size body))
        × F.stands files.new world
        (with_node tree inode_attributes.now.number (node_of inode_attributes.now (with_length size body)))) }
{
    match size {
        Some(size) => files.resize(inode_attributes, size),
        None => Ok(*inode_attributes),
    }
}

/// A name in the directory of a number, and under the number to which it leads the new file of this head,
/// with the size that is given: its head then.
pub fn add<F: WritableFiles>(
    alloc: Global,
    files: &mut F,
    moment: Moment,
    directory: u32,
    name: &[u8],
    slot: u32,
    inode_attributes: &InodeAttributes,
    target: &[u8],
    size: Option<u64>,
) -> Result<InodeAttributes, F::Suspend>
    requires { given size (λ size. nat_lt LARGEST_FILE size) ≡ false }
    ensures err { IfErr result (λ suspend. F.may_suspend (F.source files.old) suspend) }
    ensures source { F.source files.new ≡ F.source files.old }
    ensures dirty_count { F.dirty_count files.new ≤ F.dirty_count files.old + 11 }
    ensures resumable { IfErr result (λ suspend. (world : F.World) (tree : Tree) (body : Body)
        → F.stands files.old world tree → IsBodyOf inode_attributes.now body → first_body inode_attributes.now target.now ≡ body
        → CanEnterAt tree moment directory name.now (record { number = inode_attributes.now.number; slot = slot }) body
        → CanMakeIn (changed_at tree directory
        (entered moment name.now (record { number = inode_attributes.now.number; slot = slot }) body)) inode_attributes.now body
        → F.is_resumable suspend) }
    ensures ok { IfOk result (λ last. (world : F.World) (tree : Tree) (body : Body)
        → F.stands files.old world tree → IsBodyOf inode_attributes.now body → first_body inode_attributes.now target.now ≡ body
        → CanEnterAt tree moment directory name.now (record { number = inode_attributes.now.number; slot = slot }) body
        → CanMakeIn (changed_at tree directory
        (entered moment name.now (record { number = inode_attributes.now.number; slot = slot }) body)) inode_attributes.now body
        → (last ≡ headed inode_attributes.now (with_length size body))
        × F.stands files.new world (with_node (changed_at tree directory
        (entered moment name.now (record { number = inode_attributes.now.number; slot = slot }) body)) inode_attributes.now.number
        (node_of inode_attributes.now (with_length size body)))) }
{
    let dirent = SlotDirent {
        number: inode_attributes.number,
        slot,
    };
    enter_name(
        alloc,
        files,
        moment,
        directory,
        name,
        dirent,
        inode_attributes,
    )?;
    files.make(alloc, inode_attributes, target)?;
    set_size(files, inode_attributes, size)
}

/// What is told of a file that was made or found.
pub fn created(alloc: Global, inode_attributes: &InodeAttributes) -> Result<Created, AllocError>
    ensures { IfOk result (λ r. (body : Body) → IsBodyOf inode_attributes.now body
        → r ≡ created inode_attributes.now.number (node_of inode_attributes.now body)) }
{
    Ok(Created {
        object: Some(Handle::of(alloc, inode_attributes.number, inode_attributes.stamp)?),
        attributes: Some(inode_attributes.attributes()),
    })
}
