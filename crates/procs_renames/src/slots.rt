//! The slot of a file's new name.
ghost use Rattle.std.specs.Prelude.{◌≡◌, IfErr, IfOk, None, true};
ghost use Rattle.nfs_spec.specs.Model.Node.{Body};
ghost use Rattle.nfs_spec.specs.Model.Tree.{Tree};
ghost use Rattle.nfs_spec.specs.Procedures.Places.{dirent_at};
ghost use Rattle.nfs_spec.specs.Procedures.Rename.{new_slot, slot_for};
ghost use Rattle.procs_files.specs.Heads.{IsFileIn};
ghost use Rattle.procs_renames.specs.Moves.{dentry_of};
ghost use Rattle.procs_renames.specs.Slots.{IsRoomyAt};

use procs_files::{Files, InodeAttributes, WritableFiles};
use procs_names::dirent_adds;

// The slot in which a name lies, if it is there.
fn slot_of<F: Files>(
    files: &F,
    directory: &InodeAttributes,
    name: &[u8],
) -> Result<Option<u32>, F::Suspend>
    ensures err { IfErr result (λ suspend. F.may_suspend (F.source files.now) suspend) }
    ensures resumable { IfErr result (λ suspend. (world : F.World) (tree : Tree) → F.stands files.now world tree
        → F.is_resumable suspend) }
    ensures ok { IfOk result (λ slot. (world : F.World) (tree : Tree) (body : Body)
        → F.stands files.now world tree → IsFileIn tree directory.now body
        → slot ≡ slot_for true (dirent_at body name.now) None body) }
{
    match files.dirent(directory, name)? {
        Some(dirent) => Ok(Some(dirent.slot)),
        None => Ok(None),
    }
}

// The slot of a new name: that of the name that it replaces, that of the old name within its directory, or
// else the least that is free.
fn new_slot<F: WritableFiles>(
    files: &F,
    source: &InodeAttributes,
    name: &[u8],
    target: &InodeAttributes,
    new_name: &[u8],
) -> Result<Option<u32>, F::Suspend>
    ensures err { IfErr result (λ suspend. F.may_suspend (F.source files.now) suspend) }
    ensures resumable { IfErr result (λ suspend. (world : F.World) (tree : Tree) → F.stands files.now world tree
        → F.is_resumable suspend) }
    ensures ok { IfOk result (λ slot. (world : F.World) (tree : Tree) (body goal : Body)
        → F.stands files.now world tree → IsFileIn tree source.now body → IsFileIn tree target.now goal
        → slot ≡ new_slot (dentry_of source.now body name.now) (dentry_of target.now goal new_name.now)) }
{
    match files.dirent(target, new_name)? {
        Some(dirent) => Ok(Some(dirent.slot)),
        None => {
            if source.number == target.number {
                slot_of(files, source, name)
            } else {
                files.free_slot(target)
            }
        }
    }
}

/// The slot of a new name, where the blocks for the name are free before the change.
pub fn roomy_slot<F: WritableFiles>(
    files: &F,
    source: &InodeAttributes,
    name: &[u8],
    target: &InodeAttributes,
    new_name: &[u8],
) -> Result<Option<u32>, F::Suspend>
    ensures err { IfErr result (λ suspend. F.may_suspend (F.source files.now) suspend) }
    ensures resumable { IfErr result (λ suspend. (world : F.World) (tree : Tree) → F.stands files.now world tree
        → F.is_resumable suspend) }
    ensures ok { IfOk result (λ slot. (world : F.World) (tree : Tree) (body goal : Body)
        → F.stands files.now world tree → IsFileIn tree source.now body → IsFileIn tree target.now goal
        → IsRoomyAt tree target.now.size
        (new_slot (dentry_of source.now body name.now) (dentry_of target.now goal new_name.now)) slot) }
{
    let Some(slot) = new_slot(files, source, name, target, new_name)? else {
        return Ok(None);
    };
    let blocks = dirent_adds(target, slot);
    if files.has_free_blocks(blocks)? {
        Ok(Some(slot))
    } else {
        Ok(None)
    }
}
