//! What is told of a directory that a call may have changed.
ghost use Rattle.std.specs.Prelude.{◌≡◌, IfErr, IfOk, Err, Some};
ghost use Rattle.nfs_spec.specs.Model.Attributes.{before_change, untold};
ghost use Rattle.nfs_spec.specs.Model.Node.{Body};
ghost use Rattle.nfs_spec.specs.Model.Tree.{Tree};
ghost use Rattle.nfs_spec.specs.Procedures.StepForms.{attributes_at};
ghost use Rattle.procs_files.specs.Heads.{IsBodyOf, node_of};

use nfs_types::{Attributes, Status, WeakCacheAttributes, WeakCacheData};
use procs_files::{Changed, Files, InodeAttributes, untold};

/// What is told of the file of a number that was so before the call.
pub fn change_since<F: Files>(
    files: &F,
    number: u32,
    before: WeakCacheAttributes,
) -> Result<WeakCacheData, F::Suspend>
    ensures err { IfErr result (λ suspend. F.may_suspend (F.source files.now) suspend) }
    ensures resumable { IfErr result (λ suspend. (world : F.World) (tree : Tree) → F.stands files.now world tree
        → F.is_resumable suspend) }
    ensures ok { IfOk result (λ file_attributes. (world : F.World) (tree : Tree) → F.stands files.now world tree
        → file_attributes ≡ record { before = Some before; after = attributes_at tree number }) }
{
    let after = match files.file(number)? {
        Some(inode_attributes) => Some(inode_attributes.attributes()),
        None => None,
    };
    Ok(WeakCacheData {
        before: Some(before),
        after,
    })
}

/// What a call answers that did this with the file of this head.
pub fn changed_to<F: Files, A: Drop>(
    files: &F,
    inode_attributes: &InodeAttributes,
    outcome: Result<A, Status>,
) -> Result<Changed<A>, F::Suspend>
    ensures err { IfErr result (λ suspend. F.may_suspend (F.source files.now) suspend) }
    ensures resumable { IfErr result (λ suspend. (world : F.World) (tree : Tree) → F.stands files.now world tree
        → F.is_resumable suspend) }
    ensures answer { IfOk result (λ changed. changed.outcome ≡ outcome) }
    ensures file_attributes { IfOk result (λ changed. (world : F.World) (tree : Tree) (body : Body)
        → F.stands files.now world tree → IsBodyOf inode_attributes.now body
        → changed.file ≡ record {
          before = Some (before_change (node_of inode_attributes.now body));
          after = attributes_at tree inode_attributes.now.number;
        }) }
{
    let file = change_since(
        files,
        inode_attributes.number,
        inode_attributes.before_change(),
    )?;
    Ok(Changed { outcome, file })
}

/// What a call answers whose handle names no file.
pub fn refused<A: Drop>(status: Status) -> Changed<A>
    ensures outcome { result.outcome ≡ Err status }
    ensures file_attributes { result.file ≡ untold }
{
    Changed {
        outcome: Err(status),
        file: untold(),
    }
}
