//! What bytes that are written add to a file.
ghost use Rattle.std.specs.Prelude.{ℕ, ◌≡◌, ◌+◌, ◌-◌, ◌<◌, ◌≤◌, List, length, IfErr, IfOk};
ghost use Rattle.base.specs.declared.TheConstants.{LARGEST_FILE};
ghost use Rattle.disk.specs.Crash.{Image};
ghost use Rattle.nfs_spec.specs.Model.Cost.{cost};
ghost use Rattle.nfs_spec.specs.Model.Node.{Body};
ghost use Rattle.nfs_spec.specs.Model.Tree.{Tree};
ghost use Rattle.nfs_spec.specs.Procedures.Write.{with_text};
ghost use Rattle.procs_files.specs.Heads.{IsFileIn};
ghost use Rattle.inode.specs.Over.{IsResumable, MaySuspend};
ghost use Rattle.inode.specs.WriteSets.WriteSetContents.{IsWriteSet};

use inode::{Suspend, WriteSet, held};
use procs_files::InodeAttributes;

/// What so many bytes that are written to a file add to the blocks that it uses.
pub fn unmapped(
    write_set: &WriteSet,
    inode_attributes: &InodeAttributes,
    offset: u64,
    count: usize,
) -> Result<u32, Suspend>
    requires some { 0 < count }
    requires small { offset + count ≤ LARGEST_FILE }
    ensures ok { IfOk result (λ added. (blocks : Image) (tree : Tree) (body : Body) (text : List ℕ)
        → IsWriteSet write_set.now blocks tree → IsFileIn tree inode_attributes.now body → length text ≡ count
        → added ≡ cost (with_text offset text body) - cost body) }
    ensures err { IfErr result (λ suspend. MaySuspend write_set.now.seen suspend) }
    ensures resumable { IfErr result (λ suspend. (blocks : Image) (tree : Tree) → IsWriteSet write_set.now blocks tree
        → IsResumable suspend) }
{
    let there = write_set.there();
    match held(there, inode_attributes.number) {
        Ok(Some(inode)) => inode_data::unmapped(there, &inode, offset, count),
        Ok(None) => Ok(0),
        Err(suspend) => Err(suspend),
    }
}
