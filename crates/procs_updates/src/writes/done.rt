//! What comes of a call for the file that its handle names.
ghost use Rattle.std.specs.Prelude.{◌≡◌, Some, Err};
ghost use Rattle.nfs_spec.specs.Model.Attributes.{attributes_of, before_change, untold};
ghost use Rattle.nfs_spec.specs.Model.Node.{Body};
ghost use Rattle.procs_files.specs.Heads.{IsBodyOf, node_of};

use nfs_types::{Status, WeakCacheData};
use procs_files::{Changed, InodeAttributes, untold};

/// What a call answers, and the head of its file behind it.
#[derive(Drop)]
pub struct Done<A> {
    pub outcome: Result<A, Status>,
    pub inode_attributes: InodeAttributes,
}

/// A call is refused, and leaves its file.
pub fn refused<A>(status: Status, inode_attributes: &InodeAttributes) -> Done<A>
    ensures outcome { result.outcome ≡ Err status }
    ensures inode_attributes { result.inode_attributes ≡ inode_attributes.now }
{
    Done {
        outcome: Err(status),
        inode_attributes: *inode_attributes,
    }
}

/// What is answered of a file that was so before the call.
pub fn changed<A>(before: &InodeAttributes, done: Done<A>) -> Changed<A>
    ensures outcome { result.outcome ≡ done.outcome }
    ensures file { (body next : Body) → IsBodyOf before.now body → IsBodyOf done.inode_attributes next
        → result.file ≡ record {
          before = Some (before_change (node_of before.now body));
          after = Some (attributes_of done.inode_attributes.number (node_of done.inode_attributes next));
        } }
{
    Changed {
        outcome: done.outcome,
        file: WeakCacheData {
            before: Some(before.before_change()),
            after: Some(done.inode_attributes.attributes()),
        },
    }
}

/// What is answered where the handle names no file.
pub fn unfound<A>(status: Status) -> Changed<A>
    ensures outcome { result.outcome ≡ Err status }
    ensures file { result.file ≡ untold }
{
    Changed {
        outcome: Err(status),
        file: untold(),
    }
}
