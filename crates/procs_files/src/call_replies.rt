//! What a call is answered (RFC 1813, section 2.6).
ghost use Rattle.std.specs.Prelude.{◌≡◌};
ghost use Rattle.nfs_spec.specs.Model.Attributes.{untold};

use nfs_types::{Attributes, Status, WeakCacheData};

/// What a call that only tells something answers.
#[derive(Drop)]
pub struct QueryReply<A> {
    pub outcome: Result<A, Status>,
    pub object: Option<Attributes>,
}

/// What a call answers that may change a file.
#[derive(Drop)]
pub struct Changed<A> {
    pub outcome: Result<A, Status>,
    pub file: WeakCacheData,
}

/// What is told of a file where a handle names none.
pub fn untold() -> WeakCacheData
    ensures { result ≡ untold }
{
    WeakCacheData {
        before: None,
        after: None,
    }
}
