//! One block that a commit changed.

use disk::{BlockNo, SharedBlock};

/// A block's new content, by the commit of a place. Place 0: an opening found it in the log.
#[derive(Drop)]
pub struct LogChange {
    pub place: u64,
    pub block: BlockNo,
    pub content: SharedBlock,
}
