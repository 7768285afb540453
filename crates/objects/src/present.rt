//! The blocks in memory besides the log's.

use crate::PresentBlock;
use disk::BlockNo;

/// A block in memory with its current content, or with none while its fetch is pending.
#[derive(Drop)]
pub struct Present {
    pub block: BlockNo,
    pub content: Option<PresentBlock>,
}
