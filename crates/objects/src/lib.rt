//! Parts of blocks, which a transaction reads, writes and holds, and the blocks in memory that they lie in.
#![tactic(auto)]

mod addr;
mod blocks;
mod clean;
mod counted;
mod mode;
mod object;
mod parts;
mod pins;
mod present;
mod present_block;
mod recent;
mod residency;
mod shared;

pub use addr::Addr;
pub use counted::Counted;
pub use mode::Mode;
pub use object::Object;
pub use parts::{extract, splice};
pub use present::Present;
pub use present_block::PresentBlock;
pub use residency::Residency;
pub use shared::SharedBytes;
