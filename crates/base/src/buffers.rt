//! Memory that carries bytes: a block of one owner, a block that several hold, bytes that nobody changes any more, and
//! bytes in pieces.

mod block;
mod cow_block;
mod pieces;
mod shared_block;
mod shared_octets;

pub use block::Block;
pub use cow_block::CowBlock;
pub use pieces::Pieces;
pub use shared_block::SharedBlock;
pub use shared_octets::SharedOctets;
