//! Files that are made and taken away.

mod block_release;
mod new_inode;
mod numbers;
mod removal;
mod symbolic_link;

pub use block_release::free_all;
pub use new_inode::{emptied, make_empty};
pub use removal::remove;
pub use symbolic_link::make_link;
