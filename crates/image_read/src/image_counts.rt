//! What is counted of an image as a whole while its files are gone through: who owns its blocks, how often its
//! numbers are named, and where the parents of its directories lead.

mod iterated;
mod named;
mod owners;

pub use iterated::furthest_of;
pub use named::Named;
pub use owners::Owners;
