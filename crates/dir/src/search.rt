//! The names of a call, looked for in their directories as far as blocks of these were read.

mod begun;
mod call_names;
mod name_search;
mod places;

pub use call_names::Names;
pub use places::{first_dentry, second_dentry};
