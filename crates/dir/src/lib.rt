//! The names in a directory, and the search for one of them.
#![tactic(auto)]

mod block;
mod cursor;
mod empty;
mod lookup;
mod next;
mod search;
mod span;
mod vacant;

pub use block::compare;
pub use cursor::{SearchCursor, find_known, go_on};
pub use empty::is_empty;
pub use lookup::find;
pub use next::next_name;
pub use search::{Names, first_dentry, second_dentry};
pub use span::used_of_directory;
pub use vacant::free_slot;
