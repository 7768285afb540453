//! What the procedures that change names share: names that come and go, links, room, and what is told.

mod change_replies;
mod insertion;
mod links;
mod lookup;
mod removal;

pub use change_replies::{change_since, changed_to, refused};
pub use insertion::{dirent_adds, enter_name, gain_link, has_dirent_blocks, slot_with_blocks};
pub use links::{is_directory, more_links, parent_links};
pub use lookup::lookup_for_change;
pub use removal::{depart, lose_name, take_name};
