//! The procedures that make and remove names, over any files, and what all that change names share: names that come
//! and go, links, room, and what is told.
#![tactic(auto)]

mod links;
mod name_procedures;

pub use links::{
    change_since, changed_to, depart, dirent_adds, enter_name, gain_link, has_dirent_blocks,
    is_directory, lookup_for_change, lose_name, more_links, parent_links, refused,
    slot_with_blocks, take_name,
};
pub use name_procedures::{LinkReplyParts, link, remove, remove_directory};
