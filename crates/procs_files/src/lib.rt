//! The files of a server as the procedures see them: what is asked of them and what is done to them, whatever
//! they lie in.
#![tactic(auto)]

mod call_replies;
mod dirent;
mod files;
mod found;
mod inode_attributes;
mod name_resolution;
mod rights;
mod tests;
mod writable_files;

pub use call_replies::{Changed, QueryReply, untold};
pub use dirent::{SlotDirent, SlotName};
pub use files::Files;
pub use found::find;
pub use inode_attributes::InodeAttributes;
pub use name_resolution::{is_dots, is_no_name, is_own_name, named_file};
pub use rights::{
    acts_as_owner, class_of, has_right, is_own_group, is_superuser, may_change, may_list,
    may_search, may_write_file,
};
pub use tests::{dentry_refusal, first_of};
pub use writable_files::WritableFiles;
