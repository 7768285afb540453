//! The procedures that only tell something, over files wherever they lie. Each is proved to be the step that
//! `nfs_spec` defines, whatever tree the files are.

mod access_rights;
mod commits;
mod file_system;
mod get_attr;
mod name_lookup;
mod reads;
mod space;
mod special;
mod targets;

pub use access_rights::access;
pub use commits::commit;
pub use file_system::{file_system_info, path_limits};
pub use get_attr::get_attributes;
pub use name_lookup::lookup_name;
pub use reads::read;
pub use space::file_system_space;
pub use special::make_special;
pub use targets::read_link;
