//! The procedures that only tell something, READDIR and READDIRPLUS among them, over files wherever they lie. Each is
//! proved to be the step that `nfs_spec` defines, whatever tree the files are.
#![tactic(auto)]

mod listings;
mod queries;

pub use listings::{read_directory, read_directory_plus};
pub use queries::{
    access, commit, file_system_info, file_system_space, get_attributes, lookup_name, make_special,
    path_limits, read, read_link,
};
