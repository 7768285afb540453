//! READDIR and READDIRPLUS over files wherever they lie. Each is proved to be the step that `nfs_spec`
//! defines, whatever tree the files are. A listing reads the directory up to the first entry that has no room.

mod gathered;
mod listed_names;
mod plus;
mod read_dir;
mod refusals;

pub use plus::read_directory_plus;
pub use read_dir::read_directory;
