//! The procedures that make files, over any files.

mod blank_files;
mod creation;
mod directories;
mod existing_file;
mod new_file;
mod new_names;
mod symbolic;

pub use creation::create;
pub use directories::make_directory;
pub use symbolic::make_link;
