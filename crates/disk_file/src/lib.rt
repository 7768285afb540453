//! A device over a file of the system, for one thread or cut into what several use; and a file that tells at once of
//! the first write or sync of it that fails.
#![tactic(auto)]

mod alarm;
mod file;
mod file_disk;
mod file_laws;
mod threaded_disk;
mod watched;

pub use alarm::{Alarm, Asked};
pub use file::ports::{FilePort, FileSource};
pub use file::{BlockFile, FileCall, FirstContents, open_locked};
pub use file_disk::FileDisk;
pub use file_laws::{
    a_file_honest_to_each_side_keeps_the_model, a_file_may_begin_with_each_image,
    calls_of_a_file_are_the_devices, honest_file_keeps_model,
};
pub use threaded_disk::ThreadedDisk;
pub use watched::WatchedFile;
