//! A worked call and a worked reply of each procedure of NFS version 3 and of MOUNT version 3, spelled by hand from
//! RFC 1813 (sections 2.5, 2.6, 3.3 and 5.2), and as values. A spelling is parts in their order, each in words of four
//! bytes.

mod asked;
mod calls;
mod parts;
mod replies;
mod results;
mod values;

pub use asked::{Asked, File, ONES, ROOT, ZEROS, call};
pub use calls::{CALLS, MOUNT_CALLS, mount_call};
pub use replies::{mount_reply, reply};
pub use results::{MOUNT_RESULTS, RESULTS};
pub use values::UNSET;
