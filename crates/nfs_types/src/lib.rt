//! The plain data of the calls and replies of NFS version 3 and of MOUNT: RFC 1813, sections 2.3 to 2.6,
//! 3.3 and 5. Nothing here reads bytes, keeps a file or knows of a disk.
#![tactic(auto)]

mod attributes;
mod call;
mod call_facts;
mod ctx;
mod entries;
mod handle;
mod mount;
mod octets;
mod program;
mod reply;
mod status;
mod verifier;

pub use attributes::{
    Attributes, DeviceNumber, FileKind, NewAttributes, SetTime, WeakCacheAttributes, WeakCacheData,
};
pub use base::{Pieces, SharedOctets};
pub use call::{Call, CreateHow, DirectoryName, SpecialFile, Stability};
pub use call_facts::CallFacts;
pub use ctx::{Credential, Ctx, Moment};
pub use entries::{ListedEntries, ListedEntriesPlus, ListedItem, ListedItemPlus};
pub use handle::{Handle, Stamp};
pub use mount::{MountCall, MountReply, Mounted, PATH_BYTES};
pub use octets::{NumberList, Octets};
pub use program::{
    MountProcedure, Procedure, Program, ProgramCall, ProgramProcedure, ProgramReply,
};
pub use reply::{
    Created, FileSystemInfo, FileSystemSpace, Listed, ListedPlus, LookupResult, PathLimits,
    ReadBytes, Reply, Written,
};
pub use status::Status;
pub use verifier::{VERIFIER_BYTES, Verifier};
