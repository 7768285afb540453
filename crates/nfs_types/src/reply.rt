//! The replies of NFS version 3 (RFC 1813, section 3.3). Each has an outcome, and the parts that come with a
//! refusal too.

ghost use Rattle.std.specs.Prelude.{◌≡◌, IfOk};
ghost use Rattle.nfs_types.specs.declared.reply.Reply.TheVariants as replies;

use crate::{
    Attributes, Handle, ListedEntries, ListedEntriesPlus, Moment, Octets, Pieces, Stability,
    Status, Verifier, WeakCacheData,
};
use std::alloc::AllocError;

/// What LOOKUP found.
#[derive(Clone, Drop)]
pub struct LookupResult {
    pub object: Handle,
    pub attributes: Option<Attributes>,
}

/// What READ gives: the count of its bytes, and whether the file ends behind them.
#[derive(Clone, Drop)]
pub struct ReadBytes {
    pub count: u32,
    pub eof: bool,
    pub bytes: Pieces,
}

/// What WRITE did: how many bytes, how they are kept, and the verifier of this boot.
#[derive(Clone, Copy, Debug, PartialEq, Eq)]
pub struct Written {
    pub count: u32,
    pub committed: Stability,
    pub verifier: Verifier,
}

/// What CREATE, MKDIR, SYMLINK or MKNOD made.
#[derive(Clone, Drop)]
pub struct Created {
    pub object: Option<Handle>,
    pub attributes: Option<Attributes>,
}

/// What READDIR lists.
#[derive(Clone, Drop)]
pub struct Listed {
    pub verifier: Verifier,
    pub entries: ListedEntries,
    pub eof: bool,
}

/// What READDIRPLUS lists.
#[derive(Clone, Drop)]
pub struct ListedPlus {
    pub verifier: Verifier,
    pub entries: ListedEntriesPlus,
    pub eof: bool,
}

/// What FSSTAT tells: bytes and files in all, free, and free to the caller; for how many seconds it stays.
#[derive(Clone, Copy, Debug, PartialEq, Eq)]
pub struct FileSystemSpace {
    pub total_bytes: u64,
    pub free_bytes: u64,
    pub available_bytes: u64,
    pub total_files: u64,
    pub free_files: u64,
    pub available_files: u64,
    pub unchanged_seconds: u32,
}

/// What FSINFO tells: greatest, preferred and least sizes of transfers in bytes, the largest file, the steps
/// in which times are kept, and the properties as bits.
#[derive(Clone, Copy, Debug, PartialEq, Eq)]
pub struct FileSystemInfo {
    pub read_max: u32,
    pub read_preferred: u32,
    pub read_multiple: u32,
    pub write_max: u32,
    pub write_preferred: u32,
    pub write_multiple: u32,
    pub directory_preferred: u32,
    pub largest_file: u64,
    pub time_delta: Moment,
    pub properties: u32,
}

/// What PATHCONF tells of links and names.
#[derive(Clone, Copy, Debug, PartialEq, Eq)]
pub struct PathLimits {
    pub links: u32,
    pub name_bytes: u32,
    pub no_truncation: bool,
    pub chown_restricted: bool,
    pub case_insensitive: bool,
    pub case_preserving: bool,
}

/// A reply of program 100003, version 3.
#[derive(Drop)]
pub enum Reply {
    Null,
    GetAttr {
        outcome: Result<Attributes, Status>,
    },
    SetAttr {
        outcome: Result<(), Status>,
        object: WeakCacheData,
    },
    Lookup {
        outcome: Result<LookupResult, Status>,
        directory: Option<Attributes>,
    },
    Access {
        outcome: Result<u32, Status>,
        object: Option<Attributes>,
    },
    ReadLink {
        outcome: Result<Octets, Status>,
        link: Option<Attributes>,
    },
    Read {
        outcome: Result<ReadBytes, Status>,
        file: Option<Attributes>,
    },
    Write {
        outcome: Result<Written, Status>,
        file: WeakCacheData,
    },
    Create {
        outcome: Result<Created, Status>,
        directory: WeakCacheData,
    },
    MkDir {
        outcome: Result<Created, Status>,
        directory: WeakCacheData,
    },
    SymLink {
        outcome: Result<Created, Status>,
        directory: WeakCacheData,
    },
    MkNod {
        outcome: Result<Created, Status>,
        directory: WeakCacheData,
    },
    Remove {
        outcome: Result<(), Status>,
        directory: WeakCacheData,
    },
    RmDir {
        outcome: Result<(), Status>,
        directory: WeakCacheData,
    },
    Rename {
        outcome: Result<(), Status>,
        source: WeakCacheData,
        target: WeakCacheData,
    },
    Link {
        outcome: Result<(), Status>,
        file: Option<Attributes>,
        directory: WeakCacheData,
    },
    ReadDir {
        outcome: Result<Listed, Status>,
        directory: Option<Attributes>,
    },
    ReadDirPlus {
        outcome: Result<ListedPlus, Status>,
        directory: Option<Attributes>,
    },
    FsStat {
        outcome: Result<FileSystemSpace, Status>,
        object: Option<Attributes>,
    },
    FsInfo {
        outcome: Result<FileSystemInfo, Status>,
        object: Option<Attributes>,
    },
    PathConf {
        outcome: Result<PathLimits, Status>,
        object: Option<Attributes>,
    },
    Commit {
        outcome: Result<Verifier, Status>,
        file: WeakCacheData,
    },
}

impl Clone for Reply {
    ghost is_clone = { λ reply copy. copy ≡ reply };

    fn clone(&self) -> Result<Reply, AllocError> {
        match *self {
            Reply::Null => Ok(Reply::Null),
            Reply::GetAttr { outcome } => Ok(Reply::GetAttr { outcome }),
            Reply::SetAttr { outcome, object } => Ok(Reply::SetAttr { outcome, object }),
            Reply::Lookup {
                ref outcome,
                directory,
            } => copied_lookup(outcome, directory),
            Reply::Access { outcome, object } => Ok(Reply::Access { outcome, object }),
            Reply::ReadLink { ref outcome, link } => copied_read_link(outcome, link),
            Reply::Read { ref outcome, file } => copied_read(outcome, file),
            Reply::Write { outcome, file } => Ok(Reply::Write { outcome, file }),
            Reply::Create {
                ref outcome,
                directory,
            } => {
                let outcome = copied_creation(outcome)?;
                Ok(Reply::Create { outcome, directory })
            }
            Reply::MkDir {
                ref outcome,
                directory,
            } => {
                let outcome = copied_creation(outcome)?;
                Ok(Reply::MkDir { outcome, directory })
            }
            Reply::SymLink {
                ref outcome,
                directory,
            } => {
                let outcome = copied_creation(outcome)?;
                Ok(Reply::SymLink { outcome, directory })
            }
            Reply::MkNod {
                ref outcome,
                directory,
            } => {
                let outcome = copied_creation(outcome)?;
                Ok(Reply::MkNod { outcome, directory })
            }
            Reply::Remove { outcome, directory } => Ok(Reply::Remove { outcome, directory }),
            Reply::RmDir { outcome, directory } => Ok(Reply::RmDir { outcome, directory }),
            Reply::Rename {
                outcome,
                source,
                target,
            } => Ok(Reply::Rename {
                outcome,
                source,
                target,
            }),
            Reply::Link {
                outcome,
                file,
                directory,
            } => Ok(Reply::Link {
                outcome,
                file,
                directory,
            }),
            Reply::ReadDir {
                ref outcome,
                directory,
            } => copied_read_dir(outcome, directory),
            Reply::ReadDirPlus {
                ref outcome,
                directory,
            } => copied_read_dir_plus(outcome, directory),
            Reply::FsStat { outcome, object } => Ok(Reply::FsStat { outcome, object }),
            Reply::FsInfo { outcome, object } => Ok(Reply::FsInfo { outcome, object }),
            Reply::PathConf { outcome, object } => Ok(Reply::PathConf { outcome, object }),
            Reply::Commit { outcome, file } => Ok(Reply::Commit { outcome, file }),
        }
    }
}

// A copy of what LOOKUP found.
fn copied_lookup(
    outcome: &Result<LookupResult, Status>,
    directory: Option<Attributes>,
) -> Result<Reply, AllocError>
    ensures { IfOk result (λ copy. copy ≡ replies.Lookup outcome.now directory) }
{
    let outcome = outcome.clone()?;
    Ok(Reply::Lookup { outcome, directory })
}

// A copy of what READLINK gives.
fn copied_read_link(
    outcome: &Result<Octets, Status>,
    link: Option<Attributes>,
) -> Result<Reply, AllocError>
    ensures { IfOk result (λ copy. copy ≡ replies.ReadLink outcome.now link) }
{
    let outcome = outcome.clone()?;
    Ok(Reply::ReadLink { outcome, link })
}

// A copy of what READ gives.
fn copied_read(
    outcome: &Result<ReadBytes, Status>,
    file: Option<Attributes>,
) -> Result<Reply, AllocError>
    ensures { IfOk result (λ copy. copy ≡ replies.Read outcome.now file) }
{
    let outcome = outcome.clone()?;
    Ok(Reply::Read { outcome, file })
}

// A copy of what CREATE, MKDIR, SYMLINK or MKNOD made.
fn copied_creation(outcome: &Result<Created, Status>) -> Result<Result<Created, Status>, AllocError>
    ensures { IfOk result (λ copy. copy ≡ outcome.now) }
{
    outcome.clone()
}

// A copy of what READDIR lists.
fn copied_read_dir(
    outcome: &Result<Listed, Status>,
    directory: Option<Attributes>,
) -> Result<Reply, AllocError>
    ensures { IfOk result (λ copy. copy ≡ replies.ReadDir outcome.now directory) }
{
    let outcome = outcome.clone()?;
    Ok(Reply::ReadDir { outcome, directory })
}

// A copy of what READDIRPLUS lists.
fn copied_read_dir_plus(
    outcome: &Result<ListedPlus, Status>,
    directory: Option<Attributes>,
) -> Result<Reply, AllocError>
    ensures { IfOk result (λ copy. copy ≡ replies.ReadDirPlus outcome.now directory) }
{
    let outcome = outcome.clone()?;
    Ok(Reply::ReadDirPlus { outcome, directory })
}
