//! FSINFO and PATHCONF (RFC 1813, sections 3.3.19 and 3.3.20).
ghost use Rattle.std.specs.Prelude.{◌≡◌, IfErr, IfOk};
ghost use Rattle.nfs_spec.specs.Model.Tree.{Tree};
ghost use Rattle.nfs_spec.specs.Procedures.FsInfo.{FsInfoStep, file_system_info};
ghost use Rattle.nfs_spec.specs.Procedures.PathConf.{PathConfStep, path_limits};

use base::{
    CLOCK_STEP, LARGEST_FILE, LISTING_PREFERRED, MOST_LINKS, NAME_BYTES, TRANSFER_BYTES,
    TRANSFER_MULTIPLE,
};
use nfs_spec::{HAS_LINKS, HAS_SYMBOLIC_LINKS, IS_HOMOGENEOUS, SETS_TIMES};
use nfs_types::{FileSystemInfo, Handle, Moment, PathLimits};
use procs_files::{Files, QueryReply, find};

fn info() -> FileSystemInfo
    ensures { result ≡ file_system_info }
{
    FileSystemInfo {
        read_max: TRANSFER_BYTES,
        read_preferred: TRANSFER_BYTES,
        read_multiple: TRANSFER_MULTIPLE,
        write_max: TRANSFER_BYTES,
        write_preferred: TRANSFER_BYTES,
        write_multiple: TRANSFER_MULTIPLE,
        directory_preferred: LISTING_PREFERRED,
        largest_file: LARGEST_FILE,
        time_delta: Moment {
            seconds: 0,
            nanoseconds: CLOCK_STEP,
        },
        properties: HAS_LINKS + HAS_SYMBOLIC_LINKS + IS_HOMOGENEOUS + SETS_TIMES,
    }
}

fn limits_of_names() -> PathLimits
    ensures { result ≡ path_limits }
{
    PathLimits {
        links: MOST_LINKS,
        name_bytes: NAME_BYTES as u32,
        no_truncation: true,
        chown_restricted: false,
        case_insensitive: false,
        case_preserving: true,
    }
}

/// What the server tells of the whole file system.
pub fn file_system_info<F: Files>(
    files: &F,
    object: &Handle,
) -> Result<QueryReply<FileSystemInfo>, F::Suspend>
    ensures err { IfErr result (λ suspend. F.may_suspend (F.source files.now) suspend) }
    ensures resumable { IfErr result (λ suspend. (world : F.World) (tree : Tree) → F.stands files.now world tree
        → F.is_resumable suspend) }
    ensures ok { IfOk result (λ query_reply. (world : F.World) (tree : Tree) → F.stands files.now world tree → FsInfoStep
        tree object.now.bytes query_reply.outcome query_reply.object tree) }
{
    match find(files, object)? {
        Err(status) => Ok(QueryReply {
            outcome: Err(status),
            object: None,
        }),
        Ok(inode_attributes) => Ok(QueryReply {
            outcome: Ok(info()),
            object: Some(inode_attributes.attributes()),
        }),
    }
}

/// What the server tells of names and links.
pub fn path_limits<F: Files>(
    files: &F,
    object: &Handle,
) -> Result<QueryReply<PathLimits>, F::Suspend>
    ensures err { IfErr result (λ suspend. F.may_suspend (F.source files.now) suspend) }
    ensures resumable { IfErr result (λ suspend. (world : F.World) (tree : Tree) → F.stands files.now world tree
        → F.is_resumable suspend) }
    ensures ok { IfOk result (λ query_reply. (world : F.World) (tree : Tree) → F.stands files.now world tree
        → PathConfStep tree object.now.bytes query_reply.outcome query_reply.object tree) }
{
    match find(files, object)? {
        Err(status) => Ok(QueryReply {
            outcome: Err(status),
            object: None,
        }),
        Ok(inode_attributes) => Ok(QueryReply {
            outcome: Ok(limits_of_names()),
            object: Some(inode_attributes.attributes()),
        }),
    }
}
