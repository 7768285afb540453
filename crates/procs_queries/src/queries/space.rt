//! FSSTAT (RFC 1813, section 3.3.18).
ghost use Rattle.std.specs.Prelude.{◌≡◌, IfErr, IfOk};
ghost use Rattle.nfs_spec.specs.Model.Tree.{Tree};
ghost use Rattle.nfs_spec.specs.Procedures.FsStat.{FsStatStep, space_of};

use base::BLOCK_BYTES;
use nfs_types::{FileSystemSpace, Handle};
use procs_files::{Files, QueryReply, find};

// All that FSSTAT tells of blocks and numbers.
fn space_of<F: Files>(files: &F) -> Result<FileSystemSpace, F::Suspend>
    ensures err { IfErr result (λ suspend. F.may_suspend (F.source files.now) suspend) }
    ensures resumable { IfErr result (λ suspend. (world : F.World) (tree : Tree) → F.stands files.now world tree
        → F.is_resumable suspend) }
    ensures ok { IfOk result (λ space. (world : F.World) (tree : Tree) → F.stands files.now world tree
        → space ≡ space_of tree) }
{
    let free_bytes = BLOCK_BYTES as u64 * files.free_blocks()? as u64;
    let free_files = files.free_numbers()? as u64;
    Ok(FileSystemSpace {
        total_bytes: BLOCK_BYTES as u64 * files.data_blocks() as u64,
        free_bytes,
        available_bytes: free_bytes,
        total_files: files.inodes().saturating_sub(1) as u64,
        free_files,
        available_files: free_files,
        unchanged_seconds: 0,
    })
}

/// What is in use and free of the file system.
pub fn file_system_space<F: Files>(
    files: &F,
    object: &Handle,
) -> Result<QueryReply<FileSystemSpace>, F::Suspend>
    ensures err { IfErr result (λ suspend. F.may_suspend (F.source files.now) suspend) }
    ensures resumable { IfErr result (λ suspend. (world : F.World) (tree : Tree) → F.stands files.now world tree
        → F.is_resumable suspend) }
    ensures ok { IfOk result (λ query_reply. (world : F.World) (tree : Tree) → F.stands files.now world tree → FsStatStep
        tree object.now.bytes query_reply.outcome query_reply.object tree) }
{
    match find(files, object)? {
        Err(status) => Ok(QueryReply {
            outcome: Err(status),
            object: None,
        }),
        Ok(inode_attributes) => Ok(QueryReply {
            outcome: Ok(space_of(files)?),
            object: Some(inode_attributes.attributes()),
        }),
    }
}
