//! Links of files.
ghost use Rattle.std.specs.Prelude.{◌≡◌, ◌+◌, ◌<◌, ◌≤◌, ◌^◌};
ghost use Rattle.nfs_spec.specs.Model.Names.{is_directory};
ghost use Rattle.nfs_spec.specs.Model.Node.{Body};
ghost use Rattle.nfs_spec.specs.Procedures.Changes.{parent_links};
ghost use Rattle.procs_files.specs.Heads.{IsBodyOf, shell};

use nfs_types::FileKind;
use procs_files::InodeAttributes;

/// Whether a file is a directory.
pub fn is_directory(inode_attributes: &InodeAttributes) -> bool
    ensures { result ≡ is_directory (shell inode_attributes.now) }
{
    matches!(inode_attributes.kind, FileKind::Directory)
}

/// How many links of its directory a file is.
pub fn parent_links(inode_attributes: &InodeAttributes) -> u32
    ensures is { result ≡ parent_links (shell inode_attributes.now) }
    ensures small { result ≤ 1 }
{
    if is_directory(inode_attributes) { 1 } else { 0 }
}

/// So many links more.
pub fn more_links(nlink: u32, links: u32) -> u32
    ensures { nlink + links < 2 ^ 32 → result ≡ nlink + links }
{
    match nlink.checked_add(links) {
        Some(sum) => sum,
        None => nlink,
    }
}
