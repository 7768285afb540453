//! Names, and what they lead to (RFC 1813, section 3.2).
ghost use Rattle.std.specs.Prelude.{◌≡◌, ◌&&◌, ◌||◌, IfErr, IfOk, nat_eq};
ghost use Rattle.std.specs.List.{list_all, list_any};
ghost use Rattle.nfs_spec.specs.Model.Node.{Body};
ghost use Rattle.nfs_spec.specs.Model.Sound.{DOT, SLASH};
ghost use Rattle.nfs_spec.specs.Model.Tree.{Tree};
ghost use Rattle.nfs_spec.specs.Procedures.FirstTests.{is_no_name};
ghost use Rattle.nfs_spec.specs.Procedures.Places.{is_dots, is_own_name, named_file};
ghost use Rattle.procs_files.specs.Heads.{IsFileIn, IsFound, node_of};

use crate::{Files, InodeAttributes};

fn has_only_dots(name: &[u8]) -> bool
    ensures { result ≡ list_all (λ byte. nat_eq byte DOT) name.now }
{
    name.iter().all(|byte| *byte == b'.')
}

/// Whether it is a name of so many dots.
pub fn is_dots(count: usize, name: &[u8]) -> bool
    ensures { result ≡ is_dots count name.now }
{
    name.len() == count && has_only_dots(name)
}

fn has_forbidden(name: &[u8]) -> bool
    ensures { result ≡ list_any (λ byte. nat_eq byte SLASH || nat_eq byte 0) name.now }
{
    name.iter().any(|byte| *byte == b'/' || *byte == 0)
}

/// Whether it is a name that each directory has of its own: `.` or `..`.
pub fn is_own_name(name: &[u8]) -> bool
    ensures { result ≡ is_own_name name.now }
{
    is_dots(1, name) || is_dots(2, name)
}

/// Whether it is empty, or has a character that no name has.
pub fn is_no_name(name: &[u8]) -> bool
    ensures { result ≡ is_no_name name.now }
{
    name.len() == 0 || has_forbidden(name)
}

/// The file that a name in a directory leads to.
pub fn named_file<F: Files>(
    files: &F,
    directory: &InodeAttributes,
    name: &[u8],
) -> Result<Option<InodeAttributes>, F::Suspend>
    ensures err { IfErr result (λ suspend. F.may_suspend (F.source files.now) suspend) }
    ensures resumable { IfErr result (λ suspend. (world : F.World) (tree : Tree) → F.stands files.now world tree
        → F.is_resumable suspend) }
    ensures ok { IfOk result (λ found. (world : F.World) (tree : Tree) (body : Body) → F.stands files.now world tree
        → IsFileIn tree directory.now body
        → IsFound tree (named_file tree (node_of directory.now body) name.now) found) }
{
    match files.dirent(directory, name)? {
        Some(dirent) => files.file(dirent.number),
        None => Ok(None),
    }
}
