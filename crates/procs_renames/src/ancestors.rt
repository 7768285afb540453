//! Which directories lie below which.
ghost use Rattle.std.specs.Prelude.{◌≡◌, IfErr, IfOk};
ghost use Rattle.nfs_spec.specs.Model.Names.{parent_in};
ghost use Rattle.nfs_spec.specs.Model.Tree.{Tree, node_at};
ghost use Rattle.nfs_spec.specs.Procedures.Rename.{is_within};

use procs_files::Files;

// The directory that names the file of a number; 0, where that is no directory.
fn parent_in<F: Files>(files: &F, number: u32) -> Result<u32, F::Suspend>
    ensures err { IfErr result (λ suspend. F.may_suspend (F.source files.now) suspend) }
    ensures resumable { IfErr result (λ suspend. (world : F.World) (tree : Tree) → F.stands files.now world tree
        → F.is_resumable suspend) }
    ensures ok { IfOk result (λ parent. (world : F.World) (tree : Tree) → F.stands files.now world tree
        → parent ≡ parent_in (node_at tree number)) }
{
    match files.file(number)? {
        Some(file) => Ok(file.parent),
        None => Ok(0),
    }
}

/// Whether the directory of a number is the file, or lies below it. The root is its own parent, so nothing is
/// sought above it.
pub fn is_within<F: Files>(files: &F, file: u32, number: u32) -> Result<bool, F::Suspend>
    ensures err { IfErr result (λ suspend. F.may_suspend (F.source files.now) suspend) }
    ensures resumable { IfErr result (λ suspend. (world : F.World) (tree : Tree) → F.stands files.now world tree
        → F.is_resumable suspend) }
    ensures ok { IfOk result (λ within. (world : F.World) (tree : Tree) → F.stands files.now world tree
        → within ≡ is_within tree file number) }
{
    let end = files.inodes();
    let mut at = number;
    let mut steps = 0;
    'steps: while steps < end {
        if at == file {
            return Ok(true);
        }
        let parent = parent_in(files, at)?;
        if parent == at {
            return Ok(false);
        }
        at = parent;
        steps += 1;
    }
    Ok(false)
}
