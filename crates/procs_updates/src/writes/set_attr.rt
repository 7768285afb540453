//! SETATTR (RFC 1813, section 3.3.2).
ghost use Rattle.std.specs.Prelude.{◌≡◌, ◌+◌, ◌≤◌, nat_lt, false, IfErr, IfOk};
ghost use Rattle.base.specs.declared.TheConstants.{LARGEST_FILE};
ghost use Rattle.nfs_types.specs.Fits.{CallFits};
ghost use Rattle.nfs_types.specs.declared.call.Call.TheVariants as call;
ghost use Rattle.nfs_spec.specs.Model.Node.{Body};
ghost use Rattle.nfs_spec.specs.Model.SetAttr.{SetAttrStep, given, with_attributes, with_length};
ghost use Rattle.nfs_spec.specs.Model.Sound.{Sound, SoundCtx};
ghost use Rattle.nfs_spec.specs.Model.Tree.{Tree, with_node};
ghost use Rattle.nfs_spec.specs.Procedures.StepForms.{tree_after};
ghost use Rattle.procs_files.specs.Writable.{SoundInodeAttributes, headed};
ghost use Rattle.procs_files.specs.Heads.{IsFileIn, node_of};
ghost use Rattle.procs_updates.specs.Writes.Acting.{IsActed, set_inode_attributes, setting};

use crate::writes::attributes::set_inode_attributes;
use crate::writes::done::{Done, changed, refused, unfound};
use crate::writes::refusals::set_refusal;
use nfs_types::{Ctx, Handle, Moment, NewAttributes};
use procs_files::{Changed, InodeAttributes, WritableFiles, find};

/// Sets the attributes of a file that is there, whatever they are: its head then.
pub fn set_file<F: WritableFiles>(
    files: &mut F,
    moment: &Moment,
    wanted: &NewAttributes,
    file: &InodeAttributes,
) -> Result<InodeAttributes, F::Suspend>
    requires { given wanted.now.size (λ size. nat_lt LARGEST_FILE size) ≡ false }
    ensures err { IfErr result (λ suspend. F.may_suspend (F.source files.old) suspend) }
    ensures source { F.source files.new ≡ F.source files.old }
    ensures dirty_count { F.dirty_count files.new ≤ F.dirty_count files.old + 5 }
    ensures resumable { IfErr result (λ suspend. (world : F.World) (tree : Tree) → F.stands files.old world tree
        → F.is_resumable suspend) }
    ensures ok { IfOk result (λ next. (world : F.World) (tree : Tree) (body : Body)
        → F.stands files.old world tree → IsFileIn tree file.now body
        → SoundInodeAttributes tree.geometry.inodes (set_inode_attributes moment.now wanted.now file.now)
        → (next ≡ headed (set_inode_attributes moment.now wanted.now file.now) (with_length wanted.now.size body))
        × F.stands files.new world (with_node tree file.now.number
        (with_attributes moment.now wanted.now (node_of file.now body)))) }
{
    let inode_attributes = set_inode_attributes(moment, wanted, file);
    match wanted.size {
        Some(size) => files.resize(&inode_attributes, size),
        None => {
            files.set(&inode_attributes)?;
            Ok(inode_attributes)
        }
    }
}

fn set_in<F: WritableFiles>(
    files: &mut F,
    ctx: &Ctx,
    wanted: &NewAttributes,
    guard: &Option<Moment>,
    file: &InodeAttributes,
) -> Result<Done<()>, F::Suspend>
    ensures err { IfErr result (λ suspend. F.may_suspend (F.source files.old) suspend) }
    ensures source { F.source files.new ≡ F.source files.old }
    ensures dirty_count { F.dirty_count files.new ≤ F.dirty_count files.old + 5 }
    ensures resumable { IfErr result (λ suspend. (world : F.World) (tree : Tree) → F.stands files.old world tree
        → F.is_resumable suspend) }
    ensures ok { IfOk result (λ done. (world : F.World) (tree : Tree) (body : Body)
        → F.stands files.old world tree → IsFileIn tree file.now body
        → Sound (tree_after tree
        (setting tree ctx.now wanted.now guard.now file.now.number (node_of file.now body)))
        → IsActed (F.stands files.new world) tree file.now.number
        (setting tree ctx.now wanted.now guard.now file.now.number (node_of file.now body)) done.outcome
        done.inode_attributes) }
{
    match set_refusal(ctx, wanted, guard, file) {
        Some(status) => Ok(refused(status, file)),
        None => {
            let inode_attributes = set_file(files, &ctx.moment, wanted, file)?;
            Ok(Done {
                outcome: Ok(()),
                inode_attributes,
            })
        }
    }
}

/// Sets the attributes of the file that a handle names, or says why not.
pub fn set_attributes<F: WritableFiles>(
    files: &mut F,
    ctx: &Ctx,
    object: &Handle,
    wanted: &NewAttributes,
    guard: &Option<Moment>,
) -> Result<Changed<()>, F::Suspend>
    ensures err { IfErr result (λ suspend. F.may_suspend (F.source files.old) suspend) }
    ensures source { F.source files.new ≡ F.source files.old }
    ensures dirty_count { F.dirty_count files.new ≤ F.dirty_count files.old + 5 }
    ensures resumable { IfErr result (λ suspend. (world : F.World) (tree : Tree) → F.stands files.old world tree
        → F.is_resumable suspend) }
    ensures ok { IfOk result (λ done. (world : F.World) (tree : Tree) → F.stands files.old world tree
        → Sound tree → SoundCtx ctx.now → CallFits (call.SetAttr object.now wanted.now guard.now)
        → (next : Tree)
        × SetAttrStep tree ctx.now object.now.bytes wanted.now guard.now done.outcome done.file next
        × F.stands files.new world next) }
{
    match find(files, object)? {
        Err(status) => Ok(unfound(status)),
        Ok(file) => {
            let done = set_in(files, ctx, wanted, guard, &file)?;
            Ok(changed(&file, done))
        }
    }
}
