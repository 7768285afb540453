//! The file of a call's first handle, as far as what was read of it is refused.
ghost use Rattle.std.specs.Prelude.{◌≡◌, Some, None, IfErr, IfNone, IfOk, IfSome};
ghost use Rattle.inode.specs.Read.{NoneStand};
ghost use Rattle.inode.specs.Snap.{IsNew};
ghost use Rattle.procs.specs.Asks.{IsAsked};
ghost use Rattle.procs.specs.Refused.{NoneRead, NoneRefused, first_handle};

use disk::BlockNo;
use inode::{Snap, Suspend, bytes_at, inode_of};
use nfs_types::{Call, Handle};
use objects::Addr;

/// The handle of a call that is looked at first, if it has one.
pub(crate) fn first_handle(call: &Call) -> Option<&Handle>
    ensures some { IfSome result (λ handle. first_handle call.now ≡ Some handle.now) }
    ensures none { IfNone result (first_handle call.now ≡ None) }
{
    call.facts().handle
}

/// Asks for the inode that a handle names and for its indirect block, if there are any. Where the layout refuses
/// nothing that was read, neither of these is refused behind it.
pub(crate) fn read_file(snap: &Snap, handle: &Handle) -> Result<(), Suspend>
    ensures err { IfErr result (λ suspend. IsNew snap.now suspend) }
    ensures io { IfErr result (λ suspend. NoneStand snap.now suspend) }
    ensures asks { IfErr result (λ suspend. IsAsked snap.now suspend) }
    ensures sound { IfOk result (λ _. NoneRead snap.now → NoneRefused snap.now handle.now.bytes) }
{
    let Some((number, stamp)) = handle.parts() else {
        return Ok(());
    };
    if number == 0 || number >= snap.geometry.inodes {
        return Ok(());
    }
    let Some(inode) = inode_of(snap, number)? else {
        return Ok(());
    };
    if inode.stamp != stamp {
        return Ok(());
    }
    if snap.geometry.is_data(inode.indirect) {
        bytes_at(snap, Addr::whole(BlockNo(inode.indirect)))?;
    }
    Ok(())
}
