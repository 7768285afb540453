//! What lies in an image's blocks, once it was read.
ghost use Rattle.std.specs.Prelude.{◌≡◌, ◌<◌, length, Ok, IfErr, IfOk, IfSome};
ghost use Rattle.disk.specs.Crash.{Image};
ghost use Rattle.layout.specs.Decode.{inode_at};
ghost use Rattle.txn_law.specs.Window.{object_at};
ghost use Rattle.inode.specs.Snap.{IsNew};
ghost use Rattle.inode.specs.Read.{WasRead, WasReadInode, IsAskedInode, Saw, NoneStand};
ghost use Rattle.inode.specs.declared.suspend.Suspend.TheVariants as suspend;

use crate::snap::Snap;
use crate::suspend::Suspend;
use layout::Inode;
use objects::{Addr, Object};

/// What lies at an address, once it was read, in whatever mode. It is asked for in the mode of all that is read.
pub(crate) fn object_at(snap: &Snap, addr: Addr) -> Result<&Object, Suspend>
    ensures ok { IfOk result (λ object. object.now.addr.len ≡ addr.len) }
    ensures there { IfOk result (λ object. (blocks : Image) → Saw blocks snap.now
        → object_at blocks addr ≡ object.now.bytes) }
    ensures err { IfErr result (λ suspend. IsNew snap.now suspend) }
    ensures io { IfErr result (λ suspend. NoneStand snap.now suspend) }
    ensures need { IfErr result (λ why. why ≡ suspend.Need addr snap.now.asks) }
    ensures read { IfOk result (λ object. WasRead snap.now.objects.items addr object.now.bytes) }
{
    match snap.get(addr) {
        Some(object) => Ok(object),
        None => Err(Suspend::Need(addr, snap.asks)),
    }
}

/// The bytes at an address, once they were read, in whatever mode. They are asked for in the mode of all that is read.
pub fn bytes_at(snap: &Snap, addr: Addr) -> Result<&[u8], Suspend>
    ensures ok { IfOk result (λ bytes. length bytes.now ≡ addr.len) }
    ensures there { IfOk result (λ bytes. (blocks : Image) → Saw blocks snap.now
        → object_at blocks addr ≡ bytes.now) }
    ensures err { IfErr result (λ suspend. IsNew snap.now suspend) }
    ensures io { IfErr result (λ suspend. NoneStand snap.now suspend) }
    ensures need { IfErr result (λ why. why ≡ suspend.Need addr snap.now.asks) }
    ensures read { IfOk result (λ bytes. WasRead snap.now.objects.items addr bytes.now) }
{
    match object_at(snap, addr) {
        Ok(object) => Ok(object.bytes()),
        Err(suspend) => Err(suspend),
    }
}

/// The inode of a number, which is that of an inode of the image: None where it is free.
pub fn inode_of(snap: &Snap, number: u32) -> Result<Option<Inode>, Suspend>
    requires { number < snap.now.geometry.inodes }
    ensures there { IfOk result (λ found. (blocks : Image) → Saw blocks snap.now
        → inode_at snap.now.geometry blocks number ≡ Ok found) }
    ensures read { IfOk result (λ found. IfSome found
        (λ inode. WasReadInode snap.now.geometry snap.now.objects.items number inode)) }
    ensures asks { IfErr result (λ suspend. IsAskedInode snap.now.geometry number suspend) }
    ensures err { IfErr result (λ suspend. IsNew snap.now suspend) }
    ensures io { IfErr result (λ suspend. NoneStand snap.now suspend) }
{
    let bytes = bytes_at(snap, snap.geometry.inode_addr(number))?;
    match Inode::read(&snap.geometry, bytes) {
        Ok(found) => Ok(found),
        Err(_) => Err(Suspend::Io),
    }
}
