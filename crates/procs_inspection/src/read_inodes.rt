//! The inodes that were read, and their files.
ghost use Rattle.std.specs.Prelude.{ℕ, ◌≡◌, length, true, false};
ghost use Rattle.base.specs.declared.TheConstants.{INODE_BYTES};
ghost use Rattle.disk.specs.Crash.{Image};
ghost use Rattle.layout.specs.Decode.{inode_at};
ghost use Rattle.layout.specs.InodeForm.{read_inode};
ghost use Rattle.layout_records.specs.OnGrid.{IsInodeAt};
ghost use Rattle.txn_law.specs.Window.{IsAsRead};
ghost use Rattle.inode.specs.Read.{Saw};
ghost use Rattle.dir.specs.Search.Known.{IsKnown};
ghost use Rattle.procs_inspection.specs.Refused.{AreRead, IsRefused, IsRefusedFile};

use crate::blocks::has_refused_block;
use dir::Names;
use inode::Snap;
use layout::Inode;
use layout_records::inode_number;
use objects::Object;

// Whether the layout refuses the bytes of the inode of a number, or a block that was read of its file.
fn is_refused_inode(snap: &Snap, names: &Names, number: u32, bytes: &[u8]) -> bool
    requires len { length bytes.now ≡ INODE_BYTES }
    requires known { IsKnown snap.now names.now }
    ensures some { result ≡ true → (blocks : Image) → AreRead snap.now blocks
        → inode_at snap.now.geometry blocks number ≡ read_inode snap.now.geometry bytes.now
        → IsRefusedFile snap.now blocks number }
    ensures none { result ≡ false → (blocks : Image) → Saw blocks snap.now
        → inode_at snap.now.geometry blocks number ≡ read_inode snap.now.geometry bytes.now
        → IsRefusedFile snap.now blocks number → ⊥ }
{
    match Inode::read(&snap.geometry, bytes) {
        Ok(Some(inode)) => has_refused_block(snap, &inode, names.valid_count(number) as usize),
        Ok(None) => false,
        Err(_) => true,
    }
}

// The same of an object, if it is an inode.
fn is_refused_object(snap: &Snap, names: &Names, object: &Object) -> bool
    requires known { IsKnown snap.now names.now }
    ensures some { result ≡ true → (blocks : Image) → AreRead snap.now blocks → IsAsRead blocks object.now
        → (number : ℕ) × IsInodeAt snap.now.geometry number object.now.addr × IsRefusedFile snap.now blocks number }
    ensures none { result ≡ false → (blocks : Image) (number : ℕ) → Saw blocks snap.now
        → IsAsRead blocks object.now → IsInodeAt snap.now.geometry number object.now.addr
        → IsRefusedFile snap.now blocks number → ⊥ }
{
    match inode_number(&snap.geometry, object.addr()) {
        Some(number) => is_refused_inode(snap, names, number, object.bytes()),
        None => false,
    }
}

/// Whether the layout refuses something that was read: an inode, or a pointer block or a slot of a file whose
/// inode was read. The blocks that were looked through for a name, and are known to be clear, aren't looked at again.
pub fn is_refused(snap: &Snap, names: &Names) -> bool
    requires known { IsKnown snap.now names.now }
    ensures some { result ≡ true → (blocks : Image) → AreRead snap.now blocks → IsRefused snap.now blocks }
    ensures none { result ≡ false → (blocks : Image) → Saw blocks snap.now → IsRefused snap.now blocks → ⊥ }
{
    for object in &snap.objects {
        if is_refused_object(snap, names, object) {
            return true;
        }
    }
    false
}
