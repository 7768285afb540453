//! Laws on the slots of directories.
ghost use Rattle.std.specs.Prelude.{◌≡◌, ◌≢◌, ◌*◌, ◌/◌, ◌<◌, ◌≤◌, ℕ, List, length, false, nat_eq, get_or, Ok, Some};
ghost use Rattle.std.specs.FinMap.{insert, remove};
ghost use Rattle.base.specs.declared.TheConstants.{BLOCK_BYTES, SLOTS_PER_BLOCK};
ghost use Rattle.disk.specs.Crash.{Image};
ghost use Rattle.layout.specs.declared.geometry.Geometry.{Geometry};
ghost use Rattle.layout.specs.declared.inode.Inode.{Inode};
ghost use Rattle.layout.specs.Decode.{IsDirectory, entries_in, numbers_of, span_of};
ghost use Rattle.layout.specs.declared.slot.Slot.{Slot};
ghost use Rattle.layout.specs.SlotForm.{SoundSlot, number_under, used_bytes};
ghost use Rattle.dir.specs.Slots.{slot_at};
ghost use Rattle.dir_writes.specs.Clearing.{HasOnce, cleared, slot_block};
ghost use Rattle.dir_writes.specs.NameInsertion.{dirent_in};
ghost use Rattle.dir_writes.specs.SlotWrites.{IsVacant, slotted};

/// A directory in which a free slot gets a name that it hasn't, or the slot of a name gets another number, has the
/// names that it had, with this one. Its blocks are each at one index alone.
pub fn a_filled_slot_gains_its_name()
    ensures { (g : Geometry) (content : Image) (inode : Inode) (s : ℕ) (slot : Slot)
        → ((block : ℕ) → length (content block) ≡ BLOCK_BYTES) → span_of inode ≤ length (numbers_of content inode)
        → IsDirectory g content inode → s < SLOTS_PER_BLOCK * span_of inode
        → HasOnce content inode (slot_block content inode s) → SoundSlot g.inodes slot
        → IsVacant g content inode s slot.name
        → IsDirectory g (slotted content inode s (used_bytes slot)) inode
        × (entries_in g.inodes (slotted content inode s (used_bytes slot)) inode
        ≡ insert (entries_in g.inodes content inode) slot.name (dirent_in slot.number s)) }
{}

/// A directory in which the slot of a name becomes zeros has the names that it had, but for this one. Its
/// blocks are each at one index alone.
pub fn a_cleared_slot_loses_its_name()
    ensures rules { (g : Geometry) (content : Image) (inode : Inode) (name : List ℕ) (slot number : ℕ)
        → ((block : ℕ) → length (content block) ≡ BLOCK_BYTES) → span_of inode ≤ length (numbers_of content inode)
        → IsDirectory g content inode → slot < SLOTS_PER_BLOCK * span_of inode
        → HasOnce content inode (slot_block content inode slot)
        → number_under name (slot_at g.inodes content inode slot) ≡ Ok (Some number)
        → IsDirectory g (cleared content inode slot) inode }
    ensures names { (g : Geometry) (content : Image) (inode : Inode) (name : List ℕ) (slot number : ℕ)
        → ((block : ℕ) → length (content block) ≡ BLOCK_BYTES) → span_of inode ≤ length (numbers_of content inode)
        → IsDirectory g content inode → slot < SLOTS_PER_BLOCK * span_of inode
        → HasOnce content inode (slot_block content inode slot)
        → number_under name (slot_at g.inodes content inode slot) ≡ Ok (Some number)
        → entries_in g.inodes (cleared content inode slot) inode
        ≡ remove (entries_in g.inodes content inode) name }
{}
