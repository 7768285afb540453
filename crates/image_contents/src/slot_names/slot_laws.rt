//! The slots of a directory and its entries.
ghost use Rattle.std.specs.Prelude.{◌≡◌, ℕ, List, length, map};
ghost use Rattle.std.specs.FinMap as finmap;
ghost use Rattle.disk.specs.Crash.{Image};
ghost use Rattle.nfs_types.specs.Fits.{AreBytes};
ghost use Rattle.nfs_spec.specs.Model.Node.{DirentValue};
ghost use Rattle.layout.specs.declared.geometry.Geometry.{Geometry};
ghost use Rattle.layout.specs.declared.inode.Inode.{Inode};
ghost use Rattle.layout.specs.declared.slot.Slot.{Slot};
ghost use Rattle.layout.specs.Decode.{entries_in, named_in};
ghost use Rattle.image_read.specs.Laws.TreeOf.{HasNames};
ghost use Rattle.image_contents.specs.Names.Names.{AreNames};
ghost use Rattle.image_contents.specs.Names.SlotsOf.{AreSlotsOf, slots_of_directory};

/// The slots of a directory that are in use have the names and the numbers of its entries, in their order.
pub fn slots_in_use_are_entries()
    ensures names { (inodes : ℕ) (content : Image) (inode : Inode)
        → map (λ (e : List ℕ × DirentValue). e.0) (named_in inodes content inode)
        ≡ map (λ (slot : Slot). slot.name) (slots_of_directory inodes content inode) }
    ensures numbers { (inodes : ℕ) (content : Image) (inode : Inode)
        → map (λ (e : List ℕ × DirentValue). e.1.number) (named_in inodes content inode)
        ≡ map (λ (slot : Slot). slot.number) (slots_of_directory inodes content inode) }
{}

/// The slots of a directory that are in use have names that files may be given, and none twice, just where its slots
/// have sound names and none is in two of them.
pub fn names_decide_a_directory()
    ensures once { (inodes : ℕ) (content : Image) (inode : Inode) → AreNames (slots_of_directory inodes content inode)
        → finmap.len (entries_in inodes content inode) ≡ length (named_in inodes content inode) }
    ensures sound { (g : Geometry) (content : Image) (inode : Inode)
        → AreSlotsOf g.inodes content inode → AreNames (slots_of_directory g.inodes content inode)
        → HasNames g content inode }
    ensures names { (g : Geometry) (content : Image) (inode : Inode) → HasNames g content inode
        → finmap.len (entries_in g.inodes content inode) ≡ length (named_in g.inodes content inode)
        → AreNames (slots_of_directory g.inodes content inode) }
{}
