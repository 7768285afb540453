//! What is linked is whole.
ghost use Rattle.std.specs.Prelude.{◌≡◌, ◌<◌, ℕ, List, Option, Ok, Some, length};
ghost use Rattle.base.specs.declared.TheConstants.{BLOCK_BYTES};
ghost use Rattle.disk.specs.Crash.{Image};
ghost use Rattle.nfs_types.specs.Fits.{AreBytes};
ghost use Rattle.layout.specs.declared.geometry.Geometry.{Geometry};
ghost use Rattle.layout.specs.declared.inode.Inode.{Inode};
ghost use Rattle.layout.specs.declared.inode.InodeKind.TheVariants.{Directory};
ghost use Rattle.layout.specs.Decode.{IsFile};
ghost use Rattle.layout.specs.Parts.{content_in, table_of};
ghost use Rattle.image_read.specs.declared.counts.links.Links.{Links};
ghost use Rattle.image_read.specs.Counts.Linked.{AreLinked};
ghost use Rattle.image_read.specs.Laws.TreeOf.{HasNames};
ghost use Rattle.image_read.specs.Laws.Whole.{IsWhole};
ghost use Rattle.image_contents.specs.Found.Counted.{IsCounted};

/// Where each inode is free or a file's and the names in the slots of directories are names, an image is whole if its
/// files are linked by what was counted of it.
pub fn what_is_linked_is_whole()
    ensures { (g : Geometry) (blocks : Image) (table : List (Option Inode)) (links : Links)
        → ((number : ℕ) → number < g.blocks → (length (blocks number) ≡ BLOCK_BYTES) × AreBytes (blocks number))
        → ((number : ℕ) → number < g.inodes → IsFile g (content_in g blocks) (table_of g blocks number))
        → ((number : ℕ) (inode : Inode) → table_of g blocks number ≡ Ok (Some inode) → inode.kind ≡ Directory
        → HasNames g (content_in g blocks) inode)
        → IsCounted g blocks table links → AreLinked table links → IsWhole g blocks }
{}

/// The files of a whole image are linked, by what was counted of it.
pub fn what_is_whole_is_linked()
    ensures { (g : Geometry) (blocks : Image) (table : List (Option Inode)) (links : Links)
        → ((number : ℕ) → number < g.blocks → (length (blocks number) ≡ BLOCK_BYTES) × AreBytes (blocks number))
        → IsCounted g blocks table links → IsWhole g blocks → AreLinked table links }
{}
