//! What the clear bits of the bitmaps are.
ghost use Rattle.std.specs.Prelude.{◌≡◌};
ghost use Rattle.base.specs.declared.TheConstants.{FIRST_HOME_BLOCK};
ghost use Rattle.disk.specs.Crash.{Image};
ghost use Rattle.layout.specs.declared.geometry.Geometry.{Geometry};
ghost use Rattle.layout.specs.Geometry.{bitmap_blocks, inode_bitmap_at};
ghost use Rattle.layout.specs.Holds.{Holds};
ghost use Rattle.nfs_spec.specs.Model.Tree.{Tree, free};
ghost use Rattle.nfs_spec.specs.Procedures.FsStat.{unused_numbers};
ghost use Rattle.bitmap.specs.Clear.{clear_of};

/// Where blocks hold the files of a tree, as many bits are clear as it has free blocks and unused numbers.
pub fn the_clear_bits_are_what_is_free()
    ensures blocks { (g : Geometry) (blocks : Image) (tree : Tree) → Holds g blocks tree
        → clear_of blocks FIRST_HOME_BLOCK (bitmap_blocks g.blocks) ≡ free tree }
    ensures inodes { (g : Geometry) (blocks : Image) (tree : Tree) → Holds g blocks tree
        → clear_of blocks (inode_bitmap_at g.blocks) (bitmap_blocks g.inodes) ≡ unused_numbers tree }
{}
