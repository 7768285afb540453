//! Laws on an image that was just made, and on the tree that blocks stand for.
ghost use Rattle.std.specs.Prelude.{ℕ, ◌≡◌, ◌<◌, ◌^◌};
ghost use Rattle.disk.specs.Crash.{Image};
ghost use Rattle.nfs_spec.specs.Model.Format.{format_tree};
ghost use Rattle.nfs_spec.specs.Model.Sound.{SoundTime};
ghost use Rattle.nfs_spec.specs.Model.Tree.{Tree};
ghost use Rattle.nfs_types.specs.declared.ctx.Moment.{Moment};
ghost use Rattle.layout.specs.declared.geometry.Geometry.{Geometry};
ghost use Rattle.layout.specs.Fresh.{HasFreshHomes, IsFresh, fresh};
ghost use Rattle.layout.specs.Homes.{homes_of};
ghost use Rattle.layout.specs.Geometry.{IsLawful};
ghost use Rattle.layout.specs.Stands.{Stands, geometry_of};
ghost use Rattle.layout.specs.SuperForm.{IsSuper, super_bytes};
ghost use Rattle.layout.specs.declared.super_block.Super.{Super};
ghost use Rattle.layout.specs.declared.version.FormatVersion.TheVariants.{Second};

/// The homes of a fresh image stand for the tree with the root alone.
pub fn a_fresh_image_stands_for_the_format_tree()
    ensures { (g : Geometry) (moment : Moment) (image : Image) → IsLawful g.blocks g.inodes → SoundTime moment
        → HasFreshHomes g moment image
        → Stands g (homes_of g.blocks image) (format_tree (geometry_of g) moment) }
{}

/// There is a fresh image of each lawful size.
pub fn there_is_a_fresh_image()
    ensures { (g : Geometry) (moment : Moment) → IsLawful g.blocks g.inodes
        → IsFresh g moment (fresh g moment) }
{}

/// The bytes that a super block gets are those of this super block.
pub fn a_super_block_is_its_bytes()
    ensures { (s : Super) → IsLawful s.geometry.blocks s.geometry.inodes → s.boot < 2 ^ 64
        → IsSuper (super_bytes s) s }
{}

/// Blocks that stand for a tree in an image of any version stand for it where the image has the newest one.
pub fn an_image_is_read_alike_in_the_newest_version()
    ensures { (g h : Geometry) (blocks : Image) (tree : Tree) → h.version ≡ Second → h.blocks ≡ g.blocks
        → h.inodes ≡ g.inodes → Stands g blocks tree → Stands h blocks tree }
{}

/// Two trees that the same blocks stand for are equal.
pub fn blocks_stand_for_one_tree()
    ensures { (g : Geometry) (blocks : Image) (one other : Tree) → Stands g blocks one → Stands g blocks other
        → one ≡ other }
{}
