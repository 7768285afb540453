//! Laws on trees.
ghost use Rattle.nfs_types.specs.declared.ctx.Moment.{Moment};
ghost use Rattle.nfs_spec.specs.Model.Tree.{Geometry};
ghost use Rattle.nfs_spec.specs.Model.Sound.{Sound, SoundGeometry, SoundTime};
ghost use Rattle.nfs_spec.specs.Model.Format.{format_tree};

/// The tree of a fresh image is sound.
pub fn the_format_tree_is_sound()
    ensures { (geometry : Geometry) (moment : Moment) → SoundGeometry geometry → SoundTime moment
        → Sound (format_tree geometry moment) }
{}
