//! A law on an image that was just made.
ghost use Rattle.disk.specs.Crash.{Image, IsAtRest};
ghost use Rattle.disk.specs.Device.{Device};
ghost use Rattle.layout.specs.declared.geometry.Geometry.{Geometry};
ghost use Rattle.layout.specs.Fresh.{IsFresh};
ghost use Rattle.layout.specs.Geometry.{IsLawful};
ghost use Rattle.layout.specs.Stands.{geometry_of};
ghost use Rattle.nfs_spec.specs.Model.Format.{format_tree};
ghost use Rattle.nfs_spec.specs.Model.Sound.{SoundTime};
ghost use Rattle.nfs_types.specs.declared.ctx.Moment.{Moment};
ghost use Rattle.store_promise.specs.GoodImage.{IsGoodImage};
ghost use Rattle.store_promise.specs.Headline.{MayRun};
ghost use Rattle.store_promise.specs.Openings.{IsFormatted};
ghost use Rattle.store_promise.specs.Schedule.{Schedule, SoundEvents};

/// A fresh image is good, with the root alone as its tree and 0 as its boot number.
pub fn a_fresh_image_is_good()
    ensures { (g : Geometry) (moment : Moment) (image : Image) → IsLawful g.blocks g.inodes → SoundTime moment
        → IsFresh g moment image
        → IsGoodImage g.blocks image (format_tree (geometry_of g) moment) 0 }
{
    circ::law::an_empty_log_hides_nothing();
    layout::a_super_block_is_its_bytes();
    layout::a_fresh_image_stands_for_the_format_tree();
}

/// A run of one worker may stand on an image that was made on a device at rest, as on one that a store has
/// left.
pub fn a_made_image_may_run()
    ensures { (before later : Device) (g : Geometry) (moment : Moment) (events : Schedule)
        → IsLawful g.blocks g.inodes → SoundTime moment → SoundEvents events
        → IsAtRest before → IsFormatted before later g moment
        → MayRun (Unit {0}) later (format_tree (geometry_of g) moment) 0 events }
{
    a_fresh_image_is_good();
}
