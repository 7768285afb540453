//! A law on what there is to run on.
ghost use Rattle.std.specs.Prelude.{[]};
ghost use Rattle.layout.specs.declared.geometry.Geometry.{Geometry};
ghost use Rattle.layout.specs.Fresh.{fresh};
ghost use Rattle.layout.specs.Geometry.{IsLawful};
ghost use Rattle.layout.specs.Stands.{geometry_of};
ghost use Rattle.store_law.specs.Lives.Still.{still};
ghost use Rattle.nfs_spec.specs.Model.Format.{format_tree};
ghost use Rattle.nfs_spec.specs.Model.Sound.{SoundTime};
ghost use Rattle.nfs_types.specs.declared.ctx.Moment.{Moment};
ghost use Rattle.store_promise.specs.Headline.{MayRun};
ghost use Rattle.store_promise.specs.Schedule.{Schedule, SoundEvents};

/// A device at rest with a fresh image of each lawful size is what a run may stand on; and there is one.
pub fn a_fresh_image_can_be_held()
    ensures each { (g : Geometry) (moment : Moment) (events : Schedule) → IsLawful g.blocks g.inodes
        → SoundTime moment → SoundEvents events
        → MayRun (Unit {0}) (still g.blocks (fresh g moment)) (format_tree (geometry_of g) moment) 0 events }
    ensures one { (g : Geometry) × (moment : Moment) × MayRun (Unit {0}) (still g.blocks (fresh g moment))
        (format_tree (geometry_of g) moment) 0 [] }
{
    layout::there_is_a_fresh_image();
    store_promise::a_fresh_image_is_good();
}
