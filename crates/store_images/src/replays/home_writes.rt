//! Blocks and objects that are written at home.
ghost use Rattle.std.specs.Prelude.{◌≡◌, ◌<◌, false, All, OnOk};
ghost use Rattle.disk.specs.Device.{CountsFailure, is_on};
ghost use Rattle.disk.specs.declared.block.Side.TheVariants.{Log};
ghost use Rattle.circ.specs.Log.Law.{with_changes, with_home};
ghost use Rattle.circ.specs.Log.Log.{IsHomeOn, blocks_of, changes_of};
ghost use Rattle.circ.specs.Log.Recovery.{IsCertain, image_of};
ghost use Rattle.txn_law.specs.Window.{with_object, with_objects};
ghost use Rattle.store_promise.specs.Openings.{IsLater};
ghost use Rattle.store_images.specs.Replays.Putting.{HasComeHome, HasPut};

use disk::{Block, BlockNo, CrashDisk, Failed, Side};
use objects::{Object, splice};

/// Writes a block of the home side.
pub(crate) fn put<D: CrashDisk>(
    disk: &mut D,
    number: BlockNo,
    content: &Block,
) -> Result<(), Failed>
    requires within { number.0 < (D.device disk.old).size }
    requires side { is_on Log number.0 ≡ false }
    ensures later { IsLater (D.device disk.old) (D.device disk.new) }
    ensures failure { CountsFailure (D.device disk.old) (D.device disk.new) result }
    ensures put { OnOk result (HasPut (D.device disk.old) (D.device disk.new)
        (with_home (image_of (D.device disk.old)) number.0 content.now)) }
    ensures model { D.keeps_model disk.new → D.keeps_model disk.old }
{
    disk.write(number, content)
}

/// Writes the blocks of a log home, in log order.
#[tactic(auto, using(store_promise::proofs::Later::past_more, store_promise::proofs::Later::past_one, store_promise::proofs::Later::past_none))]
pub(crate) fn put_blocks<D: CrashDisk>(
    disk: &mut D,
    logged: &[(BlockNo, Block)],
) -> Result<(), Failed>
    requires { All (IsHomeOn (D.device disk.old).size) (blocks_of logged.now) }
    ensures later { IsLater (D.device disk.old) (D.device disk.new) }
    ensures failure { CountsFailure (D.device disk.old) (D.device disk.new) result }
    ensures put { OnOk result (HasPut (D.device disk.old) (D.device disk.new)
        (with_changes (image_of (D.device disk.old)) (changes_of 0 logged.now))) }
    ensures model { D.keeps_model disk.new → D.keeps_model disk.old }
{
    for change in logged {
        put(disk, change.0, &change.1)?;
    }
    Ok(())
}

// Lays an object over the block that it lies in.
#[tactic(auto, using(store_promise::proofs::Later::past_more, store_promise::proofs::Later::past_one, store_promise::proofs::Later::past_none))]
fn put_object<D: CrashDisk>(disk: &mut D, block: &mut Block, object: &Object) -> Result<(), Failed>
    requires { IsHomeOn (D.device disk.old).size object.now.addr.block }
    ensures later { IsLater (D.device disk.old) (D.device disk.new) }
    ensures failure { CountsFailure (D.device disk.old) (D.device disk.new) result }
    ensures put { D.keeps_model disk.new → IsCertain (D.device disk.old)
        → OnOk result (HasPut (D.device disk.old) (D.device disk.new)
        (with_object (image_of (D.device disk.old)) object.now)) }
    ensures model { D.keeps_model disk.new → D.keeps_model disk.old }
{
    let number = object.addr().block;
    disk.read(number, block)?;
    splice(block, object);
    put(disk, number, block)
}

// Lays objects over the blocks that they lie in, one after another.
#[tactic(auto, using(store_promise::proofs::Later::past_more, store_promise::proofs::Later::past_one, store_promise::proofs::Later::past_none))]
fn put_objects<D: CrashDisk>(
    disk: &mut D,
    block: &mut Block,
    objects: &[Object],
) -> Result<(), Failed>
    requires { All (λ object. IsHomeOn (D.device disk.old).size object.addr.block) objects.now }
    ensures later { IsLater (D.device disk.old) (D.device disk.new) }
    ensures failure { CountsFailure (D.device disk.old) (D.device disk.new) result }
    ensures put { D.keeps_model disk.new → IsCertain (D.device disk.old)
        → OnOk result (HasPut (D.device disk.old) (D.device disk.new)
        (with_objects (image_of (D.device disk.old)) objects.now)) }
    ensures model { D.keeps_model disk.new → D.keeps_model disk.old }
{
    for object in objects {
        put_object(disk, block, object)?;
    }
    Ok(())
}

/// The same, and settles them.
#[tactic(auto, using(store_promise::proofs::Later::past_more, store_promise::proofs::Later::past_one, store_promise::proofs::Later::past_none))]
pub(crate) fn bring_home<D: CrashDisk>(
    disk: &mut D,
    block: &mut Block,
    objects: &[Object],
) -> Result<(), Failed>
    requires { All (λ object. IsHomeOn (D.device disk.old).size object.addr.block) objects.now }
    ensures later { IsLater (D.device disk.old) (D.device disk.new) }
    ensures failure { CountsFailure (D.device disk.old) (D.device disk.new) result }
    ensures home { D.keeps_model disk.new → IsCertain (D.device disk.old)
        → OnOk result (HasComeHome (D.device disk.old) (D.device disk.new)
        (with_objects (image_of (D.device disk.old)) objects.now)) }
    ensures model { D.keeps_model disk.new → D.keeps_model disk.old }
{
    put_objects(disk, block, objects)?;
    disk.barrier(Side::Home)
}
