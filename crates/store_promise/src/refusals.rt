//! Laws on openings that are refused: each only for a cause, which is one.
ghost use Rattle.std.specs.Prelude.{◌≡◌, ℕ, ◌+◌, ◌<◌, ◌^◌, None, alloc_error};
ghost use Rattle.disk.specs.Crash.{Image};
ghost use Rattle.disk.specs.Device.{Device};
ghost use Rattle.nfs_spec.specs.Model.Tree.{Tree};
ghost use Rattle.circ.specs.Log.Recovery.{IsCertain, image_of};
ghost use Rattle.store_promise.specs.declared.fault.OpenFault.{OpenFault};
ghost use Rattle.store_promise.specs.declared.fault.OpenFault.TheVariants as fault;
ghost use Rattle.store_promise.specs.GoodImage.{IsGoodImage};
ghost use Rattle.store_promise.specs.Openings.{IsAnsweredFor, IsRefused, IsShownBy, ShowsNoCause};

/// A good image shows no cause to refuse it, while a boot number is left.
pub fn a_good_image_shows_no_cause()
    ensures { (size boot : ℕ) (image : Image) (tree : Tree) → IsGoodImage size image tree boot
        → boot + 1 < 2 ^ 64
        → ShowsNoCause size image }
{}

/// An image of some blocks shows one cause at most, so it is refused for the first that is tested.
pub fn an_image_shows_one_cause()
    ensures { (size : ℕ) (image : Image) (one other : OpenFault) → 0 < size → IsShownBy one size image
        → IsShownBy other size image → one ≡ other }
{}

/// An image that shows a cause, and is opened though its device keeps the model and is unspoiled, breaks what
/// is promised of openings of any image.
pub fn what_shows_a_cause_is_not_opened()
    ensures { (before later : Device) (cause : OpenFault) → IsCertain before
        → IsShownBy cause before.size (image_of before) → IsAnsweredFor (Unit {0}) None before later → ⊥ }
{}

/// A refusal of a good image breaks the promise where it names what the image can't show, a failure that the
/// device hasn't counted, want of memory where it has counted one, or a boot number that is left.
pub fn a_good_image_is_refused_for_a_cause()
    ensures shown { (before later : Device) (tree : Tree) (first : ℕ)
        → (IsRefused before later tree first fault.Magic → ⊥)
        × (IsRefused before later tree first fault.Version → ⊥)
        × (IsRefused before later tree first fault.Log → ⊥) }
    ensures device { (before later : Device) (tree : Tree) (first : ℕ) → later.failures ≡ before.failures
        → IsRefused before later tree first fault.Device → ⊥ }
    ensures memory { (before later : Device) (tree : Tree) (first : ℕ) → before.failures < later.failures
        → IsRefused before later tree first (fault.NoMemory alloc_error) → ⊥ }
    ensures range { (before later : Device) (tree : Tree) (first : ℕ) → first + 1 < 2 ^ 64
        → IsRefused before later tree first fault.Range → ⊥ }
{}
