//! Laws on the steps of SETATTR.
ghost use Rattle.std.specs.Prelude.{◌≡◌, ◌≢◌, ℕ, List, Option, Result, Err};
ghost use Rattle.nfs_types.specs.Fits.{NewAttributesFit};
ghost use Rattle.nfs_types.specs.declared.attributes.NewAttributes.{NewAttributes};
ghost use Rattle.nfs_types.specs.declared.attributes.WeakCacheData.{WeakCacheData};
ghost use Rattle.nfs_types.specs.declared.ctx.Ctx.{Ctx};
ghost use Rattle.nfs_types.specs.declared.ctx.Moment.{Moment};
ghost use Rattle.nfs_types.specs.declared.status.Status.{Status};
ghost use Rattle.nfs_types.specs.declared.status.Status.TheVariants as status;
ghost use Rattle.nfs_spec.specs.Model.SetAttr.{SetAttrStep};
ghost use Rattle.nfs_spec.specs.Model.Sound.{IsMadeBy, Sound, SoundTime};
ghost use Rattle.nfs_spec.specs.Model.Tree.{Tree};

/// A SETATTR has one reply and one next tree.
pub fn setattr_is_determined()
    ensures { (tree next other : Tree) (ctx : Ctx) (handle : List ℕ) (wanted : NewAttributes)
        (guard : Option Moment) (outcome another : Result (Unit {0}) Status) (file_attributes tells : WeakCacheData)
        → SetAttrStep tree ctx handle wanted guard outcome file_attributes next
        → SetAttrStep tree ctx handle wanted guard another tells other
        → (outcome ≡ another) × (file_attributes ≡ tells) × (next ≡ other) }
{}

/// A SETATTR that can be spelled keeps a sound tree sound.
pub fn a_setattr_preserves_trees_sound()
    ensures { (tree next : Tree) (ctx : Ctx) (handle : List ℕ) (wanted : NewAttributes)
        (guard : Option Moment) (outcome : Result (Unit {0}) Status) (file_attributes : WeakCacheData)
        → Sound tree → SoundTime ctx.moment → NewAttributesFit wanted
        → SetAttrStep tree ctx handle wanted guard outcome file_attributes next → Sound next }
{}

/// A SETATTR makes no file with a later boot in its stamp: where none has one above a bound, none has
/// afterwards.
pub fn a_setattr_makes_no_later_stamp()
    ensures { (boot : ℕ) (tree next : Tree) (ctx : Ctx) (handle : List ℕ) (wanted : NewAttributes)
        (guard : Option Moment) (outcome : Result (Unit {0}) Status) (file_attributes : WeakCacheData)
        → IsMadeBy boot tree → SetAttrStep tree ctx handle wanted guard outcome file_attributes next
        → IsMadeBy boot next }
{}

/// Each SETATTR has a reply and a next tree, whatever the tree is.
pub fn each_setattr_has_a_step()
    ensures { (tree : Tree) (ctx : Ctx) (handle : List ℕ) (wanted : NewAttributes) (guard : Option Moment)
        → (outcome : Result (Unit {0}) Status) × (file_attributes : WeakCacheData) × (next : Tree)
        × SetAttrStep tree ctx handle wanted guard outcome file_attributes next }
{}

/// No SETATTR is answered IO, SERVERFAULT or NOTSUPP: those tell of the store and of the server, and not what
/// the procedure found.
pub fn a_setattr_tells_no_failure()
    ensures io { (tree next : Tree) (ctx : Ctx) (handle : List ℕ) (wanted : NewAttributes)
        (guard : Option Moment) (outcome : Result (Unit {0}) Status) (file_attributes : WeakCacheData)
        → SetAttrStep tree ctx handle wanted guard outcome file_attributes next → outcome ≢ Err status.Io }
    ensures server_fault { (tree next : Tree) (ctx : Ctx) (handle : List ℕ) (wanted : NewAttributes)
        (guard : Option Moment) (outcome : Result (Unit {0}) Status) (file_attributes : WeakCacheData)
        → SetAttrStep tree ctx handle wanted guard outcome file_attributes next → outcome ≢ Err status.ServerFault }
    ensures unsupported { (tree next : Tree) (ctx : Ctx) (handle : List ℕ) (wanted : NewAttributes)
        (guard : Option Moment) (outcome : Result (Unit {0}) Status) (file_attributes : WeakCacheData)
        → SetAttrStep tree ctx handle wanted guard outcome file_attributes next → outcome ≢ Err status.NotSupp }
{}
