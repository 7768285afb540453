//! Laws on what plans ask for.
ghost use Rattle.std.specs.Prelude.{◌≡◌, ℕ, ◌*◌, ◌<◌, ◌≤◌, ◌++◌, ◌∷◌, [], List, length, false};
ghost use Rattle.disk.specs.declared.block.BlockNo.{BlockNo};
ghost use Rattle.layout.specs.declared.geometry.Geometry.{Geometry};
ghost use Rattle.objects.specs.declared.addr.Addr.{Addr};
ghost use Rattle.objects.specs.declared.mode.Mode.{Mode};
ghost use Rattle.txn.specs.Object.{ObjectBytes};
ghost use Rattle.txn.specs.LockAnswers.{IsWhole};
ghost use Rattle.inode.specs.Snap.{is_claimed, is_had, with_mode, with_read};
ghost use Rattle.procs.specs.Asks.{Asks, Claims, WereAskedOnce, WereClaimedOnce};
ghost use Rattle.procs.specs.MostAsked.{most_asked, most_claimed, times_asked};

/// Objects stay asked for, each address once, when one more is read that may be asked for.
pub fn what_is_read_was_asked_for()
    ensures none { (g : Geometry) → WereAskedOnce g [] }
    ensures once { (g : Geometry) (objects : List ObjectBytes) (addr : Addr) (bytes : List ℕ)
        → WereAskedOnce g objects → Asks g addr → WereAskedOnce g (with_read addr bytes objects) }
{}

/// A plan asks for no more objects than an image has pieces of 128 bytes, if for each address once, and no more than
/// twice for each: beside others, and then alone.
pub fn a_plan_asks_for_few()
    ensures objects { (g : Geometry) (objects : List ObjectBytes) → WereAskedOnce g objects
        → length objects ≤ most_asked g.blocks }
    ensures times { (g : Geometry) (objects : List ObjectBytes) (exclusives : List Addr) → WereAskedOnce g objects
        → times_asked objects exclusives ≤ 2 * most_asked g.blocks }
{}

/// Each time that a plan asks for what isn't had in a mode yet, and is told it, it has asked more often.
pub fn what_is_asked_for_counts()
    ensures { (addr : Addr) (mode : Mode) (bytes : List ℕ) (objects : List ObjectBytes) (exclusives : List Addr)
        → is_had addr mode objects exclusives ≡ false
        → times_asked objects exclusives < times_asked (with_read addr bytes objects) (with_mode addr mode exclusives) }
{}

/// Blocks stay claimed, each once, when one more is claimed that may be claimed and that is new. Such a block is
/// an object of the image as a whole.
pub fn what_is_claimed_was_asked_for()
    ensures none { (g : Geometry) → WereClaimedOnce g [] }
    ensures once { (g : Geometry) (claims : List BlockNo) (block : BlockNo) → WereClaimedOnce g claims
        → Claims g block → is_claimed block claims ≡ false → WereClaimedOnce g (claims ++ block ∷ []) }
    ensures object { (g : Geometry) (block : BlockNo) (addr : Addr) → Claims g block → IsWhole block addr
        → Asks g addr }
{}

/// A plan claims no more blocks than an image has, if each of them once.
pub fn a_plan_claims_few()
    ensures { (g : Geometry) (claims : List BlockNo) → WereClaimedOnce g claims
        → length claims ≤ most_claimed g.blocks }
{}
