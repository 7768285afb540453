//! What follows from the answers of several calls.
ghost use Rattle.std.specs.Prelude.{◌≡◌, ◌⊎◌, ◌∷◌, [], ℕ, Some, true, false, All, Contains};
ghost use Rattle.disk.specs.declared.block.BlockNo.{BlockNo};
ghost use Rattle.disk.specs.Device.{Content};
ghost use Rattle.objects.specs.Addr.{Overlap};
ghost use Rattle.objects.specs.Mode.{upgraded};
ghost use Rattle.objects.specs.declared.addr.Addr.{Addr};
ghost use Rattle.objects.specs.declared.mode.Mode.{Mode};
ghost use Rattle.objects.specs.declared.mode.Mode.TheVariants as modes;
ghost use Rattle.txn_law.specs.Commit.{IsOwn, IsReadBy, Planned};
ghost use Rattle.txn_law.specs.Core.{CoreState, IsOut, with_begun, with_refused, without};
ghost use Rattle.txn_law.specs.CoreWindow.{PreservesReads};
ghost use Rattle.txn_law.specs.Leaves.{HasFetched, Leaves, but_by, in_memory, taken_by, is_fetching};
ghost use Rattle.txn_law.specs.Leaves.{without_fetch};
ghost use Rattle.txn_law.specs.Others.{PreservesTaken};
ghost use Rattle.objects.specs.Object.{ObjectBytes};
ghost use Rattle.txn_law.specs.WellFormed.{IsWellFormed};
ghost use Rattle.txn_law.specs.LockAnswers.{IsBusy, IsLoading, IsWhole};
ghost use Rattle.txn_law.specs.declared.hold.Hold.{Hold};
ghost use Rattle.txn.specs.Claimed.{IsClaimedBy, IsOwnObject};
ghost use Rattle.txn.specs.Outcomes.{IsClaimed, IsMet, IsWanted, TakesPlace};
ghost use Rattle.txn.specs.declared.outcomes.Claim.{Claim};
ghost use Rattle.txn.specs.declared.outcomes.Want.{Want};

/// A transaction has taken an address of a block that is being fetched. Once that fetch is given back, a
/// request for the address in a mode that adds nothing to the one that it has is told Held, or NoMemory.
pub fn a_request_is_granted_after_its_fetch()
    ensures { (old core new : CoreState) (tx : ℕ) (addr : Addr) (hold : Hold) (mode : Mode) (content : Content)
        (answer : Want) → taken_by old tx addr ≡ Some hold → upgraded hold.mode mode ≡ hold.mode
        → is_fetching old addr.block ≡ true → HasFetched old addr.block content core → IsWellFormed core
        → IsWanted core tx addr mode answer new → IsMet answer }
{}

/// A transaction that is out alone is told neither Busy nor Loading, where it asks for no byte of what it
/// has taken by another address and no fetch of the block is pending; so it may claim again a block that it
/// has claimed.
pub fn a_lone_transaction_is_not_deferred()
    ensures busy { (core : CoreState) (tx : ℕ) (addr : Addr) (mode : Mode) → IsWellFormed core → core.out ≡ tx ∷ []
        → ((other : Addr) (hold : Hold) → taken_by core tx other ≡ Some hold → Overlap other addr
        → other ≡ addr)
        → IsBusy core tx addr mode → ⊥ }
    ensures loading { (core : CoreState) (tx : ℕ) (addr : Addr) (mode : Mode)
        → is_fetching core addr.block ≡ false → IsLoading core tx addr mode → ⊥ }
    ensures claimed { (core : CoreState) (tx : ℕ) (block : BlockNo) (addr : Addr) → IsWellFormed core
        → core.out ≡ tx ∷ [] → IsClaimedBy core tx block → IsWhole block addr
        → IsBusy core tx addr modes.Exclusive → ⊥ }
{}

/// Each step of the core keeps what those transactions have that it isn't of: they stay out, what they have
/// taken stays theirs, what they read stays as they read it, and its blocks stay in memory.
pub fn others_keep_what_they_have()
    ensures begun { (old new : CoreState) (other : ℕ) → PreservesReads old new other → new ≡ with_begun old
        → PreservesTaken old new other }
    ensures refused { (old new : CoreState) (other : ℕ) → new ≡ with_refused old → PreservesTaken old new other }
    ensures wanted { (old new : CoreState) (tx other : ℕ) → (other ≡ tx → ⊥) → PreservesReads old new other
        → (addr : Addr) (mode : Mode) (answer : Want) → IsWanted old tx addr mode answer new
        → PreservesTaken old new other }
    ensures claimed { (old new : CoreState) (tx other : ℕ) → (other ≡ tx → ⊥) → PreservesReads old new other
        → (addr : Addr) (answer : Claim) → IsClaimed old tx addr answer new → PreservesTaken old new other }
    ensures placed { (old new : CoreState) (tx other : ℕ) → (other ≡ tx → ⊥) → PreservesReads old new other
        → (plan : Planned) (place : ℕ) → TakesPlace old tx plan place new → PreservesTaken old new other }
    ensures ended { (old new : CoreState) (tx other : ℕ) → (other ≡ tx → ⊥) → PreservesReads old new other
        → new.out ≡ without tx old.out
        → Leaves new (but_by tx (taken_by old)) (is_fetching old) (in_memory old)
        → PreservesTaken old new other }
    ensures fetched { (old new : CoreState) (other : ℕ) → PreservesReads old new other
        → (block : BlockNo) (content : Content) → new.out ≡ old.out → HasFetched old block content new
        → PreservesTaken old new other }
    ensures failed { (old new : CoreState) (other : ℕ) → PreservesReads old new other
        → (block : BlockNo) → new.out ≡ old.out
        → Leaves new (taken_by old) (without_fetch block (is_fetching old)) (in_memory old)
        → PreservesTaken old new other }
{}

/// The change of a transaction that is out is its own, so not Foreign, where it was planned for this core, read
/// what the transaction holds, and writes only what it read and has taken alone and whole blocks that it has
/// claimed, while no fetch of a block that it writes is pending.
pub fn a_planned_change_is_its_own()
    ensures { (core : CoreState) (tx : ℕ) (plan : Planned) → IsWellFormed core → IsOut core tx
        → plan.blocks ≡ core.log.blocks → plan.inodes ≡ core.inodes → All (IsReadBy core tx) plan.read
        → ((object : ObjectBytes) → Contains plan.written object → IsOwnObject core tx plan.read object)
        → ((object : ObjectBytes) → Contains plan.written object → is_fetching core object.addr.block ≡ false)
        → IsOwn core tx plan }
{}
