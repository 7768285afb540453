//! Laws on what transactions have taken: it rises along a run, and those who wait make no ring.
ghost use Rattle.std.specs.Prelude.{◌≡◌, ◌⊎◌, ℕ, false, List, ◌∷◌, ◌++◌, Option, Contains};
ghost use Rattle.store_promise.specs.declared.events.Step.{Step};
ghost use Rattle.store_promise.specs.declared.lock_requests.LockRequest.{LockRequest};
ghost use Rattle.store_promise.specs.LockRequests.{AreOfOne, IsCovered, Rises, inserted, is_barred, upgraded_by, rank_of};
ghost use Rattle.store_promise.specs.Schedule.{Schedule, Setting, progress_before, state_before};
ghost use Rattle.store_promise.specs.EventSteps.{AreTaken};
ghost use Rattle.store_promise.specs.Waiting.{AllWait, HasTakenWell, Waiter};

/// Lock requests that rise do so with one more. Then each of them is there in its mode or in a higher one, and so is it; and
/// nothing else is but one that it raised. No two objects have one rank, and an object has one in both modes.
pub fn lock_requests_rise_with_one_more()
    ensures rise { (one : LockRequest) (lock_requests : List LockRequest) → Rises lock_requests → Rises (inserted one lock_requests) }
    ensures there { (one : LockRequest) (lock_requests : List LockRequest) → IsCovered (inserted one lock_requests) one }
    ensures is_preserved { (one other : LockRequest) (lock_requests : List LockRequest) → IsCovered lock_requests other
        → IsCovered (inserted one lock_requests) other }
    ensures no_more { (one other : LockRequest) (lock_requests : List LockRequest) → Contains (inserted one lock_requests) other
        → (one ≡ other) ⊎ Contains lock_requests other
        ⊎ ((had : LockRequest) × Contains lock_requests had × AreOfOne had one × (other ≡ upgraded_by one had)) }
    ensures ranks { (one other : LockRequest) → rank_of one ≡ rank_of other → AreOfOne one other }
{}

/// What is taken again bars no wait for the next of what is left: no object is raised while it is taken again, so that
/// two which were kept off as they raised one object don't keep each other off so again.
pub fn what_is_taken_again_is_not_upgraded()
    ensures { (next : LockRequest) (taken later : List LockRequest) → Rises (taken ++ next ∷ later) → is_barred next taken ≡ false }
{}

/// Along a run what a transaction has taken, and behind it what is left of what its call knew, are lock requests of the
/// image that rise: so it is taken again from the lowest on.
pub fn what_is_taken_rises()
    ensures { (o : Setting) (workers index worker : ℕ) (events : Schedule) (steps : List (Option Step))
        → AreTaken o workers events steps
        → HasTakenWell o.geometry (progress_before events steps worker index) }
{}

/// No worker of a run waits for one that waits for it, nor do more of them in a ring.
pub fn waits_make_no_ring()
    ensures { (o : Setting) (workers index : ℕ) (events : Schedule) (steps : List (Option Step))
        (one : Waiter) (later : List Waiter) → AreTaken o workers events steps
        → AllWait o.geometry (state_before events steps index) one later one → ⊥ }
{}
