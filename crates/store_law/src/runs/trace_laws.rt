//! Laws on what a run tells: an event adds to it, and it stays true.
ghost use Rattle.store_promise.specs.declared.events.Event.{Event};
ghost use Rattle.store_promise.specs.declared.events.Event.TheVariants as event;
ghost use Rattle.store_promise.specs.declared.events.Step.{Step};
ghost use Rattle.store_promise.specs.Schedule.{Schedule, Setting, state_after};
ghost use Rattle.store_promise.specs.EventSteps.{IsTaken};
ghost use Rattle.store_law.specs.Runs.Tracing.{Traced, TellsOfEvent, state_now, with_traced};
ghost use Rattle.store_law.specs.Runs.Run.{Beginning, IsRunWell};
ghost use Rattle.std.specs.Prelude.{◌≡◌, ◌≢◌, ◌≤◌, ◌+◌, ℕ, length, slice_get, Option, Some, None};
ghost use Rattle.store_promise.specs.Transcript.{Transcript};

/// What is told well stays so with the next event, where its step is one that may be made, and what is added
/// tells of it; also in a setting that has other blocks for later procedures.
pub fn what_is_traced_grows()
    ensures well { (b : Beginning) (o later : Setting) (t : Transcript) (event : Event) (traced : Traced)
        → slice_get b.events (length t.steps) ≡ Some event → IsRunWell b o t
        → later ≡ record o { blocks = later.blocks }
        → ((place : ℕ) → place ≤ length t.history → later.blocks place ≡ o.blocks place)
        → IsTaken o b.workers (state_now b.events t) event traced.made
        → TellsOfEvent b.events t event traced
        → IsRunWell b later (with_traced t traced) }
    ensures state_follows { (b : Beginning) (t : Transcript) (event : Event) (traced : Traced)
        → slice_get b.events (length t.steps) ≡ Some event
        → state_now b.events (with_traced t traced) ≡ state_after (state_now b.events t) event traced.made }
{
    store_promise::what_was_made_stays();
}

/// An event that isn't a worker's own step commits no procedure and ends no call: with it nothing is told but
/// its step.
pub fn only_work_tells()
    ensures { (o : Setting) (workers : ℕ) (events : Schedule) (t : Transcript) (now : Event)
        (made : Option Step)
        → ((worker : ℕ) → now ≢ event.Work worker) → IsTaken o workers (state_now events t) now made
        → TellsOfEvent events t now (record { entry = None; answer = None; made = made }) }
{}
