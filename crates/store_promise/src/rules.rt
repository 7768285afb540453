//! A law: the rules say just what steps events may make.
ghost use Rattle.std.specs.Prelude.{ℕ, ◌↔◌, Option, Some};
ghost use Rattle.store_promise.specs.declared.events.Event.{Event};
ghost use Rattle.store_promise.specs.declared.events.Step.{Step};
ghost use Rattle.store_promise.specs.Progress.{Progress};
ghost use Rattle.store_promise.specs.Rules.{RunStep, WorkerStep};
ghost use Rattle.store_promise.specs.Schedule.{IsStepOf, IsStepOfWork, Setting, RunState};

/// The rules of a worker's own steps are just what it may do, and those of a run just what its events may make.
pub fn the_rules_are_the_steps()
    ensures worker { (o : Setting) (run_state : RunState) (worker : ℕ) (so_far : Progress) (made : Step)
        → WorkerStep o run_state worker so_far made ↔ IsStepOfWork o run_state worker so_far (Some made) }
    ensures run { (o : Setting) (run_state : RunState) (now : Event) (made : Option Step)
        → RunStep o run_state now made ↔ IsStepOf o run_state now made }
{}
