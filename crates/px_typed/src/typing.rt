// Variables keep their cells, and what they hold its type, as clauses of functions that do nothing. Different nodes of a fit plan have different
// paths, by px_core's law on paths.
ghost use Rattle.std.specs.Prelude.{List};
ghost use Rattle.std.specs.List.{All};
ghost use Rattle.std.specs.Option.{ForSome};
ghost use Rattle.px_core.specs.Fit.{AreDistinct};
ghost use Rattle.px_core.specs.Plan.{Site};
ghost use Rattle.px_event.specs.declared.event.Event.{Event};
ghost use Rattle.px_sem.specs.Events.{take};
ghost use Rattle.px_sem.specs.Run.{run};
ghost use Rattle.px_sem.specs.Step.{micro};
ghost use Rattle.px_sem.specs.World.{World};
ghost use Rattle.px_typed.specs.Typing.{InitialsSuit, IsTyped};

/// A micro step keeps the number of cells, and the types of cells and of kept values, from every world in which all are so.
pub fn steps()
    ensures { (plan : List Site) (world : World) → AreDistinct plan → All InitialsSuit plan → IsTyped plan world
        → IsTyped plan (micro plan world) }
{}

/// So does an event.
pub fn events()
    ensures { (plan : List Site) (world : World) (event : Event) → IsTyped plan world
        → IsTyped plan (take plan world event) }
{}

/// In the world that a run leads to all are so.
pub fn runs()
    ensures { (plan : List Site) (history : List Event) → AreDistinct plan → All InitialsSuit plan
        → ForSome (run plan history) (IsTyped plan) }
{}
