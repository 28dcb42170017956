// Which cells the variables of a plan that bytes spell have, and what they hold, as clauses of functions that do nothing.
ghost use Rattle.std.specs.Prelude.{ℕ, List, [], ◌++◌};
ghost use Rattle.std.specs.List.{All};
ghost use Rattle.std.specs.Option.{ForSome, IsSomeAnd};
ghost use Rattle.px_core.specs.Fit.{AreDistinct};
ghost use Rattle.px_core.specs.Plan.{Tree, sites};
ghost use Rattle.px_event.specs.declared.event.Event.{Event};
ghost use Rattle.px_sem.specs.Log.{Log, IsLegal, accepted, events_of};
ghost use Rattle.px_sem.specs.Run.{run};
ghost use Rattle.px_typed.specs.Typing.{InitialsSuit, IsTyped};
ghost use Rattle.px_compile.specs.Compiled.{IsCompiled};

/// Different nodes of a plan that bytes spell have different paths, a variable has at most as many initial values as cells,
/// and each is of its type or UNKNOWN. So the laws of `typing` hold of it: a micro step and an event keep the cells and
/// their types too.
pub fn plans(bytes: &[u8])
    ensures distinct { (tree : Tree) → IsCompiled bytes.now tree → AreDistinct (sites tree) }
    ensures initials { (tree : Tree) → IsCompiled bytes.now tree → All InitialsSuit (sites tree) }
{}

/// Cells of a plan that bytes spell keep their number and their types: in each world that a run of it leads to, a declared
/// variable has one cell, or those of its array, every cell holds a value of the variable's type or UNKNOWN, and so is each
/// old value that an assignment keeps. The history is any one, so this covers each world that a command leaves: after the start, and after each accepted event.
pub fn runs(bytes: &[u8])
    ensures { (tree : Tree) (history : List Event) → IsCompiled bytes.now tree
        → ForSome (run (sites tree) history) (IsTyped (sites tree)) }
{}

/// Each front of a legal log of such a plan, as a dry run has one, leads to a world, and there too variables have their
/// cells, and each cell and each kept value is of its type or UNKNOWN.
pub fn logs(bytes: &[u8])
    ensures { (tree : Tree) (limit : ℕ) (front rest : Log) → IsCompiled bytes.now tree
        → IsLegal (sites tree) [] limit (front ++ rest)
        → IsSomeAnd (run (sites tree) (events_of (accepted front))) (IsTyped (sites tree)) }
{}
