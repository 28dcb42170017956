// What the definitions of runs mean, as clauses of functions that do nothing.
ghost use Rattle.std.specs.Prelude.{◌≡◌, ◌≤◌, ◌++◌, ℕ, List, None, Some, IsSome, false};
ghost use Rattle.px_core.specs.Plan.{Site};
ghost use Rattle.px_event.specs.declared.entry.Entry.{Entry};
ghost use Rattle.px_sem.specs.Log.{Log, IsLegal, accepted, events_of};
ghost use Rattle.px_sem.specs.Run.{IsLeast, is_quiet_after, run, settling_count, step_limit};
ghost use Rattle.px_sem.specs.World.{World};

/// The count of a world that settles is the least number of micro steps after which it is quiet, and is within the
/// limit. A world without one is quiet after no number of micro steps within the limit.
pub fn settling()
    ensures least { (plan : List Site) (world : World) (count : ℕ)
        → settling_count plan world ≡ Some count → IsLeast (is_quiet_after plan world) step_limit count }
    ensures none { (plan : List Site) (world : World) → settling_count plan world ≡ None
        → (k : ℕ) → k ≤ step_limit → is_quiet_after plan world k ≡ false }
{}

/// A legal log has a run, over its history and the accepted entries; so it has a text.
pub fn logs()
    ensures { (plan : List Site) (history : List Entry) (limit : ℕ) (log : Log)
        → IsLegal plan history limit log → IsSome (run plan (events_of (history ++ accepted log))) }
{}
