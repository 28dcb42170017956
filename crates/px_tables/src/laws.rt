// What the definitions of the table mean, as clauses of functions that do nothing.
ghost use Rattle.std.specs.Prelude.{◌≡◌, ◌↔◌, ℕ, false, List, Some, None};
ghost use Rattle.std.specs.List.{list_any};
ghost use Rattle.px_value.specs.declared.enums.NodeState.{NodeState};
ghost use Rattle.px_core.specs.declared.node.Kind.{Kind};
ghost use Rattle.px_core.specs.Plan.{Site};
ghost use Rattle.px_sem.specs.Conflicts.{destination};
ghost use Rattle.px_sem.specs.Guards.{guards};
ghost use Rattle.px_sem.specs.Table.{Row, first_row, dest};
ghost use Rattle.px_sem.specs.World.{World, state_at};
ghost use Rattle.px_sem.specs.declared.guards.Arrival.{Arrival};
ghost use Rattle.px_sem.specs.declared.guards.Guards.{Guards};
ghost use Rattle.px_tables.specs.Deciding.{row_at, Decides};
ghost use Rattle.px_tables.specs.Reading.{read_by};

/// A table leads where the row leads that decides, and nowhere exactly where no guard holds.
pub fn first_row()
    ensures some { (rows : List Row) (arrival : Arrival) →
        (first_row rows ≡ Some arrival) ↔ ((i : ℕ) × Decides rows i × ((row_at rows i).1 ≡ arrival)) }
    ensures none { (rows : List Row) → (first_row rows ≡ None) ↔ (list_any (λ row. row.0) rows ≡ false) }
{}

/// Where a node goes in a world is what `dest` answers of its kind and its state, with the guards that it has there.
pub fn destination()
    ensures { (plan : List Site) (world : World) (site : Site) → destination plan world site
        ≡ dest site.head.kind (state_at world site.path) (guards plan world site) }
{}

/// Where a node goes depends on no guards but those that the rows of its state read.
pub fn reading()
    ensures { (kind : Kind) (state : NodeState) (g h : Guards) → read_by state g ≡ read_by state h
        → dest kind state g ≡ dest kind state h }
{}
