// What a micro step works on.
ghost use Rattle.std.specs.Prelude.{◌≡◌};
ghost use Rattle.px_sem.specs.Tolerances.{tolerances};
ghost use Rattle.px_flat.specs.Flat.{plan_of};

use px_cells::Cells;
use px_command::Actions;
use px_flat::Flat;
use px_lookup::Reports;
use px_sem::Move;

/// A plan, the world that it runs in, and the moves of the last step.
#[derive(Drop)]
pub struct Parts {
    pub flat: Flat,
    /// The plan's variables, and of each node its state, outcome, failure, handle and acknowledgement.
    pub cells: Cells,
    pub reports: Reports,
    /// What each node has under way.
    pub actions: Actions,
    /// The moves of the last step, in preorder.
    pub moves: Vec<Move>,
    ghost latching: { reports.tolerances ≡ tolerances (plan_of flat) },
}
