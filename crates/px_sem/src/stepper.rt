// What runs a plan: one micro step after another.
ghost use Rattle.std.specs.Prelude.{◌≡◌, ℕ, List, [], Some, None, IsTrue, IfOk, OnOk, OnErr, IsErrOf};
ghost use Rattle.px_core.specs.Fit.{IsFit};
ghost use Rattle.px_core.specs.Plan.{tree_of, sites};
ghost use Rattle.px_event.specs.Fit.{is_fit_event};
ghost use Rattle.px_sem.specs.declared.moves.Move.{Move};
ghost use Rattle.px_sem.specs.Conflicts.{is_quiet};
ghost use Rattle.px_sem.specs.Run.{posted};
ghost use Rattle.px_sem.specs.Stepper.{State, Pending, is_pending, is_event, fresh, settled_state, with_event, given_up, Steps, AreOnTheWay};
ghost use Rattle.px_sem.specs.World.{standing_of, known_state, integer_at};

use crate::settling::{STEP_LIMIT, StepFault};
use crate::{Move, Standing};
use px_core::Plan;
use px_event::Event;
use px_value::{Name, NoMemory, NodeState, Path};
use std::alloc::Global;

/// A world of a plan that goes on by micro steps, and takes an event wherever it is quiet.
pub trait Stepper: Sized + Drop {
    /// The plan that it stands for, the world, and what is begun in it.
    ghost state: { Self → State };

    /// The moves of the last step.
    ghost last_moves: { Self → List Move };

    /// The world before the start; event 0, which is the start, is begun.
    fn fresh(alloc: Global, plan: &Plan) -> Result<Self, NoMemory>
        requires fit { IsFit (tree_of plan.now) }
        ensures fresh { IfOk result (λ s. state s ≡ fresh (sites (tree_of plan.now))) }
        ensures moves { IfOk result (λ s. last_moves s ≡ []) };

    /// Goes back to the world before the start; event 0, which is the start, is begun. It takes no memory.
    fn rewind(&mut self)
        requires nothing { (state self.old).pending ≡ Pending.Nothing }
        ensures fresh { state self.new ≡ fresh (state self.old).nodes }
        ensures moves { last_moves self.new ≡ [] };

    /// Takes an event, which is begun then. After `NoMemory` all is as before. The moves stay.
    fn begin(&mut self, alloc: Global, event: &Event) -> Result<(), NoMemory>
        requires nothing { (state self.old).pending ≡ Pending.Nothing }
        requires fit { IsTrue (is_fit_event event.now) }
        ensures ok { OnOk result (state self.new ≡ with_event (state self.old) event.now) }
        ensures err { OnErr result (state self.new ≡ state self.old) }
        ensures moves { last_moves self.new ≡ last_moves self.old };

    /// Takes one micro step and answers true, or answers false where the world is quiet. After `NoMemory` all is as
    /// before.
    fn step(&mut self, alloc: Global) -> Result<bool, NoMemory>
        requires pending { IsTrue (is_pending (state self.old).pending) }
        ensures ok { IfOk result (Steps (state self.old) (state self.new) (last_moves self.new)) }
        ensures err { OnErr result (state self.new ≡ state self.old) }
        ensures kept { OnErr result (last_moves self.new ≡ last_moves self.old) };

    /// The moves of the last step, in preorder.
    fn moves(&self) -> &[Move]
        ensures { result.now ≡ last_moves self.now };

    /// Takes an event and the least number of micro steps after which the world is quiet, and answers that number, which
    /// is at most `STEP_LIMIT`.
    ///
    /// `Runaway` comes exactly where there is no such number. After a fault the world and what is begun are as before, and
    /// the moves are those of before or of one of the steps that were taken.
    fn advance(&mut self, alloc: Global, event: &Event) -> Result<u32, StepFault>
        requires nothing { (state self.old).pending ≡ Pending.Nothing }
        requires fit { IsTrue (is_fit_event event.now) }
        ensures settled { IfOk result (λ k.
            posted (state self.old).nodes (state self.old).world event.now ≡ Some ((state self.new).world, k)) }
        ensures pending { OnOk result (state self.new
            ≡ record { nodes = (state self.old).nodes; world = (state self.new).world; pending = Pending.Event (state self.old).world }) }
        ensures runaway { IsErrOf result StepFault.Runaway
            → posted (state self.old).nodes (state self.old).world event.now ≡ None }
        ensures err { OnErr result (state self.new ≡ state self.old) }
        ensures none_left { OnOk result (last_moves self.new ≡ []) }
        ensures left { OnErr result
            (AreOnTheWay (with_event (state self.old) event.now) (last_moves self.old) (last_moves self.new)) }
    {
        self.begin(alloc, event)?;
        for taken in 0..STEP_LIMIT + 1 {
            match self.step(alloc) {
                Ok(true) => {}
                Ok(false) => return Ok(taken),
                Err(fault) => {
                    self.give_up();
                    return Err(fault.into());
                }
            }
        }
        self.give_up();
        Err(StepFault::Runaway)
    }

    /// Makes the world, which is quiet, the settled one, in which nothing is begun. The moves stay.
    fn settle(&mut self)
        requires pending { IsTrue (is_pending (state self.old).pending) }
        requires quiet { IsTrue (is_quiet (state self.old).nodes (state self.old).world) }
        ensures rest { state self.new ≡ settled_state (state self.old).nodes (state self.old).world }
        ensures moves { last_moves self.new ≡ last_moves self.old };

    /// Goes back to the settled world before the event that is begun. The moves stay.
    fn give_up(&mut self)
        requires event { IsTrue (is_event (state self.old).pending) }
        ensures back { state self.new ≡ given_up (state self.old) }
        ensures moves { last_moves self.new ≡ last_moves self.old };

    /// Whether the plan has finished.
    fn standing(&self) -> Standing
        ensures { result ≡ standing_of (state self.now).nodes (state self.now).world };

    /// The state of a node; None exactly where the plan has no such node.
    fn state_of(&self, node: &Path) -> Option<NodeState>
        ensures { result ≡ known_state (state self.now).world node.now };

    /// The Integer that a scalar variable holds; None exactly where no such scalar holds one.
    fn integer(&self, owner: &Path, name: &Name) -> Option<i32>
        ensures { result ≡ integer_at (state self.now).nodes (state self.now).world owner.now name.now };
}
