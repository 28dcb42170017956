// The stepper: the parts of a world, and what is kept of them.
ghost use Rattle.std.proofs.Props.{props};
ghost use Rattle.std.specs.Coded.{codes};
ghost use Rattle.px_machine.specs.Begun.{IsMarkedFor};
ghost use Rattle.px_machine.specs.Stepping.{IsReady};
ghost use Rattle.px_machine.specs.TermCodes.{term_code};

use crate::begun::Begun;
use crate::kept::Kept;
use crate::noticing::{hear, heard_by};
use crate::queue::{have_gone, rest};
use crate::stepping::goers;
use px_core::Plan;
use px_event::Event;
use px_micro::{Going, Turns, act};
use px_parts::Parts;
use px_sem::{Move, STEP_LIMIT, Standing, StepFault, Stepper};
use px_value::{Name, NoMemory, NodeState, Path};
use std::alloc::Global;

/// A plan and its world, with what is kept of it. A step looks at the nodes for which something has changed.
#[derive(Drop)]
pub struct Machine {
    parts: Parts,
    kept: Kept,
    begun: Begun,
    // What a step fills: who goes, and what they do. Between steps it means nothing, and is kept for its room.
    going: Vec<Going>,
    turns: Turns,
    ghost ready: { IsReady parts kept } by { Prim.hlevel (term_code, codes) },
    ghost marked: { IsMarkedFor begun parts } by { Prim.hlevel (props, codes) },
}

impl Machine {
    ghost use Rattle.std.specs.Prelude.{◌≡◌, IfOk, IsTrue, OnErr};
    ghost use Rattle.px_sem.specs.Stepper.{is_pending};
    ghost use Rattle.px_machine.specs.Machine.{StepsOn, state_in};

    // Takes one micro step, or none where the world is quiet. Where nobody reads the moves, they stay those of before until
    // it is.
    fn take_step(&mut self, alloc: Global, tells: bool) -> Result<bool, NoMemory>
        requires pending { IsTrue (is_pending (state_in self.old).pending) }
        ensures ok { IfOk result (StepsOn tells (state_in self.old) (state_in self.new)
            self.old.parts.moves.items self.new.parts.moves.items) }
        ensures err { OnErr result (state_in self.new ≡ state_in self.old) }
        ensures kept { OnErr result (self.new.parts.moves.items ≡ self.old.parts.moves.items) }
    {
        goers(alloc, &mut self.parts, &mut self.kept, &mut self.going)?;
        if self.going.is_empty() {
            self.parts.moves.clear();
            rest(&mut self.kept.queue);
            return Ok(false);
        }
        act(alloc, &mut self.parts, &self.going, tells, &mut self.turns)?;
        have_gone(&mut self.kept.queue, &self.going);
        Ok(true)
    }
}

impl Stepper for Machine {
    ghost use Rattle.px_machine.specs.Machine.{state_in};

    ghost state = { state_in };

    ghost last_moves = { λ machine. machine.parts.moves.items };

    fn fresh(alloc: Global, plan: &Plan) -> Result<Self, NoMemory> {
        let parts = Parts::fresh(alloc, plan)?;
        let kept = Kept::of(alloc, &parts)?;
        Ok(Machine {
            parts,
            kept,
            begun: Begun::Start,
            going: Vec::new(alloc),
            turns: Turns::none(alloc),
        })
    }

    fn rewind(&mut self) {
        self.parts.rewind();
        self.kept.conditions.touch_reports(&self.parts.flat);
        self.begun = Begun::Start;
    }

    fn begin(&mut self, alloc: Global, event: &Event) -> Result<(), NoMemory> {
        self.parts.mark();
        if let Err(fault) = self.parts.take(alloc, event) {
            self.parts.rollback();
            return Err(fault);
        }
        let heard = heard_by(&self.parts.flat, event);
        hear(&self.parts, &mut self.kept.conditions, heard);
        self.begun = Begun::Event { heard };
        Ok(())
    }

    fn step(&mut self, alloc: Global) -> Result<bool, NoMemory> {
        self.take_step(alloc, true)
    }

    fn moves(&self) -> &[Move] {
        &self.parts.moves
    }

    fn advance(&mut self, alloc: Global, event: &Event) -> Result<u32, StepFault> {
        self.begin(alloc, event)?;
        for taken in 0..STEP_LIMIT + 1 {
            match self.take_step(alloc, false) {
                Ok(true) => {}
                Ok(false) => return Ok(taken),
                Err(fault) => {
                    self.give_up();
                    return Err(fault.into());
                }
            }
        }
        self.give_up();
        Err(StepFault::Runaway)
    }

    fn settle(&mut self) {
        if let Begun::Event { .. } = self.begun {
            self.parts.commit();
        }
        self.begun = Begun::Nothing;
    }

    fn give_up(&mut self) {
        // What was reported goes back, so it is news once more.
        hear(&self.parts, &mut self.kept.conditions, self.begun.heard());
        self.parts.rollback();
        self.begun = Begun::Nothing;
    }

    fn standing(&self) -> Standing {
        self.parts.standing()
    }

    fn state_of(&self, node: &Path) -> Option<NodeState> {
        self.parts.known_state(node)
    }

    fn integer(&self, owner: &Path, name: &Name) -> Option<i32> {
        self.parts.integer(owner, name)
    }
}
