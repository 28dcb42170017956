// The stepper itself: the parts of a world, and all nodes as candidates of each micro step.
ghost use Rattle.std.specs.Prelude.{◌≡◌, ◌≢◌, length, IfOk};
ghost use Rattle.std.specs.List.{range_with_len};
ghost use Rattle.px_parts.specs.Marks.{AreMarked, AreUnmarked, marked_world};
ghost use Rattle.px_parts.specs.Parts.{AreStanding, plan_in, world_in};
ghost use Rattle.px_naive.specs.declared.begun.Begun.TheVariants.{Event as BegunEvent};
ghost use Rattle.px_naive.specs.Begun.{begun_in};

use crate::begun::Begun;
use px_core::Plan;
use px_event::Event;
use px_micro::micro;
use px_parts::Parts;
use px_sem::{Move, Standing, Stepper};
use px_value::{Name, NoMemory, NodeState, Path};
use std::alloc::Global;

/// A plan and its world. Each micro step looks at all nodes.
#[derive(Drop)]
pub struct Naive {
    parts: Parts,
    /// The numbers of all nodes.
    nodes: Vec<u32>,
    begun: Begun,
    ghost stand: { AreStanding parts },
    ghost all: { nodes.items ≡ range_with_len 0 (length (plan_in parts)) },
    ghost marked: { begun ≡ BegunEvent → AreMarked parts },
    ghost unmarked: { begun ≢ BegunEvent → AreUnmarked parts },
}

// The numbers from 0 to before this one.
fn numbers(alloc: Global, count: u32) -> Result<Vec<u32>, NoMemory>
    ensures { IfOk result (λ numbers. numbers.items ≡ range_with_len 0 count) }
{
    let mut numbers = Vec::with_capacity(alloc, count as usize)?;
    for number in 0..count {
        numbers.push(number)?;
    }
    Ok(numbers)
}

impl Stepper for Naive {
    ghost state = { λ s. record {
      nodes = plan_in s.parts;
      world = world_in s.parts;
      pending = begun_in s.begun (marked_world s.parts);
    } };

    ghost last_moves = { λ s. s.parts.moves.items };

    fn fresh(alloc: Global, plan: &Plan) -> Result<Self, NoMemory> {
        let parts = Parts::fresh(alloc, plan)?;
        let nodes = numbers(alloc, parts.flat.nodes())?;
        Ok(Naive {
            parts,
            nodes,
            begun: Begun::Start,
        })
    }

    fn rewind(&mut self) {
        self.parts.rewind();
        self.begun = Begun::Start;
    }

    fn begin(&mut self, alloc: Global, event: &Event) -> Result<(), NoMemory> {
        self.parts.mark();
        if let Err(fault) = self.parts.take(alloc, event) {
            self.parts.rollback();
            return Err(fault);
        }
        self.begun = Begun::Event;
        Ok(())
    }

    fn step(&mut self, alloc: Global) -> Result<bool, NoMemory> {
        micro(alloc, &mut self.parts, &self.nodes)
    }

    fn moves(&self) -> &[Move] {
        &self.parts.moves
    }

    fn settle(&mut self) {
        if let Begun::Event = self.begun {
            self.parts.commit();
        }
        self.begun = Begun::Nothing;
    }

    fn give_up(&mut self) {
        self.parts.rollback();
        self.begun = Begun::Nothing;
    }

    fn standing(&self) -> Standing {
        self.parts.standing()
    }

    fn state_of(&self, node: &Path) -> Option<NodeState> {
        self.parts.known_state(node)
    }

    fn integer(&self, owner: &Path, name: &Name) -> Option<i32> {
        self.parts.integer(owner, name)
    }
}
