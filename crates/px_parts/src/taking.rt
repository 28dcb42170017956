// The taking of an event.
ghost use Rattle.std.specs.Prelude.{◌≡◌, OnOk, OnErr};
ghost use Rattle.px_sem.specs.Events.{take};
ghost use Rattle.px_parts.specs.Parts.{AreStanding, AreOfOnePlan, AreSame, plan_in, world_in};
ghost use Rattle.px_parts.specs.Seen.{AreSeenAsBefore};

use crate::parts::Parts;
use px_event::Event;
use px_value::NoMemory;
use std::alloc::Global;

impl Parts {
    /// Takes an event, by the table of events of the semantics. The moves stay, and so do a mark and what was
    /// last seen.
    ///
    /// `NoMemory` leaves the world as it was where no mark stands. Behind a mark go back to it.
    pub fn take(&mut self, alloc: Global, event: &Event) -> Result<(), NoMemory>
        requires { AreStanding self.old }
        ensures world { OnOk result (world_in self.new ≡ take (plan_in self.old) (world_in self.old) event.now) }
        ensures stand { OnOk result (AreStanding self.new) }
        ensures one_plan { AreOfOnePlan self.old self.new }
        ensures seen { AreSeenAsBefore self.old self.new }
        ensures moves { self.new.moves.items ≡ self.old.moves.items }
    {
        self.actions
            .take(alloc, &self.flat, &mut self.cells, event)?;
        self.reports.take(alloc, event)
    }
}
