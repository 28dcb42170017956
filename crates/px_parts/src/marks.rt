// A mark in the world, to which an event that is refused goes back.
ghost use Rattle.std.specs.Prelude.{◌≡◌};
ghost use Rattle.px_parts.specs.Marks.{AreMarked, AreUnmarked, marked_world};
ghost use Rattle.px_parts.specs.Parts.{AreStanding, plan_in, world_in};
ghost use Rattle.px_parts.specs.Seen.{AreSeenAsBefore};

use crate::parts::Parts;

impl Parts {
    /// Marks the world as the one to go back to. What was last seen stays.
    pub fn mark(&mut self)
        requires stand { AreStanding self.old }
        requires unmarked { AreUnmarked self.old }
        ensures plan { plan_in self.new ≡ plan_in self.old }
        ensures world { world_in self.new ≡ world_in self.old }
        ensures marked { marked_world self.new ≡ world_in self.old }
        ensures stand { AreStanding self.new }
        ensures are_marked { AreMarked self.new }
        ensures seen { AreSeenAsBefore self.old self.new }
        ensures moves { self.new.moves.items ≡ self.old.moves.items }
    {
        self.cells.mark();
        self.reports.mark();
        self.actions.mark();
    }

    /// Goes back to the world at the mark, and ends it. The moves stay, and so does what was last seen: what goes back is
    /// news.
    pub fn rollback(&mut self)
        requires { AreMarked self.old }
        ensures plan { plan_in self.new ≡ plan_in self.old }
        ensures world { world_in self.new ≡ marked_world self.old }
        ensures stand { AreStanding self.new }
        ensures unmarked { AreUnmarked self.new }
        ensures seen { AreSeenAsBefore self.old self.new }
        ensures moves { self.new.moves.items ≡ self.old.moves.items }
    {
        self.cells.rollback();
        self.reports.rollback();
        self.actions.rollback();
    }

    /// Keeps the present world, and ends the mark. The moves stay, and so does what was last seen.
    pub fn commit(&mut self)
        requires marked { AreMarked self.old }
        requires stand { AreStanding self.old }
        ensures plan { plan_in self.new ≡ plan_in self.old }
        ensures world { world_in self.new ≡ world_in self.old }
        ensures stand { AreStanding self.new }
        ensures unmarked { AreUnmarked self.new }
        ensures seen { AreSeenAsBefore self.old self.new }
        ensures moves { self.new.moves.items ≡ self.old.moves.items }
    {
        self.cells.commit();
        self.reports.commit();
        self.actions.commit();
    }
}
