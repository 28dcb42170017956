// What is new of the world since it was last seen.
ghost use Rattle.std.specs.Prelude.{◌≡◌};
ghost use Rattle.px_parts.specs.Parts.{AreSame};
ghost use Rattle.px_parts.specs.Seen.{AreAllSeen};

use crate::parts::Parts;

impl Parts {
    /// Takes the news of the cells and of what is under way: both are seen as they are. The moves stay.
    pub fn see(&mut self)
        ensures same { AreSame self.old self.new }
        ensures seen { AreAllSeen self.new }
        ensures moves { self.new.moves.items ≡ self.old.moves.items }
    {
        self.cells.see();
        self.actions.see();
    }
}
