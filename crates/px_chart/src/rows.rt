// The rows of a picture: nodes with what they did.
use crate::labels::push_effect;
use px_pen::Pen;
use px_sem::{Effect, Move};
use px_value::{Failure, NoMemory, NodeState, Outcome};
use std::alloc::Global;

/// A state that a node comes to, and how it stands then.
#[derive(Clone, Copy)]
pub struct Change {
    /// The slot at which it comes to the state.
    pub slot: u32,
    pub state: NodeState,
    pub outcome: Option<Outcome>,
    pub failure: Option<Failure>,
}

/// What a node does besides, as a picture marks it.
pub struct Deed {
    /// In the legend.
    pub word: &'static str,
    /// The outline of its mark, from the middle of the mark's left edge.
    pub form: &'static str,
}

/// A command is sent.
pub const COMMAND: &Deed = &Deed {
    word: "command",
    form: "M0 -5 L9 0 L0 5 Z",
};

/// A command is asked to abort.
pub const ABORT: &Deed = &Deed {
    word: "abort",
    form: "M0 -4 H8 V4 H0 Z",
};

/// An update is sent.
pub const UPDATE: &Deed = &Deed {
    word: "update",
    form: "M4 -5 L9 0 L4 5 L-1 0 Z",
};

/// A variable is written.
pub const WRITE: &Deed = &Deed {
    word: "write",
    form: "M4 -3 A3 3 0 1 1 3.9 -3 Z",
};

/// A thing that a node does in one slot.
#[derive(Drop)]
pub struct Mark {
    pub slot: u32,
    pub deed: &'static Deed,
    /// In words.
    pub says: String,
}

/// What a node did.
#[derive(Drop)]
pub struct Row {
    /// How many nodes are round it.
    pub depth: usize,
    pub changes: Vec<Change>,
    pub marks: Vec<Mark>,
}

impl Change {
    fn of(slot: u32, moved: &Move) -> Change {
        Change {
            slot,
            state: moved.to,
            outcome: moved.outcome,
            failure: moved.failure,
        }
    }
}

impl Row {
    /// A row of a node that did nothing yet.
    pub fn of(alloc: Global, depth: usize) -> Row {
        Row {
            depth,
            changes: Vec::new(alloc),
            marks: Vec::new(alloc),
        }
    }

    /// Keeps what the node does in a slot.
    pub fn keep(&mut self, alloc: Global, slot: u32, moved: &Move) -> Result<(), NoMemory> {
        self.changes.push(Change::of(slot, moved))?;
        match &moved.effect {
            Some(effect) => self.keep_effect(alloc, slot, effect),
            None => Ok(()),
        }
    }

    fn keep_effect(&mut self, alloc: Global, slot: u32, effect: &Effect) -> Result<(), NoMemory> {
        let mut says = Pen::new(alloc);
        match push_effect(effect, &mut says) {
            Some(deed) => self.mark(slot, deed, says),
            None => Ok(()),
        }
    }

    fn mark(&mut self, slot: u32, deed: &'static Deed, says: Pen) -> Result<(), NoMemory> {
        let says = says.written()?;
        self.marks.push(Mark { slot, deed, says })?;
        Ok(())
    }
}
