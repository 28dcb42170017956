// What a machine keeps of the world as it was last seen.
ghost use Rattle.std.specs.Prelude.{◌≡◌, ◌<◌, length, IfOk};
ghost use Rattle.px_flat.specs.Flat.{plan_of};
ghost use Rattle.px_flat.specs.Row.{parent_number};
ghost use Rattle.px_cached.specs.Cached.{plan_in as plan_of_conditions};
ghost use Rattle.px_parts.specs.Parts.{AreStanding};
ghost use Rattle.px_parts.specs.Seen.{AreAllSeen};
ghost use Rattle.px_machine.specs.Kept.{IsOfPlan, parent_state, truths_of, truths_read};
ghost use Rattle.px_machine.specs.Right.{IsRight};
ghost use Rattle.px_machine.specs.Seen.{IsSeen};

use crate::queue::all_behind;
use crate::tree::{parents, places};
use px_assign::Claims;
use px_cached::Cached;
use px_core::ConditionKind;
use px_flat::Flat;
use px_links::Links;
use px_micro::Truths;
use px_parts::Parts;
use px_tally::Tally;
use px_told::Told;
use px_value::{NoMemory, NodeState};
use std::alloc::Global;

// As if all conditions were UNKNOWN.
const UNREAD: Truths = Truths {
    start: None,
    end: None,
    exit: None,
    skip: None,
    repeat: None,
    pre: None,
    post: None,
    invariant: None,
};

/// What is kept of each node. `Right` in the specs says of what it is right.
#[derive(Drop)]
pub(crate) struct Kept {
    pub(crate) conditions: Cached,
    /// The state of each node where it was last caught up.
    pub(crate) states: Vec<NodeState>,
    /// What each node asks of those below it, and is told.
    pub(crate) told: Told,
    /// By their parents, the nodes that are neither WAITING nor FINISHED.
    pub(crate) busy: Tally,
    /// The writers that would start, and those at work.
    pub(crate) claims: Claims,
    pub(crate) queue: Links,
}

impl Kept {
    /// Nothing is known, and each node is to be caught up: this is right of any world.
    pub(crate) fn of(alloc: Global, parts: &Parts) -> Result<Kept, NoMemory>
        requires stand { AreStanding parts.now }
        requires seen { AreAllSeen parts.now }
        ensures right { IfOk result (IsRight parts.now) }
        ensures seen { IfOk result (λ kept. IsSeen parts.now kept.conditions) }
    {
        let flat = &parts.flat;
        let nodes = flat.nodes();
        Ok(Kept {
            queue: all_behind(alloc, nodes)?,
            // As if all waited: nobody is busy, and nobody at work.
            states: vec![in alloc; NodeState::Waiting; nodes as usize]?,
            busy: Tally::new(alloc, nodes, parents(alloc, flat)?)?,
            told: Told::new(alloc, places(alloc, flat)?)?,
            claims: Claims::new(alloc, flat)?,
            conditions: Cached::new(alloc, flat, &parts.cells, &parts.reports)?,
        })
    }

    /// The kept state of a node's parent. The root's virtual parent is always EXECUTING.
    pub(crate) fn parent_state(&self, flat: &Flat, node: u32) -> NodeState
        requires node { node < length (plan_of flat.now) }
        requires plan { IsOfPlan (plan_of flat.now) self.now }
        ensures { result ≡ parent_state self.now (parent_number (plan_of flat.now) node) }
    {
        match flat.row(node).parent {
            Some(parent) => self.states[parent as usize],
            None => NodeState::Executing,
        }
    }

    /// The kept truths of those of a node's conditions that the rows of a state read, since the others decide nothing; those
    /// count as UNKNOWN.
    pub(crate) fn truths(&self, node: u32, state: NodeState) -> Truths
        requires { node < length (plan_of_conditions self.now.conditions) }
        ensures { result ≡ truths_read state (truths_of self.now node) }
    {
        let conditions = &self.conditions;
        match state {
            NodeState::Waiting => Truths {
                start: conditions.condition(node, ConditionKind::Start),
                exit: conditions.condition(node, ConditionKind::Exit),
                skip: conditions.condition(node, ConditionKind::Skip),
                pre: conditions.condition(node, ConditionKind::Pre),
                ..UNREAD
            },
            NodeState::Executing => Truths {
                end: conditions.condition(node, ConditionKind::End),
                exit: conditions.condition(node, ConditionKind::Exit),
                post: conditions.condition(node, ConditionKind::Post),
                invariant: conditions.condition(node, ConditionKind::Invariant),
                ..UNREAD
            },
            NodeState::Finishing => Truths {
                exit: conditions.condition(node, ConditionKind::Exit),
                post: conditions.condition(node, ConditionKind::Post),
                invariant: conditions.condition(node, ConditionKind::Invariant),
                ..UNREAD
            },
            NodeState::IterationEnded => Truths {
                repeat: conditions.condition(node, ConditionKind::Repeat),
                ..UNREAD
            },
            NodeState::Inactive | NodeState::Failing | NodeState::Finished => UNREAD,
        }
    }
}
