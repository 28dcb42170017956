// Does what was gathered. There is room for all of it, so nothing here takes memory or fails.
ghost use Rattle.std.specs.Prelude.{◌≡◌, ◌+◌, ◌*◌, ◌<◌, ◌≤◌, fold, length, map, set};
ghost use Rattle.std.specs.List.{All};
ghost use Rattle.px_sem.specs.Expressions.{failure_value, outcome_value};
ghost use Rattle.px_sem.specs.Step.{micro};
ghost use Rattle.px_flat.specs.Flat.{plan_of};
ghost use Rattle.px_flat.specs.Layout.{all_cells};
ghost use Rattle.px_flat.specs.Numbered.{held};
ghost use Rattle.px_micro.specs.Going.{AreAllGoing};
ghost use Rattle.px_micro.specs.Moving.{with_act, with_said, with_turn, with_turn_act, put_value, put_write};
ghost use Rattle.px_parts.specs.Parts.{AreStanding, AreOfOnePlan, plan_in, world_in};
ghost use Rattle.px_parts.specs.Seen.{AreSeenAsBefore};
ghost use Rattle.px_micro.specs.Turns.{AreTurns};

use crate::effects::{CellWrite, UnderWay};
use crate::turns::{CellValue, Turn, Turns};
use px_cells::Cells;
use px_command::Actions;
use px_flat::{Abort, Act, Flat};
use px_parts::Parts;
use px_value::{Failure, Outcome, Value};

fn outcome_value(outcome: Option<Outcome>) -> Value
    ensures { result ≡ outcome_value outcome }
{
    match outcome {
        Some(outcome) => Value::Outcome(outcome),
        None => Value::Unknown,
    }
}

fn failure_value(failure: Option<Failure>) -> Value
    ensures { result ≡ failure_value failure }
{
    match failure {
        Some(failure) => Value::Failure(failure),
        None => Value::Unknown,
    }
}

// Puts a value where its cell holds another one. What stays as it is costs no room in the undo log, and is no news.
fn put(cells: &mut Cells, at: u32, value: Value)
    requires within { at < length cells.old.contents.values }
    requires room { 0 < cells.old.room }
    ensures values { cells.new.contents.values ≡ set cells.old.contents.values at value }
    ensures marked { cells.new.contents.marked ≡ cells.old.contents.marked }
    ensures seen { cells.new.seen ≡ cells.old.seen }
    ensures same { held cells.old.contents.values at ≡ value → cells.new ≡ cells.old }
    ensures room { cells.old.room ≤ cells.new.room + 1 }
{
    if *cells.get(at) != value {
        cells.put(at, value);
    }
}

// What the nodes that go write.
fn write(cells: &mut Cells, writes: &mut Vec<CellWrite>)
    requires within { All (λ write. write.cell < length cells.old.contents.values) writes.old.items }
    requires room { length writes.old.items ≤ cells.old.room }
    ensures values { cells.new.contents.values ≡ fold put_write cells.old.contents.values writes.old.items }
    ensures marked { cells.new.contents.marked ≡ cells.old.contents.marked }
    ensures seen { cells.new.seen ≡ cells.old.seen }
    ensures room { cells.old.room ≤ cells.new.room + length writes.old.items }
{
    for CellWrite { cell, value, .. } in writes.drain(..) {
        put(cells, cell, value);
    }
}

// The initial values of those that begin to wait.
fn begin(cells: &mut Cells, initial: &mut Vec<CellValue>)
    requires within { All (λ given. given.cell < length cells.old.contents.values) initial.old.items }
    requires room { length initial.old.items ≤ cells.old.room }
    ensures values { cells.new.contents.values ≡ fold put_value cells.old.contents.values initial.old.items }
    ensures marked { cells.new.contents.marked ≡ cells.old.contents.marked }
    ensures seen { cells.new.seen ≡ cells.old.seen }
    ensures room { cells.old.room ≤ cells.new.room + length initial.old.items }
{
    for CellValue { cell, value } in initial.drain(..) {
        put(cells, cell, value);
    }
}

// What a node has under way, of which nothing was said where it has begun.
fn set_out(flat: &Flat, cells: &mut Cells, actions: &mut Actions, node: u32, under_way: UnderWay)
    requires node { node < length (plan_of flat.now) }
    requires all_cells { length cells.old.contents.values ≡ all_cells (plan_of flat.now) }
    requires all_acts { length actions.old.contents.values ≡ length (plan_of flat.now) }
    requires room { 2 ≤ cells.old.room }
    requires acts_room { 1 ≤ actions.old.room }
    ensures values { cells.new.contents.values ≡ with_said (plan_of flat.now) node under_way cells.old.contents.values }
    ensures marked { cells.new.contents.marked ≡ cells.old.contents.marked }
    ensures seen { cells.new.seen ≡ cells.old.seen }
    ensures room { cells.old.room ≤ cells.new.room + 2 }
    ensures acts { actions.new.contents.values ≡ with_act node under_way actions.old.contents.values }
    ensures acts_marked { actions.new.contents.marked ≡ actions.old.contents.marked }
    ensures acts_seen { actions.new.seen ≡ actions.old.seen }
    ensures acts_room { actions.old.room ≤ actions.new.room + 1 }
{
    match under_way {
        UnderWay::Kept => {}
        UnderWay::Begun(act) => {
            actions.put(node, act);
            put(cells, flat.handle_cell(node), Value::Unknown);
            put(
                cells,
                flat.acknowledgement_cell(node),
                Value::Boolean(false),
            );
        }
        UnderWay::Aborting { index } => actions.put(
            node,
            Act::Sent {
                index,
                abort: Abort::Sent,
            },
        ),
    }
}

// What is so of the node itself.
fn arrive(flat: &Flat, cells: &mut Cells, actions: &mut Actions, turn: Turn)
    requires node { turn.going.node < length (plan_of flat.now) }
    requires all_cells { length cells.old.contents.values ≡ all_cells (plan_of flat.now) }
    requires all_acts { length actions.old.contents.values ≡ length (plan_of flat.now) }
    requires room { 5 ≤ cells.old.room }
    requires acts_room { 1 ≤ actions.old.room }
    ensures values { cells.new.contents.values ≡ with_turn (plan_of flat.now) cells.old.contents.values turn }
    ensures marked { cells.new.contents.marked ≡ cells.old.contents.marked }
    ensures seen { cells.new.seen ≡ cells.old.seen }
    ensures room { cells.old.room ≤ cells.new.room + 5 }
    ensures acts { actions.new.contents.values ≡ with_turn_act actions.old.contents.values turn }
    ensures acts_marked { actions.new.contents.marked ≡ actions.old.contents.marked }
    ensures acts_seen { actions.new.seen ≡ actions.old.seen }
    ensures acts_room { actions.old.room ≤ actions.new.room + 1 }
{
    let Turn { going, under_way } = turn;
    let (node, arrival) = (going.node, going.arrival);
    put(cells, flat.state_cell(node), Value::State(arrival.to));
    put(
        cells,
        flat.outcome_cell(node),
        outcome_value(arrival.outcome),
    );
    put(
        cells,
        flat.failure_cell(node),
        failure_value(arrival.failure),
    );
    set_out(flat, cells, actions, node, under_way);
}

// All that go, one after another.
fn arrive_all(flat: &Flat, cells: &mut Cells, actions: &mut Actions, turns: &mut Vec<Turn>)
    requires nodes { All (λ turn. turn.going.node < length (plan_of flat.now)) turns.old.items }
    requires all_cells { length cells.old.contents.values ≡ all_cells (plan_of flat.now) }
    requires all_acts { length actions.old.contents.values ≡ length (plan_of flat.now) }
    requires room { 5 * length turns.old.items ≤ cells.old.room }
    requires acts_room { length turns.old.items ≤ actions.old.room }
    ensures values { cells.new.contents.values
        ≡ fold (with_turn (plan_of flat.now)) cells.old.contents.values turns.old.items }
    ensures marked { cells.new.contents.marked ≡ cells.old.contents.marked }
    ensures seen { cells.new.seen ≡ cells.old.seen }
    ensures acts { actions.new.contents.values ≡ fold with_turn_act actions.old.contents.values turns.old.items }
    ensures acts_marked { actions.new.contents.marked ≡ actions.old.contents.marked }
    ensures acts_seen { actions.new.seen ≡ actions.old.seen }
{
    for turn in turns.drain(..) {
        arrive(flat, cells, actions, turn);
    }
}

/// Moves all nodes that go: first what they write, then the initial values, which win over it, then the nodes
/// themselves. The moves that are told stay.
pub fn apply(parts: &mut Parts, turns: &mut Turns)
    requires stand { AreStanding parts.old }
    requires turns { AreTurns parts.old (map (λ turn. turn.going) turns.old.turns.items) turns.old }
    requires going { AreAllGoing (plan_in parts.old) (world_in parts.old) (map (λ turn. turn.going) turns.old.turns.items) }
    requires cells { length turns.old.writes.items + length turns.old.initial.items + 5 * length turns.old.turns.items
        ≤ parts.old.cells.room }
    requires actions { length turns.old.turns.items ≤ parts.old.actions.room }
    ensures world { world_in parts.new ≡ micro (plan_in parts.old) (world_in parts.old) }
    ensures told { turns.new.moves.items ≡ turns.old.moves.items }
    ensures moves { parts.new.moves.items ≡ parts.old.moves.items }
    ensures one_plan { AreOfOnePlan parts.old parts.new }
    ensures seen { AreSeenAsBefore parts.old parts.new }
    ensures stand { AreStanding parts.new }
{
    write(&mut parts.cells, &mut turns.writes);
    begin(&mut parts.cells, &mut turns.initial);
    arrive_all(
        &parts.flat,
        &mut parts.cells,
        &mut parts.actions,
        &mut turns.turns,
    );
}
