// All that a step does, gathered in the world before it.
ghost use Rattle.std.specs.Prelude.{◌≡◌, ◌+◌, ◌*◌, ◌^◌, ◌<◌, ◌++◌, ◌∷◌, [], fold, length, IfOk, IsTrue, OnOk};
ghost use Rattle.std.specs.List.{cons_option, flat_map};
ghost use Rattle.px_core.specs.Fit.{cells_of, has_right_cells};
ghost use Rattle.px_core.specs.Plan.{variable_data};
ghost use Rattle.px_sem.specs.Step.{move_of};
ghost use Rattle.px_sem.specs.Effects.{initial_values};
ghost use Rattle.px_flat.specs.Layout.{first_cell};
ghost use Rattle.px_flat.specs.Numbered.{held};
ghost use Rattle.px_flat.specs.Row.{site_in};
ghost use Rattle.px_micro.specs.Going.{AreAllGoing};
ghost use Rattle.px_parts.specs.Parts.{AreStanding, plan_in, world_in};
ghost use Rattle.px_micro.specs.Turns.{effects_in, from_cell, initial_in, moves_told, with_write, AreTurns, IsAdded, IsOfNoStep, KnowsWritten};

use crate::doing::effects_of;
use crate::effects::{CellWrite, Effects, UnderWay};
use crate::kinds::{MoveKind, move_kind};
use crate::sight::Going;
use px_core::Variable;
use px_parts::{Parts, state_of};
use px_sem::{Effect, Move};
use px_value::{NoMemory, Value};
use std::alloc::Global;
use std::collections::BTreeSet;

/// What one node does in a step, its variables apart.
#[derive(Drop)]
pub struct Turn {
    pub going: Going,
    pub under_way: UnderWay,
}

/// A value into a cell.
#[derive(Drop)]
pub struct CellValue {
    pub cell: u32,
    pub value: Value,
}

/// All that a step does, and how it is told, if it is. It is kept from step to step, for its room.
#[derive(Drop)]
pub struct Turns {
    /// What is written, of each variable by the first node in preorder that writes it.
    pub(crate) writes: Vec<CellWrite>,
    /// The initial values of the nodes that begin to wait, which win over what is written.
    pub(crate) initial: Vec<CellValue>,
    pub(crate) turns: Vec<Turn>,
    /// The moves, where they are told.
    pub(crate) moves: Vec<Move>,
    /// The variables that are written.
    written: BTreeSet<u32>,
}

impl Turns {
    /// Of no step, without room.
    pub fn none(alloc: Global) -> Turns
        ensures { IsOfNoStep result }
    {
        Turns {
            writes: Vec::new(alloc),
            initial: Vec::new(alloc),
            turns: Vec::new(alloc),
            moves: Vec::new(alloc),
            written: BTreeSet::new(alloc),
        }
    }

    // Forgets the step before.
    fn clear(&mut self)
        ensures { IsOfNoStep self.new }
    {
        self.writes.clear();
        self.initial.clear();
        self.turns.clear();
        self.moves.clear();
        self.written.clear();
    }

    // How many cells are put at most: a node has five beside its variables.
    pub(crate) fn cells(&self) -> u32
        requires { length self.now.writes.items + length self.now.initial.items + 5 * length self.now.turns.items < 2 ^ 32 }
        ensures { result
            ≡ length self.now.writes.items + length self.now.initial.items + 5 * length self.now.turns.items }
    {
        (self.writes.len() + self.initial.len() + 5 * self.turns.len()) as u32
    }

    // The first write of a variable counts.
    fn write(&mut self, write: Option<CellWrite>) -> Result<(), NoMemory>
        requires { KnowsWritten self.old }
        ensures writes { OnOk result (self.new.writes.items
            ≡ fold with_write self.old.writes.items (cons_option write [])) }
        ensures written { OnOk result (KnowsWritten self.new) }
        ensures initial { self.new.initial.items ≡ self.old.initial.items }
        ensures turns { self.new.turns.items ≡ self.old.turns.items }
        ensures moves { self.new.moves.items ≡ self.old.moves.items }
    {
        let Some(write) = write else {
            return Ok(());
        };
        if self.written.insert(write.variable)? {
            self.writes.push(write)?;
        }
        Ok(())
    }

    // The initial values of a node that begins to wait.
    fn begin(&mut self, alloc: Global, parts: &Parts, going: Going) -> Result<(), NoMemory>
        requires stand { AreStanding parts.now }
        requires node { going.node < length (plan_in parts.now) }
        requires written { KnowsWritten self.old }
        ensures initial { OnOk result (self.new.initial.items
            ≡ self.old.initial.items ++ initial_in parts.now going) }
        ensures writes { self.new.writes.items ≡ self.old.writes.items }
        ensures turns { self.new.turns.items ≡ self.old.turns.items }
        ensures moves { self.new.moves.items ≡ self.old.moves.items }
        ensures written { KnowsWritten self.new }
    {
        if let MoveKind::Initializes = move_kind(state_of(parts, going.node), going.arrival.to) {
            let mut values = initial_values(alloc, parts, going.node)?;
            self.initial.append(&mut values)?;
        }
        Ok(())
    }

    // A node's move, where moves are told.
    fn tell(
        &mut self,
        alloc: Global,
        parts: &Parts,
        going: Going,
        told: Option<Effect>,
        tells: bool,
    ) -> Result<(), NoMemory>
        requires stand { AreStanding parts.now }
        requires node { going.node < length (plan_in parts.now) }
        requires told { told ≡ (effects_in parts.now going).told }
        requires written { KnowsWritten self.old }
        ensures moves { OnOk result (self.new.moves.items
            ≡ self.old.moves.items ++ moves_told parts.now tells (going ∷ [])) }
        ensures writes { self.new.writes.items ≡ self.old.writes.items }
        ensures initial { self.new.initial.items ≡ self.old.initial.items }
        ensures turns { self.new.turns.items ≡ self.old.turns.items }
        ensures written { KnowsWritten self.new }
    {
        if !tells {
            return Ok(());
        }
        self.moves.push(told_move(alloc, parts, going, told)?)?;
        Ok(())
    }

    // One node's turn, and its move where moves are told.
    fn add(
        &mut self,
        alloc: Global,
        parts: &Parts,
        going: Going,
        tells: bool,
    ) -> Result<(), NoMemory>
        requires stand { AreStanding parts.now }
        requires node { going.node < length (plan_in parts.now) }
        requires written { KnowsWritten self.old }
        ensures added { OnOk result (IsAdded parts.now going self.old self.new) }
        ensures moves { OnOk result (self.new.moves.items
            ≡ self.old.moves.items ++ moves_told parts.now tells (going ∷ [])) }
        ensures written { OnOk result (KnowsWritten self.new) }
    {
        let Effects {
            write,
            under_way,
            told,
        } = effects_of(alloc, parts, going)?;
        self.tell(alloc, parts, going, told, tells)?;
        self.write(write)?;
        self.turns.push(Turn { going, under_way })?;
        self.begin(alloc, parts, going)
    }
}

// The initial value of a cell of a variable, UNKNOWN where none is given.
fn initial_value(alloc: Global, variable: &Variable, k: u32) -> Result<Value, NoMemory>
    ensures { IfOk result (λ value. value ≡ held variable.now.init.items k) }
{
    match variable.init.get(k as usize) {
        Some(value) => value.copy(alloc),
        None => Ok(Value::Unknown),
    }
}

// The initial values of a variable whose first cell this is.
fn push_initial(
    alloc: Global,
    values: &mut Vec<CellValue>,
    first: u32,
    variable: &Variable,
) -> Result<(), NoMemory>
    requires init { IsTrue (has_right_cells (variable_data variable.now)) }
    requires cells { first + cells_of (variable_data variable.now) < 2 ^ 32 }
    ensures { OnOk result (values.new.items
        ≡ values.old.items ++ from_cell first (initial_values (variable_data variable.now))) }
{
    for k in 0..variable.size.unwrap_or(1) {
        let value = initial_value(alloc, variable, k)?;
        values.push(CellValue {
            cell: first + k,
            value,
        })?;
    }
    Ok(())
}

// The initial values of a node's variables.
fn initial_values(alloc: Global, parts: &Parts, node: u32) -> Result<Vec<CellValue>, NoMemory>
    requires stand { AreStanding parts.now }
    requires node { node < length (plan_in parts.now) }
    ensures { IfOk result (λ values. values.items ≡ from_cell (first_cell (plan_in parts.now) node)
        (flat_map initial_values (site_in (plan_in parts.now) node).head.variables)) }
{
    let mut values = Vec::new(alloc);
    let mut cell = parts.flat.extent(node).first_cell;
    for variable in &parts.flat.row(node).head.variables {
        push_initial(alloc, &mut values, cell, variable)?;
        cell += variable.size.unwrap_or(1);
    }
    Ok(values)
}

// A node's move, as it is told.
fn told_move(
    alloc: Global,
    parts: &Parts,
    going: Going,
    told: Option<Effect>,
) -> Result<Move, NoMemory>
    requires stand { AreStanding parts.now }
    requires node { going.node < length (plan_in parts.now) }
    requires told { told ≡ (effects_in parts.now going).told }
    ensures { IfOk result (λ made. made ≡ move_of (plan_in parts.now) (world_in parts.now)
        (site_in (plan_in parts.now) going.node) going.arrival) }
{
    Ok(Move {
        node: parts.flat.row(going.node).path.copy(alloc)?,
        from: state_of(parts, going.node),
        to: going.arrival.to,
        outcome: going.arrival.outcome,
        failure: going.arrival.failure,
        effect: told,
    })
}

/// Gathers the turns of the nodes that go, in preorder, and their moves where these are told.
pub(crate) fn gather(
    alloc: Global,
    parts: &Parts,
    going: &[Going],
    tells: bool,
    turns: &mut Turns,
) -> Result<(), NoMemory>
    requires stand { AreStanding parts.now }
    requires going { AreAllGoing (plan_in parts.now) (world_in parts.now) going.now }
    ensures turns { OnOk result (AreTurns parts.now going.now turns.new) }
    ensures moves { OnOk result (turns.new.moves.items ≡ moves_told parts.now tells going.now) }
{
    turns.clear();
    for one in going {
        turns.add(alloc, parts, *one, tells)?;
    }
    Ok(())
}
