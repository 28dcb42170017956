// Where the variables that a node declares stand, by their names.
ghost use Rattle.std.specs.Prelude.{◌≡◌, ◌+◌, ◌≤◌, map, sum, IfOk, IsTrue};
ghost use Rattle.std.specs.Map.{lookup};
ghost use Rattle.px_core.specs.Fit.{all_differ, cells_of};
ghost use Rattle.px_core.specs.Plan.{variable_data, is_same};
ghost use Rattle.px_flat.specs.Slots.{slots_from};

use indexmap::IndexMap;
use px_core::{VarKind, Variable};
use px_value::{Name, NoMemory};
use std::alloc::Global;
use std::marker::Model;

/// The cells of a variable, and its type.
#[derive(Clone, Copy, PartialEq, Eq)]
pub struct Slot {
    /// The first of its cells.
    pub first: u32,
    /// How many cells it has: one, or as many as the array has elements.
    pub size: u32,
    pub kind: VarKind,
}

/// The slots of a node's variables, by their names.
#[derive(Drop)]
pub struct Slots {
    map: IndexMap<Name, Slot>,
}

impl Model for Slots {
    ghost use Rattle.std.specs.Prelude.{ℕ, List};
    ghost use Rattle.px_flat.specs.declared.slots.Slot.{Slot as Place};

    ghost Value = { List (List ℕ × Place) };

    ghost view = { λ slots. slots.map.entries };
}

impl Slots {
    /// The slots of variables of different names, which stand one after another from a cell on.
    pub fn of(alloc: Global, first: u32, variables: &[Variable]) -> Result<Slots, NoMemory>
        requires differ { IsTrue (all_differ (map (λ variable. variable.name) (map variable_data variables.now))) }
        requires few { first + sum (map cells_of (map variable_data variables.now)) ≤ 131072 }
        ensures { IfOk result (λ slots. slots ≡ slots_from first (map variable_data variables.now)) }
    {
        let mut map = IndexMap::with_capacity(alloc, variables.len())?;
        let mut cell = first;
        for variable in variables {
            let size = variable.size.unwrap_or(1);
            let slot = Slot {
                first: cell,
                size,
                kind: variable.kind,
            };
            map.insert(variable.name.copy(alloc)?, slot)?;
            cell += size;
        }
        Ok(Slots { map })
    }

    /// The slot of the variable of a name; None exactly where there is no such variable.
    pub fn get(&self, name: &Name) -> Option<Slot>
        ensures { result ≡ lookup (is_same name.now) self.now }
    {
        self.map.get(name).copied()
    }
}
