// What the tables of a plan mean, as a clause of a function that does nothing.
ghost use Rattle.std.specs.Prelude.{◌<◌, List, length};
ghost use Rattle.px_value.specs.declared.value.Value.{Value};
ghost use Rattle.px_sem.specs.World.{LookState, Report};
ghost use Rattle.px_flat.specs.declared.act.Act.{Act};
ghost use Rattle.px_flat.specs.Flat.{plan_of};
ghost use Rattle.px_flat.specs.Parts.{IsParts};
ghost use Rattle.px_flat.specs.Row.{site_in};
ghost use Rattle.px_flat.specs.Sources.{ReadOnlySources};
ghost use Rattle.px_flat.specs.Values.{HaveValues};

use crate::flat::Flat;

/// Where cells, reports and acts stand for a world of the plan, a node's numbered expressions have the values that its own
/// have in that world.
pub fn values(_flat: &Flat, _node: u32)
    requires { _node < length (plan_of _flat.now) }
    ensures { (cells : List Value) (reports : List (LookState × Report)) (acts : List Act)
        → IsParts (plan_of _flat.now) cells acts
        → HaveValues (plan_of _flat.now) cells reports acts (site_in (plan_of _flat.now) _node).head }
{}

/// A numbered expression of any form has the same value wherever each of its sources is the same: each cell that it
/// names, all cells of an array of which it reads an element, and each lookup name with its tolerance, or with none.
pub fn sources(_flat: &Flat)
    ensures { ReadOnlySources (plan_of _flat.now) }
{}
