// What a move does, by its kind and the body of the node.
ghost use Rattle.std.specs.Prelude.{◌≡◌, ◌<◌, ◌^◌, length, IfOk};
ghost use Rattle.std.specs.Option.{ForSome};
ghost use Rattle.px_core.specs.Plan as core;
ghost use Rattle.px_flat.specs.NumberedData.{body_data};
ghost use Rattle.px_flat.specs.Within.{IsBodyWithin};
ghost use Rattle.px_micro.specs.Doing.{done, kept_cell, kind_data};
ghost use Rattle.px_parts.specs.Parts.{AreStanding, plan_in};
ghost use Rattle.px_micro.specs.Turns.{AreEffects};

use crate::effects::{Effects, UnderWay, silent};
use crate::failing::fails;
use crate::kinds::{MoveKind, move_kind};
use crate::sight::Going;
use crate::starting::starts;
use px_core::Body;
use px_flat::{Act, NumberedBody};
use px_parts::{Parts, state_of};
use px_value::NoMemory;
use std::alloc::Global;

// A move of this kind of a node that has this act under way.
fn done(
    alloc: Global,
    parts: &Parts,
    kind: MoveKind,
    act: &Act,
    body: &Body,
    numbered: &NumberedBody,
) -> Result<Effects, NoMemory>
    requires stand { AreStanding parts.now }
    requires within { IsBodyWithin (plan_in parts.now) (body_data numbered.now) }
    requires kept { ForSome (kept_cell act.now (body_data numbered.now)) (λ cell. cell < 2 ^ 32) }
    ensures { IfOk result (λ made. made
        ≡ done parts.now act.now (kind_data kind) (core.body_data body.now) (body_data numbered.now)) }
{
    match kind {
        MoveKind::Initializes | MoveKind::Resets => Ok(silent(UnderWay::Begun(Act::Idle))),
        MoveKind::Starts => starts(alloc, parts, body, numbered),
        MoveKind::Fails => fails(alloc, act, body, numbered),
        MoveKind::Other => Ok(silent(UnderWay::Kept)),
    }
}

/// What the move of a node that goes does.
pub fn effects_of(alloc: Global, parts: &Parts, going: Going) -> Result<Effects, NoMemory>
    requires stand { AreStanding parts.now }
    requires node { going.node < length (plan_in parts.now) }
    ensures { IfOk result (AreEffects parts.now going) }
{
    let kind = move_kind(state_of(parts, going.node), going.arrival.to);
    let act = parts.actions.of(going.node);
    let body = &parts.flat.row(going.node).head.body;
    let numbered = &parts.flat.node(going.node).body;
    done(alloc, parts, kind, act, body, numbered)
}
