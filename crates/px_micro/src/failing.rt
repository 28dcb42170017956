// What a node does as it fails.
ghost use Rattle.std.specs.Prelude.{◌≡◌, ◌+◌, ◌<◌, ◌^◌, IfOk};
ghost use Rattle.std.specs.Option.{ForSome};
ghost use Rattle.px_core.specs.Plan as core;
ghost use Rattle.px_sem.specs.Effects.{cell_of};
ghost use Rattle.px_flat.specs.NumberedData.{body_data, target_data};
ghost use Rattle.px_micro.specs.Doing.{asked, failed, kept_cell, kept_place, written_back};

use crate::effects::{Effects, UnderWay, silent, writing};
use crate::places::Place;
use px_core::{Body, Target};
use px_flat::{Act, NumberedBody, NumberedTarget};
use px_sem::Effect;
use px_value::NoMemory;
use std::alloc::Global;

// An assignment that fails writes back what it kept, where it wrote.
fn writes_back(
    alloc: Global,
    target: &Target,
    numbered: &NumberedTarget,
    act: &Act,
) -> Result<Effects, NoMemory>
    requires { ForSome (kept_place act.now) (λ place. numbered.now.first + cell_of place < 2 ^ 32) }
    ensures { IfOk result (λ made. made
        ≡ written_back (core.target_data target.now) (target_data numbered.now) act.now) }
{
    let (place, old) = match act {
        Act::Scalar(old) => (Place::Whole, old),
        Act::Element { index, old } => (Place::Element(*index), old),
        _ => return Ok(silent(UnderWay::Kept)),
    };
    let value = old.copy(alloc)?;
    writing(alloc, target, numbered.first, place, value, UnderWay::Kept)
}

// What a command has under way that is asked to abort.
fn asked(act: &Act) -> UnderWay
    ensures { result ≡ asked act.now }
{
    match act {
        Act::Sent { index, .. } => UnderWay::Aborting { index: *index },
        _ => UnderWay::Kept,
    }
}

/// An assignment writes back, and a command is asked to abort.
pub fn fails(
    alloc: Global,
    act: &Act,
    body: &Body,
    numbered: &NumberedBody,
) -> Result<Effects, NoMemory>
    requires { ForSome (kept_cell act.now (body_data numbered.now)) (λ cell. cell < 2 ^ 32) }
    ensures { IfOk result (λ made. made ≡ failed act.now (core.body_data body.now) (body_data numbered.now)) }
{
    match (body, numbered) {
        (
            Body::Assign { target, .. },
            NumberedBody::Assign {
                target: numbered,
                ..
            },
        ) => { writes_back(alloc, target, numbered, act) }
        (Body::Command { name, .. }, _) => Ok(Effects {
            write: None,
            under_way: asked(act),
            told: Some(Effect::Aborted {
                command: name.copy(alloc)?,
            }),
        }),
        _ => Ok(silent(UnderWay::Kept)),
    }
}
