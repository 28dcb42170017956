// What a node does as it starts.
ghost use Rattle.std.specs.Prelude.{◌≡◌, map, IfOk};
ghost use Rattle.std.specs.List.{All};
ghost use Rattle.std.specs.Option.{ForSome, option_and_then, option_map};
ghost use Rattle.px_core.specs.Plan.{pair_data};
ghost use Rattle.px_core.specs.Plan as core;
ghost use Rattle.px_sem.specs.Effects as sem;
ghost use Rattle.px_flat.specs.NumberedData.{body_data, expr_data, target_data};
ghost use Rattle.px_flat.specs.Within.{IsBodyWithin, IsTargetWithin, IsWithin};
ghost use Rattle.px_micro.specs.Doing.{assigned, kept, sent, started, updated};
ghost use Rattle.px_parts.specs.Parts.{AreStanding, plan_in, value_in};
ghost use Rattle.px_micro.specs.Places.{place_data, place_now};

use crate::effects::{Effects, UnderWay, silent, writing};
use crate::places::{Place, place_of};
use px_command::as_kind;
use px_core::{Body, Pair, Target};
use px_eval::{value_of, values_of};
use px_flat::{Abort, Act, NumberedBody, NumberedExpr, NumberedTarget};
use px_parts::Parts;
use px_sem::Effect;
use px_value::{Name, NoMemory, Series, Value};
use std::alloc::Global;

// What is kept of the value that an assignment writes over.
fn kept(place: Place, old: Value) -> Act
    ensures { result ≡ kept place old }
{
    match place {
        Place::Whole => Act::Scalar(old),
        Place::Element(index) => Act::Element { index, old },
    }
}

// An assignment writes its right side and keeps the old value; it writes nothing where it has no place.
fn assigns(
    alloc: Global,
    parts: &Parts,
    target: &Target,
    numbered: &NumberedTarget,
    right: &NumberedExpr,
) -> Result<Effects, NoMemory>
    requires stand { AreStanding parts.now }
    requires target { IsTargetWithin (plan_in parts.now) (target_data numbered.now) }
    requires right { IsWithin (plan_in parts.now) (expr_data right.now) }
    ensures { IfOk result (λ made. made ≡ assigned parts.now (core.target_data target.now) (target_data numbered.now)
        (value_in parts.now (expr_data right.now))) }
{
    let Some(place) = place_of(alloc, parts, numbered)? else {
        return Ok(Effects {
            write: None,
            under_way: UnderWay::Begun(Act::Unwritten),
            told: Some(Effect::NoWrite),
        });
    };
    let right = value_of(alloc, &parts.flat, &parts.cells, &parts.reports, right)?;
    let old = parts
        .cells
        .get(numbered.first + place.offset())
        .copy(alloc)?;
    let value = as_kind(alloc, numbered.kind, &right)?;
    let under_way = UnderWay::Begun(kept(place, old));
    writing(alloc, target, numbered.first, place, value, under_way)
}

// The index of the place of a command's result.
fn taken_index(
    alloc: Global,
    parts: &Parts,
    taken: &Option<NumberedTarget>,
) -> Result<Option<u32>, NoMemory>
    requires stand { AreStanding parts.now }
    requires taken { ForSome (option_map target_data taken.now) (IsTargetWithin (plan_in parts.now)) }
    ensures { IfOk result (λ index. index ≡ option_and_then (λ place. sem.index_of (place_data place))
        (option_and_then (place_now parts.now) (option_map target_data taken.now))) }
{
    let Some(target) = taken else {
        return Ok(None);
    };
    Ok(match place_of(alloc, parts, target)? {
        Some(place) => place.index(),
        None => None,
    })
}

// A command is sent with its arguments, and the index of its result is taken.
fn sends(
    alloc: Global,
    parts: &Parts,
    name: &Name,
    args: &[NumberedExpr],
    taken: &Option<NumberedTarget>,
) -> Result<Effects, NoMemory>
    requires stand { AreStanding parts.now }
    requires args { All (IsWithin (plan_in parts.now)) (map expr_data args.now) }
    requires taken { ForSome (option_map target_data taken.now) (IsTargetWithin (plan_in parts.now)) }
    ensures { IfOk result (λ made. made
        ≡ sent parts.now name.now (map expr_data args.now) (option_map target_data taken.now)) }
{
    let index = taken_index(alloc, parts, taken)?;
    let told = Effect::Sent {
        command: name.copy(alloc)?,
        args: values_of(alloc, &parts.flat, &parts.cells, &parts.reports, args)?,
    };
    Ok(Effects {
        write: None,
        under_way: UnderWay::Begun(Act::Sent {
            index,
            abort: Abort::NotAsked,
        }),
        told: Some(told),
    })
}

fn names_of(alloc: Global, pairs: &[Pair]) -> Result<Series<Name>, NoMemory>
    ensures { IfOk result (λ names. names ≡ map (λ pair. pair.name) pairs.now) }
{
    let mut names = Vec::with_capacity(alloc, pairs.len())?;
    for pair in pairs {
        names.push(pair.name.copy(alloc)?)?;
    }
    Ok(Series::from(names))
}

// An update is sent.
fn updates(
    alloc: Global,
    parts: &Parts,
    pairs: &[Pair],
    values: &[NumberedExpr],
) -> Result<Effects, NoMemory>
    requires stand { AreStanding parts.now }
    requires values { All (IsWithin (plan_in parts.now)) (map expr_data values.now) }
    ensures { IfOk result (λ made. made
        ≡ updated parts.now (map pair_data pairs.now) (map expr_data values.now)) }
{
    let told = Effect::Updated {
        names: names_of(alloc, pairs)?,
        values: values_of(alloc, &parts.flat, &parts.cells, &parts.reports, values)?,
    };
    Ok(Effects {
        write: None,
        under_way: UnderWay::Begun(Act::Updated),
        told: Some(told),
    })
}

/// By its body; a node without one does nothing.
pub fn starts(
    alloc: Global,
    parts: &Parts,
    body: &Body,
    numbered: &NumberedBody,
) -> Result<Effects, NoMemory>
    requires stand { AreStanding parts.now }
    requires within { IsBodyWithin (plan_in parts.now) (body_data numbered.now) }
    ensures { IfOk result (λ made. made ≡ started parts.now (core.body_data body.now) (body_data numbered.now)) }
{
    match (body, numbered) {
        (
            Body::Assign { target, .. },
            NumberedBody::Assign {
                target: numbered,
                value,
            },
        ) => assigns(alloc, parts, target, numbered, value),
        (Body::Command { name, .. }, NumberedBody::Command { args, result }) => {
            sends(alloc, parts, name, args, result)
        }
        (Body::Update { pairs }, NumberedBody::Update { values }) => {
            updates(alloc, parts, pairs, values)
        }
        _ => Ok(silent(UnderWay::Kept)),
    }
}
