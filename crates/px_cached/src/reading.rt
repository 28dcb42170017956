// Which parts read which sources.
ghost use Rattle.std.specs.Prelude.{◌≡◌, ℕ, ◌<◌, ◌^◌, [], ◌∷◌, ◌++◌, length, map, IfOk, OnOk};
ghost use Rattle.px_flat.specs.Flat.{plan_of};
ghost use Rattle.px_flat.specs.NumberedData.{expr_data, in_turn};
ghost use Rattle.px_flat.specs.Sources.{sources_in, sources_in_each};
ghost use Rattle.px_flat.specs.Within.{IsWithin, AreWithin};
ghost use Rattle.px_cached.specs.Conditions.{all_sources};
ghost use Rattle.px_cached.specs.Laying.{IsRead};
ghost use Rattle.px_cached.specs.Network.{part_at};
ghost use Rattle.px_cached.specs.Reading.{AreListening, AreReadersBelow, readers_of, sources_at};

use crate::part::Part;
use crate::sources::{report_source, source_count};
use px_flat::{Flat, NumberedExpr};
use px_listen::Listeners;
use px_value::NoMemory;
use std::alloc::{AllocError, Global};

/// A part that reads a source.
#[derive(Clone, Copy)]
pub(crate) struct Reader {
    pub(crate) source: u32,
    pub(crate) part: u32,
}

fn push(source: u32, part: u32, readers: &mut Vec<Reader>) -> Result<(), NoMemory>
    ensures { OnOk result (readers.new.items
        ≡ readers.old.items ++ (record { source = source; part = part }) ∷ []) }
{
    readers.push(Reader { source, part })?;
    Ok(())
}

// The sources of an expression of a part, from left to right.
#[cycle(push_sources)]
fn push_sources(
    flat: &Flat,
    expr: &NumberedExpr,
    part: u32,
    readers: &mut Vec<Reader>,
) -> Result<(), NoMemory>
    requires within { IsWithin (plan_of flat.now) (expr_data expr.now) }
    requires few { all_sources (plan_of flat.now) < 2 ^ 32 }
    ensures { OnOk result (readers.new.items ≡ readers.old.items
        ++ readers_of (plan_of flat.now) part (sources_in (plan_of flat.now) (expr_data expr.now))) }
{
    match expr {
        NumberedExpr::Literal(_) => Ok(()),
        NumberedExpr::Variable(cell) => push(*cell, part, readers),
        NumberedExpr::Element { first, index, .. } => {
            push(*first, part, readers)?;
            push_sources(flat, index, part, readers)
        }
        NumberedExpr::StateOf(node) => push(flat.state_cell(*node), part, readers),
        NumberedExpr::OutcomeOf(node) => push(flat.outcome_cell(*node), part, readers),
        NumberedExpr::FailureOf(node) => push(flat.failure_cell(*node), part, readers),
        NumberedExpr::HandleOf(node) => push(flat.handle_cell(*node), part, readers),
        NumberedExpr::Acknowledged(node) => {
            push(flat.acknowledgement_cell(*node), part, readers)
        }
        NumberedExpr::Look {
            lookup,
            args,
            tolerance,
        } => {
            push(report_source(flat, *lookup, *tolerance), part, readers)?;
            push_each(flat, args, part, readers)
        }
        NumberedExpr::Unary { arg, .. } => push_sources(flat, arg, part, readers),
        NumberedExpr::Binary { left, right, .. } => {
            push_sources(flat, left, part, readers)?;
            push_sources(flat, right, part, readers)
        }
    }
}

#[cycle(push_sources)]
fn push_each(
    flat: &Flat,
    exprs: &[NumberedExpr],
    part: u32,
    readers: &mut Vec<Reader>,
) -> Result<(), NoMemory>
    requires within { AreWithin (plan_of flat.now) (in_turn (map expr_data exprs.now)) }
    requires few { all_sources (plan_of flat.now) < 2 ^ 32 }
    ensures { OnOk result (readers.new.items ≡ readers.old.items ++ readers_of (plan_of flat.now) part
        (sources_in_each (plan_of flat.now) (in_turn (map expr_data exprs.now)))) }
{
    for expr in exprs {
        push_sources(flat, expr, part, readers)?;
    }
    Ok(())
}

// The sources of a part that is evaluated whole.
fn push_part(
    flat: &Flat,
    network: &[Part],
    part: u32,
    readers: &mut Vec<Reader>,
) -> Result<(), NoMemory>
    requires part { part < length network.now }
    requires read { IsRead (plan_of flat.now) (part_at network.now part) }
    requires few { all_sources (plan_of flat.now) < 2 ^ 32 }
    ensures { OnOk result (readers.new.items ≡ readers.old.items
        ++ readers_of (plan_of flat.now) part (sources_at (plan_of flat.now) (part_at network.now part))) }
{
    match &network[part as usize] {
        Part::Whole(expr) => push_sources(flat, expr, part, readers),
        Part::Joined { .. } => Ok(()),
    }
}

fn readers(alloc: Global, flat: &Flat, network: &[Part]) -> Result<Vec<Reader>, NoMemory>
    requires read { (part : ℕ) → part < length network.now → IsRead (plan_of flat.now) (part_at network.now part) }
    requires few { all_sources (plan_of flat.now) < 2 ^ 32 }
    requires parts { length network.now < 2 ^ 32 }
    ensures { IfOk result (λ readers.
        AreReadersBelow (plan_of flat.now) network.now readers.items (length network.now)) }
{
    let mut readers = Vec::new(alloc);
    for part in 0..network.len() as u32 {
        push_part(flat, network, part, &mut readers)?;
    }
    Ok(readers)
}

/// Of each source the parts that are evaluated whole and read it. There are fewer than 2^32 sources, parts and pairs of
/// both, and else there is no memory for their numbers.
pub(crate) fn listeners(alloc: Global, flat: &Flat, network: &[Part]) -> Result<Listeners, NoMemory>
    requires read { (part : ℕ) → part < length network.now → IsRead (plan_of flat.now) (part_at network.now part) }
    requires parts { length network.now < 2 ^ 32 }
    ensures listening { IfOk result (AreListening (plan_of flat.now) network.now) }
    ensures few { IfOk result (λ _. all_sources (plan_of flat.now) < 2 ^ 32) }
{
    let Some(sources) = source_count(flat) else {
        return Err(AllocError);
    };
    let readers = readers(alloc, flat, network)?;
    if readers.len() > u32::MAX as usize {
        return Err(AllocError);
    }
    let mut listeners = Listeners::new(alloc, sources, network.len() as u32, readers.len() as u32)?;
    for reader in &readers {
        listeners.add(reader.source, reader.part);
    }
    Ok(listeners)
}
