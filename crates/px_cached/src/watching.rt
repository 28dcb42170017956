// Which parts compare what is reported under a name with a constant.
ghost use Rattle.std.specs.Prelude.{◌≡◌, ◌<◌, ◌^◌, List, length, All, IfOk, IfSome, IsTrue};
ghost use Rattle.px_value.specs.Comparison.{value_compare};
ghost use Rattle.px_value.specs.Truth.{truth_of};
ghost use Rattle.px_value.specs.declared.value.Value.{Value};
ghost use Rattle.px_value.specs.declared.value.Value.TheVariants.{Integer};
ghost use Rattle.px_core.specs.Plan.{Site};
ghost use Rattle.px_flat.specs.Flat.{plan_of};
ghost use Rattle.px_flat.specs.Numbered.{Literal, Look, NoneNumbered};
ghost use Rattle.px_flat.specs.NumberedData.{expr_data};
ghost use Rattle.px_cached.specs.Conditions.{all_sources};
ghost use Rattle.px_cached.specs.Reading.{AreListening};
ghost use Rattle.px_cached.specs.Watching.{Answers, AreWatching, IsWatch, answer};

use crate::part::Part;
use crate::sources::report_source;
use px_core::BinaryOp;
use px_flat::{Flat, NumberedExpr};
use px_listen::{Dependents, Listeners};
use px_value::{CompareOp, NoMemory, Value};
use std::alloc::Global;

/// Where the truth of a comparison turns: from this number on it is this one, and below it is the other.
#[derive(Clone, Copy)]
pub(crate) struct Turn {
    pub(crate) from: i64,
    pub(crate) truth: bool,
}

/// A part that compares what is reported under a name with a constant.
#[derive(Clone, Copy)]
pub(crate) struct Watcher {
    pub(crate) turn: Turn,
    pub(crate) part: u32,
}

/// The parts that read what is reported under a name.
#[derive(Drop)]
pub(crate) struct Watch {
    /// By the numbers from which they turn.
    pub(crate) watchers: Vec<Watcher>,
    /// Those that are no comparison with a constant by an order.
    pub(crate) others: Vec<u32>,
}

impl Turn {
    // Where the comparison of a value with a constant turns, if it is by an order.
    fn of(op: CompareOp, constant: i32) -> Option<Turn>
        ensures { IfSome result (λ turn. (value : Value)
            → truth_of (value_compare op value (Integer constant)) ≡ answer turn value) }
    {
        let from = i64::from(constant);
        match op {
            CompareOp::Less => Some(Turn { from, truth: false }),
            CompareOp::AtMost => Some(Turn {
                from: from + 1,
                truth: false,
            }),
            CompareOp::Greater => Some(Turn {
                from: from + 1,
                truth: true,
            }),
            CompareOp::AtLeast => Some(Turn { from, truth: true }),
            CompareOp::Equal | CompareOp::Differs => None,
        }
    }
}

// Whether an expression is what is reported under a name, without arguments or tolerance.
fn reads(expr: &NumberedExpr, name: u32) -> bool
    ensures { IsTrue result → expr_data expr.now ≡ Look name NoneNumbered None }
{
    match expr {
        NumberedExpr::Look {
            lookup,
            args,
            tolerance: None,
        } => *lookup == name && args.is_empty(),
        _ => false,
    }
}

// The Integer that an expression is, where it is a constant.
fn integer_of(expr: &NumberedExpr) -> Option<i32>
    ensures { IfSome result (λ number. expr_data expr.now ≡ Literal (Integer number)) }
{
    match expr {
        NumberedExpr::Literal(Value::Integer(number)) => Some(*number),
        _ => None,
    }
}

// Where a part turns that compares what is reported under a name with a constant.
fn turn_of(part: &Part, name: u32) -> Option<Turn>
    ensures { IfSome result (λ turn. (plan : List Site) → Answers plan name turn part.now) }
{
    let Part::Whole(
        NumberedExpr::Binary {
            op: BinaryOp::Compare(op),
            left,
            right,
        },
    ) = part
    else {
        return None;
    };
    if reads(left, name) {
        Turn::of(*op, integer_of(right)?)
    } else {
        None
    }
}

impl Watch {
    // The parts that read what is reported under a name are its dependents.
    fn of(
        alloc: Global,
        parts: &[Part],
        name: u32,
        dependents: Dependents<'_>,
    ) -> Result<Watch, NoMemory>
        requires { All (λ part. part < length parts.now) dependents }
        ensures { IfOk result (IsWatch parts.now name dependents.entry) }
    {
        let mut watch = Watch {
            watchers: Vec::new(alloc),
            others: Vec::new(alloc),
        };
        for part in dependents {
            match turn_of(&parts[part as usize], name) {
                Some(turn) => watch.watchers.push(Watcher { turn, part })?,
                None => watch.others.push(part)?,
            }
        }
        watch
            .watchers
            .sort_unstable_by_key(|watcher| watcher.turn.from);
        Ok(watch)
    }
}

/// The parts that read what is reported under each name, as it is without a tolerance.
pub(crate) fn watches(
    alloc: Global,
    flat: &Flat,
    parts: &[Part],
    listeners: &Listeners,
) -> Result<Vec<Watch>, NoMemory>
    requires few { all_sources (plan_of flat.now) < 2 ^ 32 }
    requires listening { AreListening (plan_of flat.now) parts.now listeners.now }
    ensures { IfOk result (λ watches. AreWatching (plan_of flat.now) parts.now listeners.now watches.items) }
{
    listeners.each_once();
    let mut watches = Vec::new(alloc);
    for name in 0..flat.lookups() {
        let source = report_source(flat, name, None);
        watches.push(Watch::of(alloc, parts, name, listeners.dependents(source))?)?;
    }
    Ok(watches)
}
