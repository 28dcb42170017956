// The conditions of a node, one by one.
ghost use Rattle.std.specs.Prelude.{◌≡◌, ◌*◌, ◌<◌, length};
ghost use Rattle.px_flat.specs.Flat.{plan_of};
ghost use Rattle.px_flat.specs.NumberedData.{conditions_data, expr_data};
ghost use Rattle.px_flat.specs.Within.{IsWithin};
ghost use Rattle.px_cached.specs.Conditions.{condition_at, of_kind, place_of};

use px_core::ConditionKind;
use px_flat::{Flat, NumberedConditions, NumberedExpr};

/// The kinds of conditions in their order.
const KINDS: [ConditionKind; 8] = [
    ConditionKind::Start,
    ConditionKind::End,
    ConditionKind::Exit,
    ConditionKind::Skip,
    ConditionKind::Repeat,
    ConditionKind::Pre,
    ConditionKind::Post,
    ConditionKind::Invariant,
];

fn of_kind(conditions: &NumberedConditions, kind: ConditionKind) -> &NumberedExpr
    ensures { expr_data result.now ≡ of_kind (conditions_data conditions.now) kind }
{
    match kind {
        ConditionKind::Start => &conditions.start,
        ConditionKind::End => &conditions.end,
        ConditionKind::Exit => &conditions.exit,
        ConditionKind::Skip => &conditions.skip,
        ConditionKind::Repeat => &conditions.repeat,
        ConditionKind::Pre => &conditions.pre,
        ConditionKind::Post => &conditions.post,
        ConditionKind::Invariant => &conditions.invariant,
    }
}

/// The condition of a number: those of node n have the numbers from 8n on.
pub(crate) fn condition(flat: &Flat, number: u32) -> &NumberedExpr
    requires { number < 8 * length (plan_of flat.now) }
    ensures is { expr_data result.now ≡ condition_at (plan_of flat.now) number }
    ensures within { IsWithin (plan_of flat.now) (expr_data result.now) }
{
    of_kind(
        &flat.node(number / 8).conditions,
        KINDS[number as usize % 8],
    )
}

/// The place of a condition among the eight.
pub(crate) fn place_of(kind: ConditionKind) -> usize
    ensures place { result ≡ place_of kind }
    ensures below { result < 8 }
{
    match kind {
        ConditionKind::Start => 0,
        ConditionKind::End => 1,
        ConditionKind::Exit => 2,
        ConditionKind::Skip => 3,
        ConditionKind::Repeat => 4,
        ConditionKind::Pre => 5,
        ConditionKind::Post => 6,
        ConditionKind::Invariant => 7,
    }
}
