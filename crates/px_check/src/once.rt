// What a block has at most once: each condition, and the priority.
ghost use Rattle.std.specs.Prelude.{◌≡◌, [], map, option_map, OnOk};
ghost use Rattle.std.specs.List.{flat_map, list_any};
ghost use Rattle.std.specs.Option.{option_to_list};
ghost use Rattle.px_syntax.specs.Block.{item_data};
ghost use Rattle.px_syntax.specs.BlockFaults.{is_same_once, once_in, repeated};
ghost use Rattle.px_syntax.specs.declared.fault.FaultKind.TheVariants.{DoubleCondition};
ghost use Rattle.px_check.specs.Found.{noted};
ghost use Rattle.px_check.specs.Once.{once_data, once_pair};

use crate::found::Found;
use px_syntax::{Condition, FaultKind, Item};
use px_value::NoMemory;
use std::alloc::Global;

/// A condition, or the priority.
#[derive(Clone, Copy)]
pub enum Once {
    Condition(Condition),
    Priority,
}

impl Once {
    fn is_same(self, other: Once) -> bool
        ensures { result ≡ is_same_once (once_data self) (once_data other) }
    {
        match (self, other) {
            (Once::Condition(condition), Once::Condition(other)) => condition == other,
            (Once::Priority, Once::Priority) => true,
            _ => false,
        }
    }

    fn is_among(self, seen: &[Once]) -> bool
        ensures { result ≡ list_any (is_same_once (once_data self)) (map once_data seen.now) }
    {
        for one in seen {
            if self.is_same(*one) {
                return true;
            }
        }
        false
    }
}

// That part of an item, and its token.
fn once_in(item: &Item) -> Option<(Once, usize)>
    ensures { option_to_list (option_map once_pair result) ≡ once_in (item_data item.now) }
{
    match item {
        Item::Condition {
            condition,
            token,
            ..
        } => Some((Once::Condition(*condition), *token)),
        Item::Priority { token, .. } => Some((Once::Priority, *token)),
        Item::Variables { .. } => None,
    }
}

/// Notes each second item of one condition, and each second priority.
pub fn note_repeated(alloc: Global, items: &[Item], found: &mut Found) -> Result<(), NoMemory>
    ensures { OnOk result (found.new ≡ noted found.old
        (repeated is_same_once DoubleCondition [] (flat_map once_in (map item_data items.now)))) }
{
    // Each part once, so these are few.
    let mut seen = Vec::new(alloc);
    for item in items {
        if let Some((part, token)) = once_in(item) {
            let is_again = part.is_among(&seen);
            found.note_where(is_again, FaultKind::DoubleCondition, token);
            if !is_again {
                seen.push(part)?;
            }
        }
    }
    Ok(())
}
