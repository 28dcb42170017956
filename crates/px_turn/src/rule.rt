// The table of a turn, and its rule.
use crate::listed::Listed;
use crate::view::View;
use atomic_table::{Table, TableRule};
use std::alloc::Global;
use std::snapshot::Snapshot;

/// The rule of seats.
pub struct OfSeats;

impl<T: Listed> TableRule<Option<T>, View<T, T::Item>, Snapshot<T>> for OfSeats {
    ghost use Rattle.px_turn.specs.Rule.{IsRuled};
    ghost use Rattle.px_turn.specs.Views.{newcomer};

    ghost holds = { λ key. IsRuled T.list T.goes_on key.value };

    ghost first = { λ key. newcomer T.list key.value };
}

pub(crate) type Board<T> = Table<
    Option<T>,
    View<T, <T as Listed>::Item>,
    Snapshot<T>,
    OfSeats,
    Global,
>;

// The next ticket to be given.
pub(crate) const TICKET: usize = 0;

// The ticket that is served.
pub(crate) const SERVING: usize = 1;

// How many entries there are.
pub(crate) const COUNT: usize = 2;

// Where the value lies while nobody has the turn.
pub(crate) const SLOT: usize = 0;
