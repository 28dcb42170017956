// What each step tells.
ghost use Rattle.px_turn.specs.Steps.{queued, looked, marked, called, counted, compared};
ghost use Rattle.px_turn.specs.Views.{split_once_more, split_off, joined, spent};

use crate::listed::Listed;
use crate::view::View;
use atomic_table::{Join, Play, Split};

pub(crate) struct TakeTicket;

impl<T, I> Play<Option<T>, View<T, I>> for TakeTicket {
    ghost then = { queued };
}

pub(crate) struct Look;

impl<T: Listed> Play<Option<T>, View<T, T::Item>> for Look {
    ghost then = { looked T.list T.goes_on };
}

pub(crate) struct Mark;

impl<T: Listed> Play<Option<T>, View<T, T::Item>> for Mark {
    ghost then = { marked T.list };
}

pub(crate) struct CallNext;

impl<T, I> Play<Option<T>, View<T, I>> for CallNext {
    ghost then = { called };
}

pub(crate) struct LookAtCount;

impl<T, I> Play<Option<T>, View<T, I>> for LookAtCount {
    ghost then = { counted };
}

pub(crate) struct Compare;

impl<T, I> Play<Option<T>, View<T, I>> for Compare {
    ghost then = { compared };
}

pub(crate) struct Cut;

impl<T, I> Split<View<T, I>> for Cut {
    ghost left = { split_once_more };

    ghost right = { split_off };
}

pub(crate) struct TakeIn;

impl<T, I> Join<View<T, I>> for TakeIn {
    ghost both = { joined };

    ghost spent = { spent };
}
