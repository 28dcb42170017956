// The watchers of a source, one after another.
ghost use Rattle.std.specs.Iterator.{YieldsFirst, item_count};

use px_links::Links;
use std::marker::Model;

/// Goes over the watchers of a source in the order in which they were added. It is seen as those that are left.
#[derive(Drop)]
pub struct Dependents<'a> {
    pub(crate) links: &'a Links,
    pub(crate) watcher_of: &'a [u32],
    /// The cell of the next one.
    pub(crate) at: Option<u32>,
}

impl<'a> Model for Dependents<'a> {
    ghost use Rattle.std.specs.Prelude.{ℕ, List};

    ghost Value = { List ℕ };

    ghost use Rattle.px_listen.specs.Walking.{watchers_left, IsOnTheWay};

    ghost view = { watchers_left };

    ghost invariant = { IsOnTheWay };
}

impl<'a> Iterator for Dependents<'a> {
    type Item = u32;

    ghost next_gives = { YieldsFirst (λ rest. rest) };

    ghost remaining = { item_count (λ rest. rest) };

    fn next(&mut self) -> Option<u32> {
        let cell = self.at?;
        self.at = self.links.next(cell);
        Some(self.watcher_of[cell as usize])
    }
}
