// The queue of nodes: those that are behind, and those that are woken.
ghost use Rattle.std.specs.Prelude.{◌≡◌, ℕ, ◌<◌, length, Some, All, IfOk};
ghost use Rattle.px_links.specs.Links.{SameCounts, first_of};
ghost use Rattle.px_machine.specs.Queue.{HasPassed, HaveGone, HaveRested, HaveTheSame, IsBehind, NobodyIsBehind, NobodyIsWoken};

use px_links::Links;
use px_micro::Going;
use px_value::NoMemory;
use std::alloc::Global;

/// The list of nodes that are to be caught up: their record or a condition may not be as it was when they were last.
pub(crate) const BEHIND: u32 = 0;

/// The list of nodes that are to be looked at: they may go.
pub(crate) const WOKEN: u32 = 1;

/// A queue of so many nodes, all of which are behind.
pub(crate) fn all_behind(alloc: Global, nodes: u32) -> Result<Links, NoMemory>
    ensures cells { IfOk result (λ queue. queue.cells ≡ nodes) }
    ensures lists { IfOk result (λ queue. length queue.lists ≡ 2) }
    ensures all { IfOk result (λ queue. (node : ℕ) → node < nodes → IsBehind queue node) }
{
    let mut queue = Links::new(alloc, nodes, 2)?;
    for node in 0..nodes {
        queue.push_back_absent(BEHIND, node);
    }
    Ok(queue)
}

/// Whoever is woken falls behind. A step for which there was no memory leaves such nodes, and a node that waits in one list
/// can't be put into the other.
pub(crate) fn recall(queue: &mut Links)
    requires { length queue.old.lists ≡ 2 }
    ensures nobody { NobodyIsWoken queue.new }
    ensures same { HaveTheSame queue.old queue.new }
    ensures counts { SameCounts queue.old queue.new }
{
    'woken: while let Some(node) = queue.pop_front(WOKEN) {
        queue.push_back_absent(BEHIND, node);
    }
}

/// Wakes a node, which is the first of those that are behind.
pub(crate) fn pass(queue: &mut Links, node: u32)
    requires lists { length queue.old.lists ≡ 2 }
    requires node { node < queue.old.cells }
    requires first { first_of queue.old 0 ≡ Some node }
    ensures { HasPassed queue.old queue.new node }
{
    queue.pop_front(BEHIND);
    queue.push_back_absent(WOKEN, node);
}

/// Nobody is woken any more.
pub(crate) fn rest(queue: &mut Links)
    requires { length queue.old.lists ≡ 2 }
    ensures { HaveRested queue.old queue.new }
{
    'woken: while queue.first(WOKEN).is_some() {
        queue.pop_front(WOKEN);
    }
}

/// Nobody waits any more but those that have gone, which are behind.
pub(crate) fn have_gone(queue: &mut Links, going: &[Going])
    requires lists { length queue.old.lists ≡ 2 }
    requires nobody { NobodyIsBehind queue.old }
    requires within { All (λ one. one.node < queue.old.cells) going.now }
    ensures { HaveGone queue.old queue.new going.now }
{
    rest(queue);
    for one in going {
        queue.push_back_absent(BEHIND, one.node);
    }
}
