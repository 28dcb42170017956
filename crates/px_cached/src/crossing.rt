// Which watchers of a name a report crosses: those that turn between what was reported before and what is now.
ghost use Rattle.std.specs.Prelude.{◌≡◌, ℕ, ◌+◌, ◌<◌, ◌≤◌, true, false, length, All, HoldsAt, IsTrue, ◌⊎◌};
ghost use Rattle.std.specs.List.{AllWithin};
ghost use Rattle.px_links.specs.Links.{is_absent};
ghost use Rattle.px_cached.specs.Still.{IsAsking, IsStill};
ghost use Rattle.px_cached.specs.Watching.{HasTold, IsReading, Recalls};

use crate::still::Asker;
use crate::watching::{Watch, Watcher};
use px_links::Links;

// Whether the kept truth of a watcher tells that its number was reached before, or that it wasn't. False says nothing.
fn has_told(asker: &Asker<'_>, stale: &Links, reached: bool, watcher: &Watcher) -> bool
    requires asking { IsAsking asker.now }
    requires parts { stale.now.cells ≡ length asker.now.parts.now }
    requires within { watcher.now.part < length asker.now.parts.now }
    ensures { IsTrue result → HasTold asker.now stale.now reached watcher.now }
{
    stale.holds(watcher.part).is_none()
        && asker.truths[watcher.part as usize] == Some(watcher.turn.truth == reached)
}

// The place behind the last watcher before this one that tells that its number was reached.
fn crossed_from(asker: &Asker<'_>, stale: &Links, watchers: &[Watcher], split: usize) -> usize
    requires asking { IsAsking asker.now }
    requires parts { stale.now.cells ≡ length asker.now.parts.now }
    requires within { All (λ watcher. watcher.part < length asker.now.parts.now) watchers.now }
    requires split { split ≤ length watchers.now }
    ensures bound { result ≤ split }
    ensures told { (at : ℕ) → result ≡ at + 1 → HoldsAt (HasTold asker.now stale.now true) watchers.now at }
{
    let mut from = split;
    while from > 0 && !has_told(asker, stale, true, &watchers[from - 1]) {
        from -= 1;
    }
    from
}

// The place of the first watcher from this one on that tells that its number wasn't reached.
fn crossed_to(asker: &Asker<'_>, stale: &Links, watchers: &[Watcher], split: usize) -> usize
    requires asking { IsAsking asker.now }
    requires parts { stale.now.cells ≡ length asker.now.parts.now }
    requires within { All (λ watcher. watcher.part < length asker.now.parts.now) watchers.now }
    requires split { split ≤ length watchers.now }
    ensures bounds { (split ≤ result) × (result ≤ length watchers.now) }
    ensures told { result < length watchers.now → HoldsAt (HasTold asker.now stale.now false) watchers.now result }
{
    let mut to = split;
    while to < watchers.len() && !has_told(asker, stale, false, &watchers[to]) {
        to += 1;
    }
    to
}

/// From where to where the watchers stand that a report of this number may cross. Nothing keeps the number before: their kept
/// truths tell how far it was away.
pub(crate) fn crossed(
    asker: &Asker<'_>,
    stale: &Links,
    watch: &Watch,
    number: i32,
) -> (usize, usize)
    requires asking { IsAsking asker.now }
    requires parts { stale.now.cells ≡ length asker.now.parts.now }
    requires recalls { Recalls asker.now stale.now }
    requires reading { IsReading asker.now watch.now number }
    ensures bounds { (result.0 ≤ result.1) × (result.1 ≤ length watch.now.watchers.items) }
    ensures below { AllWithin (λ watcher. (is_absent stale.now watcher.part ≡ false) ⊎ IsStill asker.now watcher.part)
        watch.now.watchers.items 0 result.0 }
    ensures above { AllWithin (λ watcher. (is_absent stale.now watcher.part ≡ false) ⊎ IsStill asker.now watcher.part)
        watch.now.watchers.items result.1 (length watch.now.watchers.items) }
{
    let number = i64::from(number);
    let split = watch
        .watchers
        .partition_point(|watcher| watcher.turn.from <= number);
    (
        crossed_from(asker, stale, &watch.watchers, split),
        crossed_to(asker, stale, &watch.watchers, split),
    )
}
