// What depends on touched sources, noted to be looked at again.
ghost use Rattle.std.specs.Prelude.{◌≡◌, ℕ, ◌+◌, ◌<◌, ◌≤◌, false, length, map, sum, sum_by, All, IfOk, IfSome, ◌⊎◌};
ghost use Rattle.std.specs.List.{range_with_len};
ghost use Rattle.px_flat.specs.Flat.{plan_of};
ghost use Rattle.px_links.specs.Links.{is_absent, SameCounts};
ghost use Rattle.px_listen.specs.Listening.{dependents_of};
ghost use Rattle.px_cached.specs.Costs.{in_all};
ghost use Rattle.px_cached.specs.Noticing.{IsNoticed};
ghost use Rattle.px_cached.specs.Still.{IsAsking, IsLastRead, IsStill};
ghost use Rattle.px_cached.specs.Watching.{AreWatching, IsReading, Recalls, parts_of};

use crate::crossing::crossed;
use crate::still::{Asker, LastRead, is_still, last_read};
use crate::watching::Watch;
use px_links::Links;
use px_listen::{Dependents, Listeners};
use px_value::{NoMemory, Value};
use std::alloc::Global;

/// The one list of what is noted.
pub(crate) const NOTED: u32 = 0;

/// So many numbers, all noted.
pub(crate) fn all_noted(alloc: Global, count: u32) -> Result<Links, NoMemory>
    ensures cells { IfOk result (λ made. made.cells ≡ count) }
    ensures lists { IfOk result (λ made. length made.lists ≡ 1) }
    ensures all { IfOk result (λ made. (number : ℕ) → number < count → is_absent made number ≡ false) }
    ensures owed { IfOk result (λ made. (cost : ℕ → ℕ) → in_all cost made ≤ sum (map cost (range_with_len 0 count))) }
{
    let mut noted = Links::new(alloc, count, 1)?;
    for number in 0..count {
        noted.push_back_absent(NOTED, number);
    }
    Ok(noted)
}

// Notes a part, but where its truth stays.
fn note_part(asker: &Asker<'_>, last: &Option<LastRead>, part: u32, stale: &mut Links)
    requires asking { IsAsking asker.now }
    requires last { IfSome last.now (IsLastRead asker.now) }
    requires part { part < stale.old.cells }
    requires list { 0 < length stale.old.lists }
    requires parts { stale.old.cells ≡ length asker.now.parts.now }
    ensures noted { (is_absent stale.new part ≡ false) ⊎ IsStill asker.now part }
    ensures still { (other : ℕ) → is_absent stale.old other ≡ false → is_absent stale.new other ≡ false }
    ensures owed { (cost : ℕ → ℕ) → in_all cost stale.new ≤ in_all cost stale.old + cost part }
    ensures counts { SameCounts stale.old stale.new }
{
    if !is_still(asker, last, part) {
        stale.push_back_absent(NOTED, part);
    }
}

// Notes dependents, but for those whose truth stays.
fn note_changed(
    asker: &Asker<'_>,
    last: &Option<LastRead>,
    dependents: Dependents<'_>,
    stale: &mut Links,
)
    requires asking { IsAsking asker.now }
    requires last { IfSome last.now (IsLastRead asker.now) }
    requires within { All (λ part. part < stale.old.cells) dependents }
    requires list { 0 < length stale.old.lists }
    requires parts { stale.old.cells ≡ length asker.now.parts.now }
    ensures noted { All (λ part. (is_absent stale.new part ≡ false) ⊎ IsStill asker.now part) dependents.entry }
    ensures still { (part : ℕ) → is_absent stale.old part ≡ false → is_absent stale.new part ≡ false }
    ensures owed { (cost : ℕ → ℕ) → in_all cost stale.new ≤ in_all cost stale.old + sum_by cost dependents.entry }
    ensures counts { SameCounts stale.old stale.new }
{
    for part in dependents {
        note_part(asker, last, part, stale);
    }
}

// The same of those in a watch that are no watchers.
fn note_others(asker: &Asker<'_>, last: &Option<LastRead>, others: &[u32], stale: &mut Links)
    requires asking { IsAsking asker.now }
    requires last { IfSome last.now (IsLastRead asker.now) }
    requires within { All (λ part. part < stale.old.cells) others.now }
    requires list { 0 < length stale.old.lists }
    requires parts { stale.old.cells ≡ length asker.now.parts.now }
    ensures noted { All (λ part. (is_absent stale.new part ≡ false) ⊎ IsStill asker.now part) others.now }
    ensures still { (part : ℕ) → is_absent stale.old part ≡ false → is_absent stale.new part ≡ false }
    ensures owed { (cost : ℕ → ℕ) → in_all cost stale.new ≤ in_all cost stale.old + sum_by cost others.now }
    ensures counts { SameCounts stale.old stale.new }
{
    for part in others {
        note_part(asker, last, *part, stale);
    }
}

// Notes the watchers that a report of this number may cross.
fn note_crossed(asker: &Asker<'_>, watch: &Watch, number: i32, stale: &mut Links)
    requires asking { IsAsking asker.now }
    requires recalls { Recalls asker.now stale.old }
    requires reading { IsReading asker.now watch.now number }
    requires list { 0 < length stale.old.lists }
    requires parts { stale.old.cells ≡ length asker.now.parts.now }
    ensures noted { All (λ watcher. (is_absent stale.new watcher.part ≡ false) ⊎ IsStill asker.now watcher.part)
        watch.now.watchers.items }
    ensures still { (part : ℕ) → is_absent stale.old part ≡ false → is_absent stale.new part ≡ false }
    ensures owed { (cost : ℕ → ℕ) → in_all cost stale.new
        ≤ in_all cost stale.old + sum_by (λ watcher. cost watcher.part) watch.now.watchers.items }
    ensures counts { SameCounts stale.old stale.new }
{
    let (from, to) = crossed(asker, stale, watch, number);
    for at in from..to {
        let watcher = watch.watchers[at];
        stale.push_back_absent(NOTED, watcher.part);
    }
}

// Notes the parts that read what is reported under a name, but for those whose truth stays, where this number is reported.
fn note_watch(
    asker: &Asker<'_>,
    last: &Option<LastRead>,
    watch: &Watch,
    number: i32,
    stale: &mut Links,
)
    requires asking { IsAsking asker.now }
    requires last { IfSome last.now (IsLastRead asker.now) }
    requires recalls { Recalls asker.now stale.old }
    requires reading { IsReading asker.now watch.now number }
    requires list { 0 < length stale.old.lists }
    requires parts { stale.old.cells ≡ length asker.now.parts.now }
    ensures noted { All (λ part. (is_absent stale.new part ≡ false) ⊎ IsStill asker.now part) (parts_of watch.now) }
    ensures still { (part : ℕ) → is_absent stale.old part ≡ false → is_absent stale.new part ≡ false }
    ensures owed { (cost : ℕ → ℕ) → in_all cost stale.new ≤ in_all cost stale.old + sum_by cost (parts_of watch.now) }
    ensures counts { SameCounts stale.old stale.new }
{
    note_others(asker, last, &watch.others, stale);
    note_crossed(asker, watch, number, stale);
}

// Notes the dependents of a source, but for those whose truth stays.
fn note(
    alloc: Global,
    asker: &Asker<'_>,
    listeners: &Listeners,
    watches: &[Watch],
    source: u32,
    stale: &mut Links,
)
    requires asking { IsAsking asker.now }
    requires recalls { Recalls asker.now stale.old }
    requires watching { AreWatching (plan_of asker.now.flat.now) asker.now.parts.now listeners.now watches.now }
    requires source { source < length listeners.now.dependents }
    requires within { All (λ part. part < stale.old.cells) (dependents_of listeners.now source) }
    requires list { 0 < length stale.old.lists }
    requires parts { stale.old.cells ≡ length asker.now.parts.now }
    ensures noted { All (λ part. (is_absent stale.new part ≡ false) ⊎ IsStill asker.now part)
        (dependents_of listeners.now source) }
    ensures still { (part : ℕ) → is_absent stale.old part ≡ false → is_absent stale.new part ≡ false }
    ensures owed { (cost : ℕ → ℕ) → in_all cost stale.new
        ≤ in_all cost stale.old + sum_by cost (dependents_of listeners.now source) }
    ensures counts { SameCounts stale.old stale.new }
{
    let last = last_read(alloc, asker, source);
    match &last {
        Some(
            LastRead {
                lookup,
                value: Value::Integer(number),
            },
        ) => note_watch(asker, &last, &watches[*lookup as usize], *number, stale),
        _ => note_changed(asker, &last, listeners.dependents(source), stale),
    }
}

/// Notes what depends on touched sources, of which none is left, but for what has its kept truth now.
pub(crate) fn notice(
    alloc: Global,
    asker: &Asker<'_>,
    touched: &mut Links,
    listeners: &Listeners,
    watches: &[Watch],
    stale: &mut Links,
)
    requires asking { IsAsking asker.now }
    requires recalls { Recalls asker.now stale.old }
    requires watching { AreWatching (plan_of asker.now.flat.now) asker.now.parts.now listeners.now watches.now }
    requires sources { touched.old.cells ≡ length listeners.now.dependents }
    requires one { length touched.old.lists ≡ 1 }
    requires watchers { listeners.now.watchers ≡ stale.old.cells }
    requires list { 0 < length stale.old.lists }
    requires parts { stale.old.cells ≡ length asker.now.parts.now }
    ensures { IsNoticed (IsStill asker.now) listeners.now touched.old touched.new stale.old stale.new }
{
    listeners.each_once();
    'touched: while let Some(source) = touched.pop_front(NOTED) {
        note(alloc, asker, listeners, watches, source, stale);
    }
}
