// What was reported of the outside, and how it goes back to a mark.
ghost use Rattle.std.specs.Prelude.{◌≡◌, ℕ, List, ◌<◌, ◌&&◌, ◌++◌, ◌∷◌, [], is_some, length, nat_eq, if◌then◌else◌, None, Some, IsSome, IsNone, IsTrue, IsFalse, IfOk, OnOk, OnErr};
ghost use Rattle.std.specs.List.{list_any};
ghost use Rattle.std.specs.Option.{option_copied};
ghost use Rattle.std.specs.Vec.{vec_capacity};
ghost use Rattle.px_sem.specs.World.{LookState as State, last_report, latched_report, report_at};
ghost use Rattle.px_sem.specs.Events.{reported};
ghost use Rattle.px_lookup.specs.Reports.{HasStayed, unmarked, with_mark, rolled_back, committed, taken};
ghost use Rattle.px_lookup.specs.Undoing.{IsAsLatched, IsChange, place_of, undone};

use crate::look_state::LookState;
use crate::report::Report;
use indexmap::IndexMap;
use px_event::{Event, Values};
use px_value::{Name, NoMemory, Value};
use std::alloc::Global;
use std::marker::Model;
use std::mem;

/// What one report changed.
#[derive(Drop)]
pub enum Change {
    /// It took the place of this one.
    Replaced { at: usize, old: Report },
    /// It was the first of its state.
    Added,
}

/// What was reported of each state, in the order in which the states were first reported.
#[derive(Drop)]
pub struct Reports {
    /// Each of them latches a value of each state.
    tolerances: Vec<u32>,
    values: IndexMap<LookState, Report>,
    /// What each report since the mark changed, in their order.
    changes: Vec<Change>,
    is_marked: bool,
    /// Where the state stands that was reported last. Mostly what is read or reported next is of it too, and then nothing is
    /// hashed, and a report copies neither a name nor arguments.
    recent: usize,
    /// Room for what is latched by the next report of a known state.
    spare: Vec<(u32, Value)>,
}

impl Model for Reports {
    ghost use Rattle.px_lookup.specs.Reports.{ReportsData};

    ghost Value = { ReportsData };

    ghost use Rattle.px_lookup.specs.Undoing.{reports_data, IsKept};

    ghost view = { reports_data };

    ghost invariant = { IsKept };
}

// Whether this state stands at a place.
fn stands_at(values: &IndexMap<LookState, Report>, at: usize, name: &Name, args: &Values) -> bool
    ensures place { IsTrue result
        → place_of (record { name = name.now; args = args.now }) values.now.entries ≡ Some at }
    ensures within { IsTrue result → at < length values.now.entries }
{
    match values.as_slice().get_index(at) {
        Some((state, _)) => state.is_of(name, args),
        None => false,
    }
}

// The report of a state, sought first at this place.
fn found<'a>(
    values: &'a IndexMap<LookState, Report>,
    first: usize,
    state: &LookState,
) -> Option<&'a Report>
    ensures { option_copied result ≡ report_at values.now.entries state.now }
{
    match values.as_slice().get_index(first) {
        Some((known, report)) if known == state => Some(report),
        _ => values.get(state),
    }
}

// A report of the state that stands at a place takes the place of the one before.
fn replace(
    alloc: Global,
    values: &mut IndexMap<LookState, Report>,
    at: usize,
    given: &Value,
    room: &mut Vec<(u32, Value)>,
) -> Result<Change, NoMemory>
    requires within { at < length values.old.entries }
    ensures ok { (tolerances : List ℕ) (state : State) → place_of state values.old.entries ≡ Some at
        → OnOk result (values.new.entries ≡ reported tolerances state given.now values.old.entries) }
    ensures change { (tolerances : List ℕ)
        → IfOk result (IsChange tolerances values.old.entries values.new.entries) }
    ensures err { OnErr result (values.new.entries ≡ values.old.entries) }
{
    let next = values[at].next(alloc, given, room)?;
    let old = mem::replace(&mut values[at], next);
    Ok(Change::Replaced { at, old })
}

// The first report of a state is put behind all others.
fn add(
    alloc: Global,
    tolerances: &[u32],
    values: &mut IndexMap<LookState, Report>,
    state: LookState,
    given: &Value,
) -> Result<Change, NoMemory>
    requires new { place_of state values.old.entries ≡ None }
    ensures ok { OnOk result (values.new.entries ≡ reported tolerances.now state given.now values.old.entries) }
    ensures change { IfOk result (IsChange tolerances.now values.old.entries values.new.entries) }
    ensures err { OnErr result (values.new.entries ≡ values.old.entries) }
{
    let report = Report::first(alloc, tolerances, given)?;
    values.insert(state, report)?;
    Ok(Change::Added)
}

// Puts a report of this state in its place.
fn put_state(
    alloc: Global,
    tolerances: &[u32],
    values: &mut IndexMap<LookState, Report>,
    recent: &mut usize,
    room: &mut Vec<(u32, Value)>,
    state: LookState,
    given: &Value,
) -> Result<Change, NoMemory>
    ensures ok { OnOk result (values.new.entries ≡ reported tolerances.now state given.now values.old.entries) }
    ensures change { IfOk result (IsChange tolerances.now values.old.entries values.new.entries) }
    ensures err { OnErr result (values.new.entries ≡ values.old.entries) }
{
    match values.get_index_of(&state) {
        Some(at) => {
            drop(state);
            *recent = at;
            replace(alloc, values, at, given, room)
        }
        None => add(alloc, tolerances, values, state, given),
    }
}

// Puts a report in its place. It is sought first where the state stands that was reported last.
fn put(
    alloc: Global,
    tolerances: &[u32],
    values: &mut IndexMap<LookState, Report>,
    recent: &mut usize,
    room: &mut Vec<(u32, Value)>,
    name: &Name,
    args: &Values,
    given: &Value,
) -> Result<Change, NoMemory>
    ensures ok { OnOk result (values.new.entries
        ≡ reported tolerances.now (record { name = name.now; args = args.now }) given.now values.old.entries) }
    ensures change { IfOk result (IsChange tolerances.now values.old.entries values.new.entries) }
    ensures err { OnErr result (values.new.entries ≡ values.old.entries) }
{
    if stands_at(values, *recent, name, args) {
        return replace(alloc, values, *recent, given, room);
    }
    let state = LookState::new(name.copy(alloc)?, args.copy(alloc)?);
    put_state(alloc, tolerances, values, recent, room, state, given)
}

// Keeps a change where a mark stands.
fn note(changes: &mut Vec<Change>, is_marked: bool, change: Change)
    requires { length changes.old.items < vec_capacity changes.old }
    ensures { changes.new.items
        ≡ (if is_marked then changes.old.items ++ change ∷ [] else changes.old.items) }
{
    if is_marked {
        changes.push_reserved(change);
    }
}

// Takes a change back.
fn undo(values: &mut IndexMap<LookState, Report>, change: Change)
    ensures { values.new.entries ≡ undone change values.old.entries }
{
    match change {
        Change::Replaced { at, old } => {
            if at < values.len() {
                values[at] = old;
            }
        }
        Change::Added => {
            values.pop();
        }
    }
}

// Two values that may be there are the same.
fn is_same(a: Option<&Value>, b: Option<&Value>) -> bool
    ensures { IsTrue result → option_copied a.entry ≡ option_copied b.entry }
{
    match (a, b) {
        (Some(a), Some(b)) => a == b,
        (None, None) => true,
        _ => false,
    }
}

// Whether what a tolerance has latched is as before a change.
fn has_stayed(values: &IndexMap<LookState, Report>, change: &Change, tolerance: u32) -> bool
    ensures { IsTrue result → IsAsLatched values.now.entries tolerance change.now }
{
    match change {
        Change::Replaced { at, old } => match values.get_index(*at) {
            Some((_, now)) => is_same(old.latched(tolerance), now.latched(tolerance)),
            None => true,
        },
        Change::Added => false,
    }
}

impl Reports {
    /// Nothing was reported. Each of these tolerances latches a value of each state.
    pub fn new(alloc: Global, tolerances: Vec<u32>) -> Reports
        ensures { result ≡ unmarked tolerances.items [] }
    {
        Reports {
            tolerances,
            values: IndexMap::new(alloc),
            changes: Vec::new(alloc),
            is_marked: false,
            recent: 0,
            spare: Vec::new(alloc),
        }
    }

    /// The last value of a state; None exactly where it was never reported.
    pub fn last(&self, state: &LookState) -> Option<&Value>
        ensures { option_copied result ≡ last_report self.now.reports state.now }
    {
        match found(&self.values, self.recent, state) {
            Some(report) => Some(report.last()),
            None => None,
        }
    }

    /// The value of a state that a tolerance has latched; None exactly where the state was never reported, and where the
    /// tolerance is none of those that latch. It takes no memory.
    pub fn latched(&self, state: &LookState, tolerance: u32) -> Option<&Value>
        ensures value { option_copied result ≡ latched_report self.now.reports state.now tolerance }
        ensures there { is_some result
            ≡ (is_some (report_at self.now.reports state.now) && list_any (nat_eq tolerance) self.now.tolerances) }
    {
        match found(&self.values, self.recent, state) {
            Some(report) => report.latched(tolerance),
            None => None,
        }
    }

    /// Whether a value that a tolerance has latched may be another than at the mark: false only where each is the same.
    pub fn has_moved(&self, tolerance: u32) -> bool
        requires { IsSome self.now.marked }
        ensures { IsFalse result → HasStayed self.now tolerance }
    {
        for change in &self.changes {
            if !has_stayed(&self.values, change, tolerance) {
                return true;
            }
        }
        false
    }

    /// Takes an event, which is a report or changes nothing.
    pub fn take(&mut self, alloc: Global, event: &Event) -> Result<(), NoMemory>
        ensures ok { OnOk result (self.new ≡ taken event.now self.old) }
        ensures err { OnErr result (self.new ≡ self.old) }
    {
        match event {
            Event::Report { name, args, value } => self.report(alloc, name, args, value),
            _ => Ok(()),
        }
    }

    fn report(
        &mut self,
        alloc: Global,
        name: &Name,
        args: &Values,
        value: &Value,
    ) -> Result<(), NoMemory>
        ensures ok { OnOk result (self.new.reports ≡ reported self.old.tolerances
            (record { name = name.now; args = args.now }) value.now self.old.reports) }
        ensures tolerances { self.new.tolerances ≡ self.old.tolerances }
        ensures marked { self.new.marked ≡ self.old.marked }
        ensures err { OnErr result (self.new ≡ self.old) }
    {
        self.changes.reserve(1)?;
        let change = put(
            alloc,
            &self.tolerances,
            &mut self.values,
            &mut self.recent,
            &mut self.spare,
            name,
            args,
            value,
        )?;
        note(&mut self.changes, self.is_marked, change);
        Ok(())
    }

    /// Marks the reports as those to go back to.
    pub fn mark(&mut self)
        requires { IsNone self.old.marked }
        ensures { self.new ≡ with_mark self.old }
    {
        self.is_marked = true;
    }

    /// Goes back to the reports at the mark, and ends it.
    pub fn rollback(&mut self)
        requires { IsSome self.old.marked }
        ensures { self.new ≡ rolled_back self.old }
    {
        while let Some(change) = self.changes.pop() {
            undo(&mut self.values, change);
        }
        self.is_marked = false;
    }

    /// Keeps the present reports, and ends the mark.
    pub fn commit(&mut self)
        requires { IsSome self.old.marked }
        ensures { self.new ≡ committed self.old }
    {
        if !self.tolerances.is_empty()
            && let Some(Change::Replaced { old, .. }) = self.changes.pop()
        {
            self.spare = old.into_room();
        }
        self.changes.clear();
        self.is_marked = false;
    }

    /// Forgets all reports, and ends a mark. It takes no memory.
    pub fn clear(&mut self)
        ensures { self.new ≡ unmarked self.old.tolerances [] }
    {
        self.values.clear();
        self.changes.clear();
        self.is_marked = false;
    }
}
