// The table of events: what is told of a command or of an update.
ghost use Rattle.std.specs.Prelude.{◌≡◌, ◌<◌, ◌^◌, length, OnOk, OnErr, IfSome, IsTrue};
ghost use Rattle.std.specs.Option.{ForSome, option_and_then};
ghost use Rattle.px_event.specs.declared.event.Event.TheVariants as events;
ghost use Rattle.px_flat.specs.Flat.{plan_of};
ghost use Rattle.px_flat.specs.Layout.{all_cells, state_cell};
ghost use Rattle.px_flat.specs.Numbered.{held};
ghost use Rattle.px_flat.specs.NumberedData.{body_data, target_data};
ghost use Rattle.px_flat.specs.Parts.{IsParts, state_in};
ghost use Rattle.px_flat.specs.Row.{site_in, number_at};
ghost use Rattle.px_command.specs.Counting.{is_sent};
ghost use Rattle.px_command.specs.Results.{aborted, cell_in, result_slot};
ghost use Rattle.px_command.specs.Taking.{IsTaken, path_of};

use crate::actions::Actions;
use crate::counting::{abort_done_counts, acknowledgement_counts, handle_counts, return_counts};
use crate::kinds::as_kind;
use px_cells::Cells;
use px_core::VarKind;
use px_event::Event;
use px_flat::{Abort, Act, Flat, NumberedBody, NumberedTarget};
use px_value::{Handle, NoMemory, NodeState, Value};
use std::alloc::Global;

// The node of which an event tells, if the plan has it.
fn told_of(flat: &Flat, event: &Event) -> Option<u32>
    ensures node { result ≡ option_and_then (number_at (plan_of flat.now)) (path_of event.now) }
    ensures within { IfSome result (λ node. node < length (plan_of flat.now)) }
{
    match event {
        Event::Report { .. } => None,
        Event::Handle { node, .. }
        | Event::Return { node, .. }
        | Event::AbortDone { node }
        | Event::Acknowledged { node } => flat.number_of(node),
    }
}

fn state_of(flat: &Flat, cells: &Cells, node: u32) -> NodeState
    requires node { node < length (plan_of flat.now) }
    requires cells { length cells.now.contents.values ≡ all_cells (plan_of flat.now) }
    ensures { result ≡ state_in (held cells.now.contents.values (state_cell (plan_of flat.now) node)) }
{
    match cells.get(flat.state_cell(node)) {
        Value::State(state) => *state,
        _ => NodeState::Inactive,
    }
}

// The cell of a target: of an array that of the element whose index was taken.
fn cell_in(target: &NumberedTarget, taken: Option<u32>) -> Option<u32>
    requires { ForSome (cell_in (target_data target.now) taken) (λ cell. cell < 2 ^ 32) }
    ensures { result ≡ cell_in (target_data target.now) taken }
{
    match &target.index {
        None => Some(target.first),
        Some(_) => match taken {
            Some(index) => Some(target.first + index),
            None => None,
        },
    }
}

// The cell to which what a command returns goes, and the type of its variable.
fn result_slot(body: &NumberedBody, act: &Act) -> Option<(u32, VarKind)>
    requires { ForSome (result_slot (body_data body.now) act.now) (λ slot. slot.0 < 2 ^ 32) }
    ensures { result ≡ result_slot (body_data body.now) act.now }
{
    let NumberedBody::Command { result, .. } = body else {
        return None;
    };
    let Some(target) = result else {
        return None;
    };
    let Act::Sent { index, .. } = act else {
        return None;
    };
    match cell_in(target, *index) {
        Some(cell) => Some((cell, target.kind)),
        None => None,
    }
}

// A command whose abort is done.
fn aborted(act: &Act) -> Act
    requires { IsTrue (is_sent act.now) }
    ensures { result ≡ aborted act.now }
{
    let index = match act {
        Act::Sent { index, .. } => *index,
        _ => None,
    };
    Act::Sent {
        index,
        abort: Abort::Done,
    }
}

impl Actions {
    /// Takes an event: what is told of a command or of an update that is at work (PLEXIL reference manual, "Commands"
    /// and "Updates"). Where it doesn't count, where the plan doesn't have the node, and where it is a report it
    /// changes nothing. What was last seen stays.
    pub fn take(
        &mut self,
        alloc: Global,
        flat: &Flat,
        cells: &mut Cells,
        event: &Event,
    ) -> Result<(), NoMemory>
        requires { IsParts (plan_of flat.now) cells.old.contents.values self.old.contents.values }
        ensures ok { OnOk result (IsTaken (plan_of flat.now) event.now
            cells.old.contents self.old.contents cells.new.contents self.new.contents) }
        ensures err_acts { OnErr result (self.new.contents ≡ self.old.contents) }
        ensures err_cells { OnErr result (cells.new.contents ≡ cells.old.contents) }
        ensures seen_acts { self.new.seen ≡ self.old.seen }
        ensures seen_cells { cells.new.seen ≡ cells.old.seen }
    {
        let Some(node) = told_of(flat, event) else {
            return Ok(());
        };
        match event {
            Event::Report { .. } => Ok(()),
            Event::Handle { handle, .. } => self.take_handle(alloc, flat, cells, node, *handle),
            Event::Return { value, .. } => self.take_return(alloc, flat, cells, node, value),
            Event::AbortDone { .. } => self.take_abort_done(alloc, flat, cells, node),
            Event::Acknowledged { .. } => self.take_acknowledgement(alloc, flat, cells, node),
        }
    }

    fn take_handle(
        &self,
        alloc: Global,
        flat: &Flat,
        cells: &mut Cells,
        node: u32,
        handle: Handle,
    ) -> Result<(), NoMemory>
        requires node { node < length (plan_of flat.now) }
        requires parts { IsParts (plan_of flat.now) cells.old.contents.values self.now.contents.values }
        ensures ok { OnOk result (IsTaken (plan_of flat.now)
            (events.Handle (site_in (plan_of flat.now) node).path handle)
            cells.old.contents self.now.contents cells.new.contents self.now.contents) }
        ensures err { OnErr result (cells.new.contents ≡ cells.old.contents) }
        ensures seen { cells.new.seen ≡ cells.old.seen }
    {
        if handle_counts(state_of(flat, cells, node), self.of(node)) {
            cells.set(alloc, flat.handle_cell(node), Value::Handle(handle))?;
        }
        Ok(())
    }

    fn take_return(
        &self,
        alloc: Global,
        flat: &Flat,
        cells: &mut Cells,
        node: u32,
        value: &Value,
    ) -> Result<(), NoMemory>
        requires node { node < length (plan_of flat.now) }
        requires parts { IsParts (plan_of flat.now) cells.old.contents.values self.now.contents.values }
        ensures ok { OnOk result (IsTaken (plan_of flat.now)
            (events.Return (site_in (plan_of flat.now) node).path value.now)
            cells.old.contents self.now.contents cells.new.contents self.now.contents) }
        ensures err { OnErr result (cells.new.contents ≡ cells.old.contents) }
        ensures seen { cells.new.seen ≡ cells.old.seen }
    {
        if return_counts(state_of(flat, cells, node)) {
            if let Some((cell, kind)) = result_slot(&flat.node(node).body, self.of(node)) {
                let taken = as_kind(alloc, kind, value)?;
                cells.set(alloc, cell, taken)?;
            }
        }
        Ok(())
    }

    fn take_abort_done(
        &mut self,
        alloc: Global,
        flat: &Flat,
        cells: &Cells,
        node: u32,
    ) -> Result<(), NoMemory>
        requires node { node < length (plan_of flat.now) }
        requires parts { IsParts (plan_of flat.now) cells.now.contents.values self.old.contents.values }
        ensures ok { OnOk result (IsTaken (plan_of flat.now)
            (events.AbortDone (site_in (plan_of flat.now) node).path)
            cells.now.contents self.old.contents cells.now.contents self.new.contents) }
        ensures err { OnErr result (self.new.contents ≡ self.old.contents) }
        ensures seen { self.new.seen ≡ self.old.seen }
    {
        let act = self.of(node);
        if abort_done_counts(state_of(flat, cells, node), act) {
            let done = aborted(act);
            self.reserve(alloc, 1)?;
            self.put(node, done);
        }
        Ok(())
    }

    fn take_acknowledgement(
        &mut self,
        alloc: Global,
        flat: &Flat,
        cells: &mut Cells,
        node: u32,
    ) -> Result<(), NoMemory>
        requires node { node < length (plan_of flat.now) }
        requires parts { IsParts (plan_of flat.now) cells.old.contents.values self.old.contents.values }
        ensures ok { OnOk result (IsTaken (plan_of flat.now)
            (events.Acknowledged (site_in (plan_of flat.now) node).path)
            cells.old.contents self.old.contents cells.new.contents self.new.contents) }
        ensures err_acts { OnErr result (self.new.contents ≡ self.old.contents) }
        ensures err_cells { OnErr result (cells.new.contents ≡ cells.old.contents) }
        ensures seen_acts { self.new.seen ≡ self.old.seen }
        ensures seen_cells { cells.new.seen ≡ cells.old.seen }
    {
        if acknowledgement_counts(state_of(flat, cells, node), &flat.node(node).body) {
            self.reserve(alloc, 1)?;
            cells.set(alloc, flat.acknowledgement_cell(node), Value::Boolean(true))?;
            self.put(node, Act::Updated);
        }
        Ok(())
    }
}
