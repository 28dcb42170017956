// The text of a log: the trace of its history, which the stepper runs once more for it, then the line of each post, and
// how the plan stands. So no trace is kept. Behind it stand the waits at which a script is stalled.
ghost use Rattle.std.specs.Prelude.{◌≡◌, ℕ, ◌<◌, ◌^◌, ◌++◌, List, [], length, IfOk, OnOk, IsSome, IsTrue, Some};
ghost use Rattle.std.specs.List.{list_all};
ghost use Rattle.px_event.specs.Fit.{is_fit_entry};
ghost use Rattle.px_event.specs.declared.entry.Entry.{Entry as Posted};
ghost use Rattle.px_sem.specs.Log.{events_of, accepted, HasRun};
ghost use Rattle.px_sem.specs.Run.{run, settled};
ghost use Rattle.px_sem.specs.Stepper.{Pending, is_pending, fresh, settled_state};
ghost use Rattle.px_sem.specs.Text.{settled_text, trace, log_lines, standing_text, text_of};
ghost use Rattle.px_output.specs.Drafts.{Holds};
ghost use Rattle.px_output.specs.Printing.{Prints, run_text};
ghost use Rattle.px_output.specs.Stalls.{stall_lines};
ghost use Rattle.px_output.specs.View.{view, OnlyPrints};

use crate::draft::Draft;
use crate::printer::{PrintFault, Printer};
use px_event::Entry;
use px_ports::Host;
use px_script::Stall;
use px_sem::{LogEntry, Standing, Stepper};
use std::alloc::Global;

/// Prints the text of a log that goes on from a history. The stepper is settled, and stands for the plan; it goes back to
/// the start, and runs the whole history, which ends with the accepted entries of the log and has to settle.
///
/// `SinkFailed` comes only where an emit failed or took nothing, `NoMemory` where memory ran out; a front of the text is
/// emitted then, and the stepper is anywhere in the run.
pub fn print_log<H: Host, S: Stepper>(
    alloc: Global,
    stepper: &mut S,
    history: &[Entry],
    log: &[LogEntry],
    host: &mut H,
) -> Result<(), PrintFault>
    requires nothing { (S.state stepper.old).pending ≡ Pending.Nothing }
    requires events { IsTrue (list_all is_fit_entry history.now) }
    requires within { length history.now < 2 ^ 32 }
    requires runs { IsSome (run (S.state stepper.old).nodes (events_of history.now)) }
    ensures stands { OnOk result (HasRun (S.state stepper.old).nodes history.now (S.state stepper.new)) }
    ensures prints { (before : List Posted) → history.now ≡ before ++ accepted log.now
        → Prints (view H.Host host.old) [] (view H.Host host.new) []
        (text_of (S.state stepper.old).nodes before log.now) result }
    ensures only { OnlyPrints (view H.Host host.old) (view H.Host host.new) }
{
    let mut printer = Printer::new(alloc);
    print_text(alloc, stepper, history, log, &mut printer, host)?;
    printer.finish(host)
}

/// Prints the text of a log that goes on from a history, as `print_log` does, by the draft of its trace. Where that was given
/// up, the history is run again. The stepper has run it.
///
/// `SinkFailed` comes only where an emit failed or took nothing, `NoMemory` where memory ran out; a front of the text is
/// emitted then, and the stepper is anywhere in the run.
pub fn print_drafted<H: Host, S: Stepper>(
    alloc: Global,
    stepper: &mut S,
    draft: Draft,
    history: &[Entry],
    log: &[LogEntry],
    host: &mut H,
) -> Result<(), PrintFault>
    requires events { IsTrue (list_all is_fit_entry history.now) }
    requires within { length history.now < 2 ^ 32 }
    requires runs { HasRun (S.state stepper.old).nodes history.now (S.state stepper.old) }
    requires holds { Holds draft (trace (S.state stepper.old).nodes history.now) }
    ensures prints { (before : List Posted) → history.now ≡ before ++ accepted log.now
        → Prints (view H.Host host.old) [] (view H.Host host.new) []
        (text_of (S.state stepper.old).nodes before log.now) result }
    ensures only { OnlyPrints (view H.Host host.old) (view H.Host host.new) }
{
    match draft.into_text() {
        Some(trace) => print_gathered(alloc, trace, log, stepper.standing(), host),
        None => print_log(alloc, stepper, history, log, host),
    }
}

// Prints a trace, the line of each post, and how the plan stands.
fn print_gathered<H: Host>(
    alloc: Global,
    trace: Vec<u8>,
    log: &[LogEntry],
    standing: Standing,
    host: &mut H,
) -> Result<(), PrintFault>
    ensures prints { Prints (view H.Host host.old) [] (view H.Host host.new) []
        (trace.items ++ (log_lines log.now ++ standing_text standing)) result }
    ensures only { OnlyPrints (view H.Host host.old) (view H.Host host.new) }
{
    let mut printer = Printer::new(alloc);
    printer.text(host, trace)?;
    print_end(log, standing, &mut printer, host)?;
    printer.finish(host)
}

/// Prints the text of a log that goes on from a history, as `print_log` does, and behind it a line for each wait at which a
/// thread stands.
///
/// `SinkFailed` comes only where an emit failed or took nothing, `NoMemory` where memory ran out; a front of the text is
/// emitted then, and the stepper is anywhere in the run.
pub fn print_stalled<H: Host, S: Stepper>(
    alloc: Global,
    stepper: &mut S,
    history: &[Entry],
    log: &[LogEntry],
    stalls: &[Stall],
    host: &mut H,
) -> Result<(), PrintFault>
    requires nothing { (S.state stepper.old).pending ≡ Pending.Nothing }
    requires events { IsTrue (list_all is_fit_entry history.now) }
    requires within { length history.now < 2 ^ 32 }
    requires runs { IsSome (run (S.state stepper.old).nodes (events_of history.now)) }
    ensures stands { OnOk result (HasRun (S.state stepper.old).nodes history.now (S.state stepper.new)) }
    ensures prints { (before : List Posted) → history.now ≡ before ++ accepted log.now
        → Prints (view H.Host host.old) [] (view H.Host host.new) []
        (text_of (S.state stepper.old).nodes before log.now ++ stall_lines stalls.now) result }
    ensures only { OnlyPrints (view H.Host host.old) (view H.Host host.new) }
{
    let mut printer = Printer::new(alloc);
    print_text(alloc, stepper, history, log, &mut printer, host)?;
    print_stalls(stalls, &mut printer, host)?;
    printer.finish(host)
}

// Prints the text of a log, the end of which may stay with the printer.
fn print_text<H: Host, S: Stepper>(
    alloc: Global,
    stepper: &mut S,
    history: &[Entry],
    log: &[LogEntry],
    printer: &mut Printer,
    host: &mut H,
) -> Result<(), PrintFault>
    requires nothing { (S.state stepper.old).pending ≡ Pending.Nothing }
    requires events { IsTrue (list_all is_fit_entry history.now) }
    requires within { length history.now < 2 ^ 32 }
    requires runs { IsSome (run (S.state stepper.old).nodes (events_of history.now)) }
    ensures stands { OnOk result (HasRun (S.state stepper.old).nodes history.now (S.state stepper.new)) }
    ensures prints { (before : List Posted) → history.now ≡ before ++ accepted log.now
        → Prints (view H.Host host.old) printer.old (view H.Host host.new) printer.new
        (text_of (S.state stepper.old).nodes before log.now) result }
    ensures only { OnlyPrints (view H.Host host.old) (view H.Host host.new) }
{
    stepper.rewind();
    print_trace(alloc, stepper, history, printer, host)?;
    print_end(log, stepper.standing(), printer, host)
}

// Runs the history from the start, and prints its trace.
fn print_trace<H: Host, S: Stepper>(
    alloc: Global,
    stepper: &mut S,
    history: &[Entry],
    printer: &mut Printer,
    host: &mut H,
) -> Result<(), PrintFault>
    requires fresh { S.state stepper.old ≡ fresh (S.state stepper.old).nodes }
    requires events { IsTrue (list_all is_fit_entry history.now) }
    requires within { length history.now < 2 ^ 32 }
    requires runs { IsSome (run (S.state stepper.old).nodes (events_of history.now)) }
    ensures runs { OnOk result (HasRun (S.state stepper.old).nodes history.now (S.state stepper.new)) }
    ensures prints { Prints (view H.Host host.old) printer.old (view H.Host host.new) printer.new
        (trace (S.state stepper.old).nodes history.now) result }
    ensures only { OnlyPrints (view H.Host host.old) (view H.Host host.new) }
{
    printer.start(host)?;
    print_settling(alloc, stepper, printer, host)?;
    let mut position = 0;
    for entry in history {
        position += 1;
        printer.heading(host, position, entry)?;
        stepper.begin(alloc, &entry.event)?;
        print_settling(alloc, stepper, printer, host)?;
    }
    Ok(())
}

// Steps until the world is quiet, prints each step and how many there were, and makes that world the settled one.
fn print_settling<H: Host, S: Stepper>(
    alloc: Global,
    stepper: &mut S,
    printer: &mut Printer,
    host: &mut H,
) -> Result<(), PrintFault>
    requires pending { IsTrue (is_pending (S.state stepper.old).pending) }
    requires settles { IsSome (settled (S.state stepper.old).nodes (S.state stepper.old).world) }
    ensures settled { IfOk result (λ _. ((count : ℕ) × (settled (S.state stepper.old).nodes
        (S.state stepper.old).world ≡ Some ((S.state stepper.new).world, count)))) }
    ensures rest { OnOk result
        (S.state stepper.new ≡ settled_state (S.state stepper.old).nodes (S.state stepper.new).world) }
    ensures prints { Prints (view H.Host host.old) printer.old (view H.Host host.new) printer.new
        (settled_text (S.state stepper.old).nodes (S.state stepper.old).world) result }
    ensures only { OnlyPrints (view H.Host host.old) (view H.Host host.new) }
{
    let count = print_steps(alloc, stepper, printer, host)?;
    printer.quiet(host, count)?;
    stepper.settle();
    Ok(())
}

// Steps until the world is quiet, and prints each step; answers how many there were.
fn print_steps<H: Host, S: Stepper>(
    alloc: Global,
    stepper: &mut S,
    printer: &mut Printer,
    host: &mut H,
) -> Result<u32, PrintFault>
    requires pending { IsTrue (is_pending (S.state stepper.old).pending) }
    requires settles { IsSome (settled (S.state stepper.old).nodes (S.state stepper.old).world) }
    ensures plan { (S.state stepper.new).nodes ≡ (S.state stepper.old).nodes }
    ensures pending { (S.state stepper.new).pending ≡ (S.state stepper.old).pending }
    ensures settled { IfOk result (λ count.
        settled (S.state stepper.old).nodes (S.state stepper.old).world ≡ Some ((S.state stepper.new).world, count)) }
    ensures prints { Prints (view H.Host host.old) printer.old (view H.Host host.new) printer.new
        (run_text (S.state stepper.old).nodes (S.state stepper.old).world) result }
    ensures only { OnlyPrints (view H.Host host.old) (view H.Host host.new) }
{
    let mut count = 0;
    while stepper.step(alloc)? {
        count += 1;
        printer.step(host, count, stepper.moves())?;
    }
    Ok(count)
}

// Prints the line of each post, and how the plan stands.
fn print_end<H: Host>(
    log: &[LogEntry],
    standing: Standing,
    printer: &mut Printer,
    host: &mut H,
) -> Result<(), PrintFault>
    ensures prints { Prints (view H.Host host.old) printer.old (view H.Host host.new) printer.new
        (log_lines log.now ++ standing_text standing) result }
    ensures only { OnlyPrints (view H.Host host.old) (view H.Host host.new) }
{
    print_replies(log, printer, host)?;
    printer.standing(host, standing)
}

// Prints the line of each post.
fn print_replies<H: Host>(
    log: &[LogEntry],
    printer: &mut Printer,
    host: &mut H,
) -> Result<(), PrintFault>
    ensures prints { Prints (view H.Host host.old) printer.old (view H.Host host.new) printer.new
        (log_lines log.now) result }
    ensures only { OnlyPrints (view H.Host host.old) (view H.Host host.new) }
{
    for logged in log {
        printer.reply(host, logged)?;
    }
    Ok(())
}

// Prints the line of each wait at which a thread stands.
fn print_stalls<H: Host>(
    stalls: &[Stall],
    printer: &mut Printer,
    host: &mut H,
) -> Result<(), PrintFault>
    ensures prints { Prints (view H.Host host.old) printer.old (view H.Host host.new) printer.new
        (stall_lines stalls.now) result }
    ensures only { OnlyPrints (view H.Host host.old) (view H.Host host.new) }
{
    for stall in stalls {
        printer.stall(host, stall)?;
    }
    Ok(())
}
