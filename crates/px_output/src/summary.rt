// The summary of a soak, which tells of a log in four lines. The stepper runs the history once more to count its micro
// steps, so that no counts are kept.
ghost use Rattle.std.specs.Prelude.{◌≡◌, ◌<◌, ◌≤◌, ◌^◌, ◌++◌, List, [], length, not, IfOk, OnOk, IsSome, IsTrue, Some, codes};
ghost use Rattle.std.specs.List.{count_by, list_all};
ghost use Rattle.std.specs.String.{string_bytes};
ghost use Rattle.px_event.specs.Fit.{is_fit_entry};
ghost use Rattle.px_event.specs.declared.entry.Entry.{Entry as Posted};
ghost use Rattle.px_sem.specs.Log.{events_of, accepted, is_accepted, HasRun};
ghost use Rattle.px_sem.specs.Run.{run, settled};
ghost use Rattle.px_sem.specs.Stepper.{Pending, is_pending, settled_state};
ghost use Rattle.px_value.specs.Name.{is_name};
ghost use Rattle.px_output.specs.Printing.{Prints};
ghost use Rattle.px_output.specs.Summary.{refused_count, steps_of, sum_in, four_lines, summary_lines, summary};
ghost use Rattle.px_output.specs.View.{view, OnlyPrints};

use crate::printer::{PrintFault, emit_all};
use px_event::{Entry, Reply};
use px_ports::Host;
use px_sem::{LogEntry, Stepper};
use px_value::{Name, NameFault, NoMemory, Path};
use std::alloc::{AllocError, Global};

/// Prints the summary of a log that goes on from a history: the number of events of the whole history, which ends with the
/// accepted entries of the log; how many entries of the log were refused; the micro steps of the start and of all events; and
/// the Integer that the variable `sum` of the node `Soak` holds, or 0. The stepper has run the history.
///
/// `SinkFailed` comes only where an emit failed or took nothing, `NoMemory` where memory ran out; a front of the text is
/// emitted then, and the stepper is anywhere in the run.
pub fn print_summary<H: Host, S: Stepper>(
    alloc: Global,
    stepper: &mut S,
    history: &[Entry],
    log: &[LogEntry],
    host: &mut H,
) -> Result<(), PrintFault>
    requires events { IsTrue (list_all is_fit_entry history.now) }
    requires within { length history.now < 2 ^ 32 }
    requires runs { HasRun (S.state stepper.old).nodes history.now (S.state stepper.old) }
    ensures prints { (before : List Posted) → history.now ≡ before ++ accepted log.now
        → Prints (view H.Host host.old) [] (view H.Host host.new) []
        (summary (S.state stepper.old).nodes before log.now) result }
    ensures only { OnlyPrints (view H.Host host.old) (view H.Host host.new) }
{
    let text = summary_lines(alloc, stepper, history, log)?;
    emit_all(host, text.as_bytes())
}

#[tactic(auto, using(crate::proofs::Counting::sum_is))]
fn summary_lines<S: Stepper>(
    alloc: Global,
    stepper: &mut S,
    history: &[Entry],
    log: &[LogEntry],
) -> Result<String, NoMemory>
    requires events { IsTrue (list_all is_fit_entry history.now) }
    requires within { length history.now < 2 ^ 32 }
    requires runs { HasRun (S.state stepper.old).nodes history.now (S.state stepper.old) }
    ensures { IfOk result (λ text. string_bytes text
        ≡ summary_lines (S.state stepper.old).nodes history.now log.now) }
{
    let events = history.len();
    let refused = refused_count(log);
    let sum = sum_in(alloc, stepper)?;
    let steps = count_steps(alloc, stepper, history)?;
    four_lines(alloc, events, refused, steps, sum)
}

fn four_lines(
    alloc: Global,
    events: usize,
    refused: usize,
    steps: u64,
    sum: i32,
) -> Result<String, NoMemory>
    ensures { IfOk result (λ text. string_bytes text ≡ four_lines events refused steps sum) }
{
    format!(in alloc;
        "soak events {events}\nsoak refused {refused}\nsoak steps {steps}\nsoak sum {sum}\n"
    )
}

fn refused_count(log: &[LogEntry]) -> usize
    ensures { result ≡ refused_count log.now }
{
    log.iter()
        .filter(|logged| is_refused(&logged.reply))
        .count()
}

fn is_refused(reply: &Reply) -> bool
    ensures { result ≡ not (is_accepted reply.now) }
{
    !matches!(reply, Reply::Accepted { .. })
}

// What the sum is in the world of the stepper.
fn sum_in<S: Stepper>(alloc: Global, stepper: &S) -> Result<i32, NoMemory>
    ensures { IfOk result (λ sum. sum ≡ sum_in (S.state stepper.now).nodes (S.state stepper.now).world) }
{
    let owner = Path::root(alloc, &name(alloc, "Soak")?)?;
    let variable = name(alloc, "sum")?;
    Ok(stepper.integer(&owner, &variable).unwrap_or(0))
}

fn name(alloc: Global, text: &str) -> Result<Name, NoMemory>
    requires { IsTrue (is_name text.now) }
    ensures { IfOk result (λ name. name ≡ text.now) }
{
    match Name::new(alloc, text) {
        Ok(name) => Ok(name),
        Err(NameFault::NoMemory) => Err(AllocError),
        Err(NameFault::NotAName) => unreachable!(),
    }
}

// How many micro steps the start and the events of a history take.
fn count_steps<S: Stepper>(
    alloc: Global,
    stepper: &mut S,
    history: &[Entry],
) -> Result<u64, NoMemory>
    requires nothing { (S.state stepper.old).pending ≡ Pending.Nothing }
    requires events { IsTrue (list_all is_fit_entry history.now) }
    requires within { length history.now < 2 ^ 32 }
    requires runs { IsSome (run (S.state stepper.old).nodes (events_of history.now)) }
    ensures { IfOk result (λ steps. steps ≡ steps_of (S.state stepper.old).nodes (events_of history.now)) }
{
    stepper.rewind();
    let mut steps = u64::from(settle(alloc, stepper)?);
    for entry in history {
        stepper.begin(alloc, &entry.event)?;
        steps += u64::from(settle(alloc, stepper)?);
    }
    Ok(steps)
}

// Steps until the world is quiet, makes it the settled one, and answers how many micro steps there were.
fn settle<S: Stepper>(alloc: Global, stepper: &mut S) -> Result<u32, NoMemory>
    requires pending { IsTrue (is_pending (S.state stepper.old).pending) }
    requires settles { IsSome (settled (S.state stepper.old).nodes (S.state stepper.old).world) }
    ensures settled { IfOk result (λ count.
        settled (S.state stepper.old).nodes (S.state stepper.old).world ≡ Some ((S.state stepper.new).world, count)) }
    ensures rest { OnOk result
        (S.state stepper.new ≡ settled_state (S.state stepper.old).nodes (S.state stepper.new).world) }
    ensures few { IfOk result (λ count. count ≤ 100000) }
{
    let mut count = 0;
    while stepper.step(alloc)? {
        count += 1;
    }
    stepper.settle();
    Ok(count)
}
