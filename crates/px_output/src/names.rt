// The names of a journal's interfaces, a line for each event.
ghost use Rattle.std.specs.Prelude.{◌≡◌, ◌<◌, ◌^◌, List, [], length, map};
ghost use Rattle.px_event.specs.declared.named.NamedEntry.{NamedEntry};
ghost use Rattle.px_trace.specs.Names.{name_lines};
ghost use Rattle.px_output.specs.Printing.{Prints};
ghost use Rattle.px_output.specs.View.{view, OnlyPrints};

use crate::printer::{PrintFault, Printer};
use px_event::Entry;
use px_ports::Host;
use px_value::Name;
use std::alloc::Global;

/// Prints for each event of a history its position, its thread, its line, and the name of the interface that it came
/// through, or `-` where that has none. There are as many names as events.
///
/// `SinkFailed` comes only where an emit failed or took nothing, `NoMemory` where memory ran out; a front of the lines is
/// emitted then.
pub fn print_names<H: Host>(
    alloc: Global,
    history: &[Entry],
    names: &[Option<Name>],
    host: &mut H,
) -> Result<(), PrintFault>
    requires within { length history.now < 2 ^ 32 }
    ensures prints { (named : List NamedEntry) → map (λ it. it.entry) named ≡ history.now → map (λ it. it.name) named ≡ names.now
        → Prints (view H.Host host.old) [] (view H.Host host.new) [] (name_lines 1 named) result }
    ensures only { OnlyPrints (view H.Host host.old) (view H.Host host.new) }
{
    let mut printer = Printer::new(alloc);
    print_lines(history, names, &mut printer, host)?;
    printer.finish(host)
}

// Prints the lines, the end of which may stay with the printer.
fn print_lines<H: Host>(
    mut history: &[Entry],
    mut names: &[Option<Name>],
    printer: &mut Printer,
    host: &mut H,
) -> Result<(), PrintFault>
    requires within { length history.now < 2 ^ 32 }
    ensures prints { (named : List NamedEntry) → map (λ it. it.entry) named ≡ history.entry.now → map (λ it. it.name) named ≡ names.entry.now
        → Prints (view H.Host host.old) printer.old (view H.Host host.new) printer.new (name_lines 1 named) result }
    ensures only { OnlyPrints (view H.Host host.old) (view H.Host host.new) }
{
    let mut position = 0;
    while let [entry, later @ ..] = history {
        let [name, others @ ..] = names else {
            break;
        };
        position += 1;
        printer.name(host, position, entry, name.as_ref())?;
        history = later;
        names = others;
    }
    Ok(())
}
