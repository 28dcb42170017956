// Scripts, from their bytes.
ghost use Rattle.std.specs.Prelude.{◌≡◌, ◌<◌, ◌≤◌, length, IsTrue, IfOk, IfErr, OnOk};
ghost use Rattle.px_core.specs.Fit.{IsFit};
ghost use Rattle.px_core.specs.Plan.{tree_of, sites};
ghost use Rattle.px_script.specs.Kinds.{plan_of};
ghost use Rattle.px_script.specs.Fit.{IsFitScript};
ghost use Rattle.px_script.specs.Fault.{number_of};
ghost use Rattle.px_script.specs.Script.{Threads, Fault, script, IsFaultOf};
ghost use Rattle.px_script.specs.ThreadLine.{is_thread};
ghost use Rattle.px_script.specs.Threads.{lines_in, with_line};
ghost use Rattle.px_script.specs.declared.fault.FaultKind.TheVariants.{TooManyLines};
ghost use Rattle.px_script.specs.declared.fault.ScriptFault.TheVariants.{NoMemory as OutOfMemory};

use crate::fault::{FaultKind, ScriptFault};
use crate::kinds::Kinds;
use crate::line::{Line, What};
use crate::naming::add_name;
use crate::parsed_line::{ParsedLine, read_line};
use crate::script::Script;
use crate::text::split_line;
use crate::threads::ThreadLines;
use px_core::Plan;
use px_event::Names;
use std::alloc::Global;

/// The most bytes that a script has.
pub const SCRIPT_LIMIT: usize = 16_777_216;

/// The most lines that a thread has.
pub const LINE_LIMIT: usize = 100_000;

/// The thread that lines belong to before one is named.
const FIRST_THREAD: u8 = 1;

/// Reads a script for a plan.
///
/// A line ends with a line feed or the end of the bytes; one carriage return at its end, and then blanks and tabs at
/// both ends, are dropped. Lines count from 1. A line that is then empty or begins with `#` says nothing. The others
/// are `set NAME = VALUE`, `set NAME(VALUE, ..) = VALUE` with 1 to 8 arguments, `handle PATH HANDLE`,
/// `return PATH VALUE`, `abort PATH`, `ack PATH`, `wait state PATH STATE`, `wait events N` with an N of 1 to 6 digits,
/// and `thread N` or `thread N NAME` with a number from 1 to 8. Blanks or tabs part words, and are free around `=`, `(`,
/// `,` and `)`. A NAME is an identifier of at most 64 bytes; a VALUE is `true`, `false`, `UNKNOWN` (not as an argument),
/// an integer of 32 bits in 1 to 10 decimal digits behind an optional minus, or a string as in plans. Numbers may have
/// leading zeros. The lines behind a `thread` line belong to its thread, which may come again; before the first such line
/// they belong to thread 1. A NAME behind its number names the thread of all its lines, wherever they stand.
///
/// `Fault` comes exactly where a line is at fault, and names the first such line and the kind of its fault, the first of
/// these that it has: 4, it is `thread`, a number in digits that isn't from 1 to 8, and one word behind it or none; 1, it
/// has no such shape, or is no UTF-8; 6, it names a thread otherwise than an earlier line did; 2, the plan has no node at
/// its PATH, or one of another kind than the line needs, a Command for `handle`, `return` and `abort` and an Update for
/// `ack`; 3, a VALUE is none; 5, it is the 100,001st line of its thread that posts or waits.
pub fn read_script(alloc: Global, bytes: &[u8], plan: &Plan) -> Result<Script, ScriptFault>
    requires size { length bytes.now ≤ SCRIPT_LIMIT }
    requires plan { IsFit (tree_of plan.now) }
    ensures ok { IfOk result (λ read. script (sites (tree_of plan.now)) bytes.now ≡ Threads read.threads read.names) }
    ensures fit { IfOk result (λ read. IsFitScript read) }
    ensures fault { IfErr result (IsFaultOf (script (sites (tree_of plan.now)) bytes.now)) }
{
    let kinds = Kinds::of(alloc, plan)?;
    read_lines(alloc, &kinds, bytes)
}

/// The script that the lines spell.
fn read_lines(alloc: Global, kinds: &Kinds, bytes: &[u8]) -> Result<Script, ScriptFault>
    requires { length bytes.now ≤ SCRIPT_LIMIT }
    ensures ok { IfOk result (λ read. script (plan_of kinds.now) bytes.now ≡ Threads read.threads read.names) }
    ensures fault { IfErr result (IsFaultOf (script (plan_of kinds.now) bytes.now)) }
{
    let mut lines = ThreadLines::new(alloc);
    let mut names = Names::new(alloc);
    let mut thread = FIRST_THREAD;
    let mut number = 0;
    let mut left = Some(bytes);
    while let Some(text) = left {
        let (line, behind) = split_line(text);
        number += 1;
        match read_line(alloc, kinds, lines.reported_last(thread), line)? {
            ParsedLine::Nothing => {}
            ParsedLine::Posts(event) => add_line(&mut lines, thread, number, What::Post(event))?,
            ParsedLine::Waits(cond) => add_line(&mut lines, thread, number, What::Wait(cond))?,
            ParsedLine::Thread {
                number: named,
                name,
            } => {
                add_name(&mut names, named, name, number)?;
                thread = named;
            }
            ParsedLine::Faulty(kind) => return Err(kind.at(number)),
        }
        left = behind;
    }
    Ok(Script {
        threads: lines.into_threads(alloc)?.into(),
        names,
    })
}

/// Adds a line to those of its thread, where there is room for it.
fn add_line(lines: &mut ThreadLines, thread: u8, number: u32, what: What) -> Result<(), ScriptFault>
    requires { IsTrue (is_thread thread) }
    ensures ok { OnOk result (lines.new.lines ≡ with_line lines.old.lines thread (record { number = number; what = what })) }
    ensures room { OnOk result (length (lines_in lines.old.lines thread) < LINE_LIMIT) }
    ensures fault { IfErr result (IsFaultOf (Fault number (number_of TooManyLines))) }
    ensures memory { length (lines_in lines.old.lines thread) < LINE_LIMIT → IfErr result (λ fault. fault ≡ OutOfMemory) }
{
    if lines.count(thread) >= LINE_LIMIT {
        return Err(FaultKind::TooManyLines.at(number));
    }
    lines.push(thread, Line { number, what })?;
    Ok(())
}
