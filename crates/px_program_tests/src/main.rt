//! Runs both programs over rows of plans, scripts and journals, and says which of them don't print what they have to.
//!
//! The rows are the file `stdin`, in tables: the transitions in the order of their rows, the conflicts of writers, the
//! effects of moves, the values of expressions, the events, scripts, whole runs, refusals, sessions over a journal, the
//! names of its interfaces, the bytes of its entries, command words, scripts of several threads and their waits, the
//! faults of plans with a sound plan beside each, operators, syntax, depth, tokens, numbers of nodes, values, the names
//! of paths, layouts, soaks, events that don't settle within 100,000 micro steps, files and texts as large as may be or
//! larger by one, bytes that are no text, and what the second program says and draws. All texts and bytes in it were worked
//! out by hand, from the tables of docs/LANGUAGE.md and docs/SEMANTICS.md and the forms of docs/FORMATS.md and
//! docs/WRITING-PLANS.md. A row is
//!
//! ```text
//! NAME
//! the command's words
//! ---- plan
//! the content of the file P
//! ---- script
//! the content of the file S
//! ---- faults fetch=NUMBER emit=NUMBER device=NUMBER stop=NUMBER image=IMAGE piece=NUMBER
//! ---- journal BYTES
//! ---- answers STATUS
//! the text that is emitted
//! ---- leaves BYTES
//! ====
//! ```
//!
//! where the line feed before a mark belongs to the mark, but the one that ends the text belongs to the text. Where the text
//! begins with a line `..`, the one that is emitted ends with the lines behind it, and where it ends with one, the one that
//! is emitted begins with those before it. In the content of a file `«COUNT times TEXT»` is the text so many times, and
//! `«bytes BYTES»` what is no text.
//!
//! The BYTES are what a read of the disk gives before the call and after it, in hexadecimal, two digits a byte; blanks and
//! line feeds between them say nothing. A row without `journal` has an empty disk, and one without `leaves` leaves the disk
//! as it was; behind `leaves ..` stands how the bytes end. In `faults` stands which fetch, emit or device call fails, each
//! counted from 1, and how many bytes the sink takes at once; what isn't named doesn't fail, and the sink takes all. With
//! `stop` each device call behind so many fails, as in a power cut, and `leaves` then tells the IMAGE of a crash: `stable`
//! is what was synced last, and the number of a byte what a read gives with this byte in place of each that was written
//! since; without IMAGE it is what a read gives.
//!
//! The threads of a script run side by side: a row with several has the waits by which each order comes to the same.
//!
//! A row whose words begin with `plexil-view` calls the second program. It finds the BYTES as a file J, and a text that goes
//! to a file has `to NAME` above it.
//!
//! Each other row is run on both steppers, the queued machine and the plain one, but for plans that are made, which are too large
//! for the plain one. A row that doesn't hold is printed with what was answered in place of what had to be and on which, and
//! at the end the number of rows that hold. Behind it stands what is no row: a journal of eight threads, cut or changed at
//! each byte (`eight_threads`), and two threads that run at once and in each order (`side_by_side`).
#![tactic(auto)]

mod bytes;
mod eight_threads;
mod faults;
mod made;
mod pacing;
mod row;
mod running;
mod side_by_side;
mod viewing;

use bytes::{bytes_of, digits_of};
use made::made;
use pacing::Pacing;
use px_machine::Machine;
use px_naive::Naive;
use px_sem::Stepper;
use row::Row;
use running::{Answer, Call, answer_over};
use std::alloc::Global;
use std::io;
use std::sync::Wait;
use std::thread::Threads;
use viewing::view_of;

fn main(rt: HostRuntime) -> anyhow::Result<()> {
    let alloc = rt.alloc();
    let rows = io::read_to_string(alloc, rt.reader())?;
    tell_what_holds(&rt, alloc, rows.as_str())
}

fn tell_what_holds<R: Print + Threads + Wait + Sync>(
    rt: &R,
    alloc: Global,
    rows: &str,
) -> anyhow::Result<()> {
    let held = count_of_rows(rt, alloc, rows)?;
    println!(rt; "{held} rows hold")?;
    let held = eight_threads::count_of_held(rt, alloc)?;
    println!(rt; "{held} calls hold, of eight threads and over their journal")?;
    if side_by_side::run_at_once(rt, alloc)? {
        println!(rt; "two threads run at once")?;
    }
    if side_by_side::come_in_each_order(rt, alloc)? {
        println!(rt; "two threads come in each of three orders")?;
    }
    Ok(())
}

// How many of the rows that are spelled so hold.
fn count_of_rows<R: Print + Threads + Wait + Sync>(
    rt: &R,
    alloc: Global,
    text: &str,
) -> anyhow::Result<u64> {
    let mut rest = text;
    let mut held = 0_u64;
    for _ in 0..text.len() as u64 {
        let Some((spelled, behind)) = rest.split_once("\n====\n") else {
            break;
        };
        rest = behind;
        if holds(rt, alloc, spelled)? {
            held = held.saturating_add(1);
        }
    }
    if !rest.is_empty() {
        println!(rt; "not ended: {rest}")?;
    }
    Ok(held)
}

// Whether the row that is spelled so holds; else it is told.
fn holds<R: Print + Threads + Wait + Sync>(
    rt: &R,
    alloc: Global,
    spelled: &str,
) -> anyhow::Result<bool> {
    let Some(row) = Row::spelled_by(spelled) else {
        println!(rt; "no row: {spelled}")?;
        return Ok(false);
    };
    let plan = made(alloc, row.plan)?;
    let script = made(alloc, row.script)?;
    let journal = bytes_of(alloc, row.journal)?;
    let call = Call {
        words: row.words,
        plan: &plan,
        script: &script,
        journal: &journal,
        faults: row.faults,
    };
    match row.words.strip_prefix("plexil-view ") {
        Some(words) => holds_in_view(rt, alloc, row, words, call),
        None => holds_on_both(rt, alloc, row, call),
    }
}

// Whether the second program answers to these words what the row has; else the answer is told.
fn holds_in_view(
    rt: &impl Print,
    alloc: Global,
    row: Row<'_>,
    words: &str,
    call: Call<'_>,
) -> anyhow::Result<bool> {
    judged(
        rt,
        alloc,
        row,
        "the second program",
        &view_of(alloc, words, call)?,
    )
}

// Whether the row holds on both steppers, or on the queued machine where its plan is made: the plain one looks at each
// node in each step.
fn holds_on_both<R: Print + Threads + Wait + Sync>(
    rt: &R,
    alloc: Global,
    row: Row<'_>,
    call: Call<'_>,
) -> anyhow::Result<bool> {
    let on_machine = holds_on::<Machine, R>(rt, alloc, row, call, "the queued machine")?;
    if row.plan.contains('«') {
        return Ok(on_machine);
    }
    let on_plain = holds_on::<Naive, R>(rt, alloc, row, call, "the plain stepper")?;
    Ok(on_machine && on_plain)
}

// Whether the row's call answers what it has to on a stepper of this type and name; else the answer is told.
fn holds_on<S: Stepper + Send, R: Print + Threads + Wait + Sync>(
    rt: &R,
    alloc: Global,
    row: Row<'_>,
    call: Call<'_>,
    stepper: &str,
) -> anyhow::Result<bool> {
    let answer = answer_over::<S, R>(rt, alloc, call, &Pacing::Nothing)?;
    judged(rt, alloc, row, stepper, &answer)
}

// Whether an answer is the row's; else it is told, with what gave it.
fn judged(
    rt: &impl Print,
    alloc: Global,
    row: Row<'_>,
    by: &str,
    answer: &Answer,
) -> anyhow::Result<bool> {
    if row.allows(alloc, answer)? {
        return Ok(true);
    }
    tell(rt, alloc, row, by, answer)?;
    Ok(false)
}

// Says what was answered in place of what had to be.
fn tell(
    rt: &impl Print,
    alloc: Global,
    row: Row<'_>,
    by: &str,
    answer: &Answer,
) -> anyhow::Result<()> {
    let left = digits_of(alloc, &answer.left)?;
    println!(rt;
        "{}\non {by}\n{}\n{}\n{}---- leaves{left}\n====",
        row.name, row.words, answer.status, answer.text
    )?;
    Ok(())
}
