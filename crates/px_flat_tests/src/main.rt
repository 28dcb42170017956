//! Runs claims over rows of plans, and kept conditions over changes of two plans, and says which of them aren't as they have
//! to be.
//!
//! The rows are the file `stdin`: who of the writers of a variable goes. Each was worked out by hand, from the rules of
//! docs/SEMANTICS.md. A row is
//!
//! ```text
//! NAME
//! ---- plan
//! the plan's text
//! ---- claims
//! the calls, each a line: `want PATH` where the node would start, `stay PATH` where it wouldn't any more, `hold PATH`
//! where it is at work, and `leave PATH` where it isn't any more; and `goes PATHS`, the nodes that go then, in preorder
//! ====
//! ```
//!
//! where the line feed before a mark belongs to the mark. A row that doesn't hold is printed with what goes in place of
//! what had to, and at the end the number of rows that hold.
//!
//! `drive` has twenty changes of a rover's drive, and `wide` a List over as many children as may be; both have beside each
//! change which nodes have to be told and at how many parts of conditions has to be looked, which `bench` keeps.
#![tactic(auto)]

mod bench;
mod contest;
mod drive;
mod row;
mod tables;
mod wide;

use contest::Contest;
use row::Row;
use std::alloc::Global;
use std::io;

fn main(rt: HostRuntime) -> anyhow::Result<()> {
    let alloc = rt.alloc();
    let text = io::read_to_string(alloc, rt.reader())?;
    let rows = held(&rt, alloc, text.as_str())?;
    println!(rt; "{rows} rows hold")?;
    let changes = drive::held(&rt, alloc)?;
    println!(rt; "{changes} changes of the drive hold")?;
    if wide::holds_all(&rt, alloc)? {
        println!(rt; "the wide plan holds")?;
    }
    Ok(())
}

// How many of the rows of a text hold. Others are told.
fn held(rt: &impl Print, alloc: Global, text: &str) -> anyhow::Result<u64> {
    let mut rest = text;
    let mut held = 0_u64;
    for _ in 0..text.len() as u64 {
        let Some((spelled, behind)) = rest.split_once("\n====\n") else {
            break;
        };
        rest = behind;
        if holds(rt, alloc, spelled)? {
            held = held.saturating_add(1);
        }
    }
    if !rest.is_empty() {
        println!(rt; "not ended: {rest}")?;
    }
    Ok(held)
}

// Whether the row that is spelled so holds; else it is told.
fn holds(rt: &impl Print, alloc: Global, spelled: &str) -> anyhow::Result<bool> {
    let Some(row) = Row::spelled_by(spelled) else {
        println!(rt; "no row: {spelled}")?;
        return Ok(false);
    };
    match answered(alloc, row) {
        Ok(calls) => {
            if calls.as_str() == row.calls {
                return Ok(true);
            }
            println!(rt; "{}\n{calls}\n====", row.name)?;
        }
        Err(fault) => println!(rt; "{}: {fault}", row.name)?,
    }
    Ok(false)
}

// The row's calls, with what goes.
fn answered(alloc: Global, row: Row<'_>) -> anyhow::Result<String> {
    let mut contest = Contest::of(alloc, row.plan)?;
    let calls = contest.answered(alloc, row.calls);
    drop(contest);
    calls
}
