//! Compiles the plans of rows, and says which of their core plans aren't those that they have to be.
//!
//! The rows are the file `stdin`, in tables: blocks, variables and priorities, conditions, expressions, the forms of blocks,
//! terms joined in halves, `if`, `while` and `for`, names and what they mean, forms in one another, tokens, and long plans.
//! Each core plan in it was worked out by hand, from the tables of docs/LANGUAGE.md. A row is
//!
//! ```text
//! NAME
//! ---- plan
//! the plan's text
//! ---- core
//! the core plan, a line for each node
//! ====
//! ```
//!
//! where the line feed before a mark belongs to the mark. The text of a long plan is made of parts. Such a row is
//!
//! ```text
//! NAME
//! ---- parts
//! the parts, each a line: how often it stands there, a blank, and the part, with `#` where the number is to stand
//! ---- answers
//! the number of nodes, or what the text is refused for
//! ====
//! ```
//!
//! A row that doesn't hold is printed with what was compiled in place of what had to be, and at the end the number of rows
//! that hold.
//!
//! `printed` has the form of the lines, and `no_text` bytes that are no text and hence no rows. The long plans take
//! minutes in `rt try`, which needs `--seconds 500` for them.
#![tactic(auto)]

mod compiled;
mod made;
mod no_text;
mod printed;
mod row;

use compiled::{core_of, nodes_of};
use made::text_of;
use row::{Row, Source};
use std::alloc::Global;
use std::io;

fn main(rt: HostRuntime) -> anyhow::Result<()> {
    let alloc = rt.alloc();
    let text = io::read_to_string(alloc, rt.reader())?;
    let mut rest = text.as_str();
    let mut held = 0_u64;
    for _ in 0..text.len() as u64 {
        let Some((spelled, behind)) = rest.split_once("\n====\n") else {
            break;
        };
        rest = behind;
        if holds(&rt, alloc, spelled)? {
            held = held.saturating_add(1);
        }
    }
    if !rest.is_empty() {
        println!(rt; "not ended: {rest}")?;
    }
    println!(rt; "{held} rows hold")?;
    let refused = no_text::held(&rt, alloc)?;
    println!(rt; "{refused} are no text")?;
    Ok(())
}

// Whether the row that is spelled so holds; else it is told.
fn holds(rt: &impl Print, alloc: Global, spelled: &str) -> anyhow::Result<bool> {
    let Some(Row { name, plan, wanted }) = Row::spelled_by(spelled) else {
        println!(rt; "no row: {spelled}")?;
        return Ok(false);
    };
    let answered = answered(alloc, plan)?;
    if answered.as_str() == wanted {
        return Ok(true);
    }
    let (Source::Text(plan) | Source::Parts(plan)) = plan;
    println!(rt; "{name}\n{plan}\n{answered}\n====")?;
    Ok(false)
}

fn answered(alloc: Global, plan: Source<'_>) -> anyhow::Result<String> {
    match plan {
        Source::Text(text) => Ok(core_of(alloc, text)?),
        Source::Parts(parts) => {
            let text = text_of(alloc, parts)?;
            Ok(nodes_of(alloc, text.as_bytes())?)
        }
    }
}
