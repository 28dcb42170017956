//! Reads the expressions and plans of rows, and says which of them aren't read as they have to be.
//!
//! The rows are the file `stdin`, in tables: operators of different levels and of one level, operators before one operand,
//! what is no operation, where an expression begins and ends, how deep it may be, and then the parts of plans. Each tree in
//! it was worked out by hand, from the grammar of docs/LANGUAGE.md. A row is
//!
//! ```text
//! NAME
//! ---- expression from TOKEN
//! a text
//! ---- tree
//! the tree of the expression that begins at this token, and behind a blank the number of the token behind it
//! ====
//! ```
//!
//! or has in place of the second line `---- expression`, which begins at the first token, or `---- plan`, of which the tree
//! is that of the whole text. Where a text is refused, the tree is what it is refused for. The line feed before a mark
//! belongs to the mark. A row that doesn't hold is printed with what was read in place of what had to be, and at the end the
//! number of rows that hold.
//!
//! `shown` has the form of the trees.
#![tactic(auto)]

mod read;
mod row;
mod shown;

use read::read;
use row::Row;
use std::alloc::Global;
use std::io;

fn main(rt: HostRuntime) -> anyhow::Result<()> {
    let alloc = rt.alloc();
    let text = io::read_to_string(alloc, rt.reader())?;
    let mut rest = text.as_str();
    let mut held = 0_u64;
    for _ in 0..text.len() as u64 {
        let Some((spelled, behind)) = rest.split_once("\n====\n") else {
            break;
        };
        rest = behind;
        if holds(&rt, alloc, spelled)? {
            held = held.saturating_add(1);
        }
    }
    if !rest.is_empty() {
        println!(rt; "not ended: {rest}")?;
    }
    println!(rt; "{held} rows hold")?;
    Ok(())
}

// Whether the row that is spelled so holds; else it is told.
fn holds(rt: &impl Print, alloc: Global, spelled: &str) -> anyhow::Result<bool> {
    let Some(row) = Row::spelled_by(spelled) else {
        println!(rt; "no row: {spelled}")?;
        return Ok(false);
    };
    let tree = read(alloc, row.text, row.part)?;
    if tree.as_str() == row.tree {
        return Ok(true);
    }
    println!(rt;
        "{}\n{}\n{tree} instead of {}\n====",
        row.name, row.text, row.tree
    )?;
    Ok(false)
}
